// Sources and sinks that fail.
use crate::runs::{
    CRUMB_0, CRUMB_1, Devices, FEED, GOOD, HELLO, IN_SYNC, READY, WAIT, came, framed, run,
};
use std::alloc::Global;
use std::test::Fail;

fn whole(alloc: Global) -> Result<Vec<u8>, Fail> {
    Ok(framed(alloc, &[HELLO, WAIT, CRUMB_0, READY, IN_SYNC, CRUMB_1])?)
}

#[test]
fn a_source_that_fails_behind_its_feed(rt: HostRuntime) -> Result<(), Fail> {
    let alloc = rt.alloc();
    let devices = Devices {
        read_fails: 2,
        ..GOOD
    };
    let ran = run(alloc, &["stream"], FEED.as_bytes(), devices)?;
    assert!(rt; came(&ran, 3, &whole(alloc)?, "typha: read fault\n"));
    assert_eq!(rt; ran.given.len(), 241);
    Ok(())
}

#[test]
fn a_sink_with_less_room_has_a_front(rt: HostRuntime) -> Result<(), Fail> {
    let alloc = rt.alloc();
    let whole = whole(alloc)?;
    for room in 0..=241usize {
        let ran = run(
            alloc,
            &["stream"],
            FEED.as_bytes(),
            Devices { room, ..GOOD },
        )?;
        assert_eq!(rt; ran.status, if room == 241 { 0 } else { 4 });
        assert!(rt; whole.starts_with(&ran.given));
        assert_eq!(rt; ran.given.len(), room);
    }
    Ok(())
}

#[test]
fn a_sink_that_fails(rt: HostRuntime) -> Result<(), Fail> {
    let alloc = rt.alloc();
    let first = Devices {
        write_fails: 1,
        ..GOOD
    };
    let ran = run(alloc, &["stream"], FEED.as_bytes(), first)?;
    assert!(rt; came(&ran, 4, b"", "typha: write fault\n"));
    let second = Devices {
        write_fails: 2,
        ..GOOD
    };
    let opening = framed(alloc, &[HELLO, WAIT, CRUMB_0])?;
    let ran = run(alloc, &["stream"], FEED.as_bytes(), second)?;
    assert!(rt; came(&ran, 4, &opening, "typha: write fault\n"));
    let third = Devices {
        write_fails: 3,
        ..GOOD
    };
    let ran = run(alloc, &["stream"], FEED.as_bytes(), third)?;
    assert!(rt; came(&ran, 0, &whole(alloc)?, ""));
    Ok(())
}

// Of 65,537 bytes that would come at once, the third take comes to the end: of a feed of blank lines, and in a frame.
#[test]
fn a_take_has_65_536_bytes_at_most(rt: HostRuntime) -> Result<(), Fail> {
    let alloc = rt.alloc();
    for (word, byte, status) in [("stream", b'\n', 0u8), ("follow", 0x00, 9)] {
        let mut bytes = b"\n\n\n\n".to_vec(alloc)?;
        if status == 9 {
            bytes = b"\x00\x01\x00\x00".to_vec(alloc)?;
        }
        bytes.resize(65_537, byte)?;
        for (read_fails, status) in [(2u64, 3), (3, 3), (4, status)] {
            let devices = Devices { read_fails, ..GOOD };
            let ran = run(alloc, &[word], &bytes, devices)?;
            assert_eq!(rt; ran.status, status, "{word} {read_fails}");
        }
    }
    Ok(())
}
