// What no clause says: texts from outside, and that calls succeed where there is memory.
use crate::{
    Delta, Deltas, Failed, Kind, List, MemSink, MemSource, ReadFault, Sink, Source, Status, Text,
    TextFault, give_all, print_u64, read_all, read_status, read_u64, status_text,
};
use std::alloc::Global;
use std::cmp::Ordering;
use std::test::Fail;

fn pieces(alloc: Global, texts: &[&str]) -> Result<Vec<Vec<u8>>, Fail> {
    let mut all = Vec::new(alloc);
    for text in texts {
        all.push(text.as_bytes().to_vec(alloc)?)?;
    }
    Ok(all)
}

#[test]
fn numbers_have_one_spelling(rt: HostRuntime) -> Result<(), Fail> {
    for (text, number) in [
        ("0", Some(0u64)),
        ("7", Some(7)),
        ("18446744073709551615", Some(u64::MAX)),
        ("18446744073709551616", None),
        ("99999999999999999999999", None),
        ("00", None),
        ("07", None),
        ("", None),
        ("+7", None),
        ("-1", None),
        ("7 ", None),
        ("1e3", None),
    ] {
        assert_eq!(rt; read_u64(text.as_bytes()), number, "{text}");
        if let Some(n) = number {
            let mut out = Vec::new(rt.alloc());
            print_u64(n, &mut out)?;
            assert_eq!(rt; out.as_slice(), text.as_bytes());
        }
    }
    Ok(())
}

#[test]
fn texts_and_statuses(rt: HostRuntime) -> Result<(), Fail> {
    let text = Text::read(rt.alloc(), "žąs".as_bytes()).map_err(|_| "no text")?;
    let same = Text::of(rt.alloc(), "žąs")?.copy(rt.alloc())?;
    assert!(rt; text.same(&same));
    assert_eq!(rt;
        text.compare(&Text::of(rt.alloc(), "z")?),
        Ordering::Greater
    );
    assert_eq!(rt; text.bytes().len(), 5);
    let back = Text::from_string(same.into_string());
    assert_eq!(rt; back.as_str(), "žąs");
    for bytes in [
        b"\xff".as_slice(),
        b"\xed\xa0\x80".as_slice(),
        b"\xc0\x80".as_slice(),
    ] {
        assert!(rt; matches!(Text::read(rt.alloc(), bytes), Err(TextFault::NotUtf8)));
    }
    for (text, status) in [
        ("wait-for-ready", Some(Status::Wait)),
        ("resync", Some(Status::Resync)),
        ("in-sync", Some(Status::InSync)),
        ("In-Sync", None),
        ("", None),
    ] {
        assert_eq!(rt; read_status(text.as_bytes()), status);
        if let Some(status) = status {
            assert_eq!(rt; status_text(status), text);
        }
    }
    Ok(())
}

#[test]
fn deltas_keep_their_order(rt: HostRuntime) -> Result<(), Fail> {
    let mut deltas = Deltas::new(rt.alloc());
    assert!(rt; deltas.is_empty());
    for key in ["b", "a"] {
        deltas.push(Delta {
            key: Text::of(rt.alloc(), key)?,
            kind: Kind::Deleted,
            value: None,
        })?;
    }
    assert_eq!(rt; deltas.len(), 2);
    assert_eq!(rt; deltas.at(1).key.as_str(), "a");
    let mut list = Vec::new(rt.alloc());
    list.push(Delta {
        key: Text::of(rt.alloc(), "k")?,
        kind: Kind::New,
        value: Some(Text::of(rt.alloc(), "1")?),
    })?;
    assert_eq!(rt; Deltas::from_vec(list).as_slice().len(), 1);
    Ok(())
}

#[test]
fn lists_give_what_was_pushed(rt: HostRuntime) -> Result<(), Fail> {
    let mut numbers = List::new(rt.alloc());
    for n in [7u64, 3, 7] {
        numbers.push(n)?;
    }
    assert_eq!(rt; numbers.len(), 3);
    assert_eq!(rt; numbers.at(1), &3);
    assert_eq!(rt; numbers.as_slice(), [7u64, 3, 7].as_slice());
    assert_eq!(rt; numbers.into_vec().as_slice().len(), 3);
    Ok(())
}

#[test]
fn a_source_gives_piece_by_piece_and_fails_when_told(rt: HostRuntime) -> Result<(), Fail> {
    let fails = vec![in rt.alloc(); 2u64]?;
    let texts = pieces(rt.alloc(), &["ab", "", "cde"])?;
    let mut source = MemSource::new(rt.alloc(), texts, fails)?;
    let mut buf = [0u8; 2];
    assert_eq!(rt; source.take(&mut buf), Ok(2));
    assert_eq!(rt; source.take(&mut buf), Err(Failed));
    assert_eq!(rt; source.take(&mut buf), Ok(2));
    assert_eq!(rt; buf, *b"cd");
    assert_eq!(rt; source.take(&mut buf), Ok(1));
    assert_eq!(rt; source.take(&mut buf), Ok(0));
    assert_eq!(rt; source.faults(), 1);
    let texts = pieces(rt.alloc(), &["ab", "cde"])?;
    let mut source = MemSource::new(rt.alloc(), texts, Vec::new(rt.alloc()))?;
    let all = read_all(rt.alloc(), &mut source).map_err(|_| "no bytes")?;
    assert_eq!(rt; all.as_slice(), b"abcde".as_slice());
    let texts = pieces(rt.alloc(), &["ab", "cde"])?;
    let mut source = MemSource::new(rt.alloc(), texts, vec![in rt.alloc(); 3u64]?)?;
    assert!(rt; matches!(read_all(rt.alloc(), &mut source), Err(ReadFault::Failed)));
    Ok(())
}

// Of a text of 65,537 bytes, the third call comes to its end.
#[test]
fn a_call_moves_65_536_bytes_at_most(rt: HostRuntime) -> Result<(), Fail> {
    let mut text = Vec::new(rt.alloc());
    text.resize(65_537, b'x')?;
    for (failing, whole) in [(3u64, false), (4, true)] {
        let mut texts = Vec::new(rt.alloc());
        texts.push(text.to_vec(rt.alloc())?)?;
        let mut source = MemSource::new(rt.alloc(), texts, vec![in rt.alloc(); failing]?)?;
        assert_eq!(rt; read_all(rt.alloc(), &mut source).is_ok(), whole);
    }
    for (failing, given) in [(2u64, 65_536usize), (3, 65_537)] {
        let mut sink = MemSink::new(rt.alloc(), 70_000, vec![in rt.alloc(); failing]?)?;
        assert_eq!(rt; give_all(&mut sink, &text).is_ok(), given == 65_537);
        assert_eq!(rt; sink.given().len(), given);
    }
    Ok(())
}

#[test]
fn a_sink_takes_what_fits(rt: HostRuntime) -> Result<(), Fail> {
    let mut sink = MemSink::new(rt.alloc(), 5, vec![in rt.alloc(); 2u64]?)?;
    assert_eq!(rt; sink.give(b"abc"), Ok(3));
    assert_eq!(rt; sink.give(b"de"), Err(Failed));
    assert_eq!(rt; sink.give(b"defg"), Ok(2));
    assert_eq!(rt; sink.give(b"f"), Err(Failed));
    assert_eq!(rt; sink.faults(), 2);
    assert_eq!(rt; sink.given(), b"abcde".as_slice());
    let mut sink = MemSink::new(rt.alloc(), 5, Vec::new(rt.alloc()))?;
    assert_eq!(rt; give_all(&mut sink, b"abcde"), Ok(()));
    assert_eq!(rt; give_all(&mut sink, b"f"), Err(Failed));
    assert_eq!(rt; sink.given(), b"abcde".as_slice());
    Ok(())
}
