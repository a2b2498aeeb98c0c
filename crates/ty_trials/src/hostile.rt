// A connection's bytes of which one place is hurt: what is followed before it stands, and the fault has its name.
use crate::realistic::BODIES;
use crate::runs::{CRUMB_0, CRUMB_1, GOOD, HELLO, IN_SYNC, READY, Ran, WAIT, came, framed, run};
use std::alloc::Global;
use std::test::Fail;
use ty_base::NoMemory;

// After how many frames of the realistic stream there is one more line of brief text.
pub(crate) const LINES: [(usize, &str); 5] = [
    (3, "at 0 wait-for-ready 0\n"),
    (5, "at 1 resync 0\n"),
    (8, "at 2 in-sync 8\n"),
    (10, "at 3 in-sync 8\n"),
    (12, "at 4 in-sync 7\n"),
];

// The same of the stream of two breadcrumbs.
const SHORT_LINES: [(usize, &str); 2] = [(3, "at 0 wait-for-ready 0\n"), (6, "at 1 in-sync 1\n")];

const SHORT: [&str; 6] = [HELLO, WAIT, CRUMB_0, READY, IN_SYNC, CRUMB_1];

// The lines that are written behind so many whole frames.
pub(crate) fn text_of(
    alloc: Global,
    lines: &[(usize, &str)],
    frames: usize,
) -> Result<Vec<u8>, NoMemory> {
    let mut text = Vec::new(alloc);
    for (count, line) in lines {
        if *count <= frames {
            text.extend_from_slice(line.as_bytes())?;
        }
    }
    Ok(text)
}

fn note_of(alloc: Global, frame: usize, what: &str) -> Result<String, NoMemory> {
    Ok(format!(in alloc; "typha: frame {frame}: {what}\n")?)
}

fn follow(alloc: Global, bytes: &[u8]) -> Result<Ran, NoMemory> {
    run(alloc, &["follow", "--brief"], bytes, GOOD)
}

// What stands in place of a frame, and what is said of it.
const WAYS: [(&[u8], &str); 5] = [
    (b"\x00\x80\x00\x01", "too long 8388609"),
    (b"\x00\x00\x00\x04oops", "not JSON"),
    (b"\x00\x00\x00\x02{}", "not a message"),
    (b"\x00\x00\x00\x13{\"m\":\"pong\",\"ts\":1}", "out of order"),
    (
        b"\x00\x00\x00 {\"m\":\"server_hello\",\"version\":1}",
        "out of order",
    ),
];

// The frames of the realistic stream, of which the one at this place is another.
fn with_other(alloc: Global, place: usize, other: &[u8]) -> Result<Vec<u8>, NoMemory> {
    let mut bytes = Vec::new(alloc);
    for (at, body) in BODIES.iter().enumerate() {
        if at == place {
            bytes.extend_from_slice(other)?;
        } else {
            bytes.extend_from_slice(&framed(alloc, &[body])?)?;
        }
    }
    Ok(bytes)
}

// Whether another frame at this place is found there, behind the text of what stands before it.
fn is_found(alloc: Global, place: usize, other: &[u8], what: &str) -> Result<bool, NoMemory> {
    let bytes = with_other(alloc, place, other)?;
    let text = text_of(alloc, &LINES, place)?;
    let note = note_of(alloc, place.saturating_add(1), what)?;
    let ran = follow(alloc, &bytes)?;
    Ok(came(&ran, 6, &text, note.as_str()))
}

#[test]
fn another_frame_is_found_at_its_place(rt: HostRuntime) -> Result<(), Fail> {
    let alloc = rt.alloc();
    for place in 0..12usize {
        for (other, what) in WAYS {
            // The first frame is a server hello.
            if place > 0 || other.len() != 36 {
                assert!(rt; is_found(alloc, place, other, what)?, "{place} {what}");
            }
        }
    }
    Ok(())
}

// What comes of a frame that is left out, and of one that stands there twice: the frame at which a fault is found, or
// none, and what is said of it.
const ODD: [((usize, &str), (usize, &str)); 12] = [
    ((1, "out of order"), (2, "out of order")),
    ((2, "out of order"), (3, "out of order")),
    ((3, "out of order"), (4, "crumb 0 after 0")),
    ((0, ""), (5, "out of order")),
    ((5, "out of order"), (6, "crumb 1 after 1")),
    ((0, ""), (0, "")),
    ((0, ""), (8, "out of order")),
    ((8, "out of order"), (9, "crumb 2 after 2")),
    ((0, ""), (0, "")),
    ((0, ""), (11, "crumb 3 after 3")),
    ((0, ""), (0, "")),
    ((0, ""), (13, "crumb 4 after 4")),
];

// The same frames, of which the one at this place stands there so many times.
fn with_times(alloc: Global, place: usize, times: usize) -> Result<Vec<u8>, NoMemory> {
    let body = BODIES.get(place).copied().unwrap_or("");
    let frame = framed(alloc, &[body])?;
    let mut frames = Vec::new(alloc);
    for _ in 0..times {
        frames.extend_from_slice(&frame)?;
    }
    with_other(alloc, place, &frames)
}

// Whether such frames are followed to the end, or up to the frame of the fault.
fn ends_at(alloc: Global, bytes: &[u8], frame: usize, what: &str) -> Result<bool, NoMemory> {
    let ran = follow(alloc, bytes)?;
    if frame == 0 {
        return Ok(ran.status == 0 && ran.notes.is_empty());
    }
    let note = note_of(alloc, frame, what)?;
    Ok(ran.status == 6 && ran.notes.as_slice() == note.as_bytes())
}

#[test]
fn a_frame_that_is_left_out_or_comes_twice(rt: HostRuntime) -> Result<(), Fail> {
    let alloc = rt.alloc();
    for (place, (out, twice)) in ODD.iter().enumerate() {
        let bytes = with_times(alloc, place, 0)?;
        assert!(rt; ends_at(alloc, &bytes, out.0, out.1)?, "{place} out");
        let bytes = with_times(alloc, place, 2)?;
        assert!(rt; ends_at(alloc, &bytes, twice.0, twice.1)?, "{place} twice");
    }
    Ok(())
}

// How many frames of these bodies end within so many bytes, and how many bytes stand behind them.
pub(crate) fn frames_in(bodies: &[&str], bytes: usize) -> (usize, usize) {
    let mut frames: usize = 0;
    let mut left = bytes;
    for body in bodies {
        let len = body.len().saturating_add(4);
        if left < len {
            return (frames, left);
        }
        frames = frames.saturating_add(1);
        left = left.saturating_sub(len);
    }
    (frames, left)
}

// Whether a stream that is cut behind so many bytes tells the lines of the breadcrumbs before.
fn is_cut(
    alloc: Global,
    bodies: &[&str],
    lines: &[(usize, &str)],
    bytes: &[u8],
) -> Result<bool, NoMemory> {
    let (frames, left) = frames_in(bodies, bytes.len());
    let text = text_of(alloc, lines, frames)?;
    let ran = follow(alloc, bytes)?;
    if left == 0 {
        return Ok(came(&ran, 0, &text, ""));
    }
    let note = format!(in alloc; "typha: stream cut {left}\n")?;
    Ok(came(&ran, 9, &text, note.as_str()))
}

#[test]
fn a_stream_that_is_cut_tells_what_came_before(rt: HostRuntime) -> Result<(), Fail> {
    let alloc = rt.alloc();
    let whole = framed(alloc, &SHORT)?;
    for len in 0..=241usize {
        let (front, _) = whole.split_at(len.min(whole.len()));
        assert!(rt; is_cut(alloc, &SHORT, &SHORT_LINES, front)?, "{len}");
    }
    let whole = framed(alloc, &BODIES)?;
    for step in 0..60usize {
        let (front, _) = whole.split_at(step.saturating_mul(47).min(whole.len()));
        assert!(rt; is_cut(alloc, &BODIES, &LINES, front)?, "{step}");
    }
    Ok(())
}

// A byte 0xff: of a length it makes a frame too long, or longer than what is left, and of a body no JSON.
fn status_of(place: usize) -> u8 {
    match place {
        2 | 3 => 9,
        _ => 6,
    }
}

// The bytes, of which the one at this place is 0xff.
fn with_ff(alloc: Global, bytes: &[u8], place: usize) -> Result<Vec<u8>, NoMemory> {
    let mut hurt = Vec::new(alloc);
    for (at, byte) in bytes.iter().enumerate() {
        hurt.push(if at == place { 0xff } else { *byte })?;
    }
    Ok(hurt)
}

#[test]
fn a_byte_that_is_another_is_found_in_its_frame(rt: HostRuntime) -> Result<(), Fail> {
    let alloc = rt.alloc();
    let whole = framed(alloc, &SHORT)?;
    for place in 0..241usize {
        let (frames, at) = frames_in(&SHORT, place);
        let text = text_of(alloc, &SHORT_LINES, frames)?;
        let ran = follow(alloc, &with_ff(alloc, &whole, place)?)?;
        assert_eq!(rt; ran.status, status_of(at), "{place}");
        assert!(rt; ran.given.as_slice() == text.as_slice(), "{place}");
    }
    Ok(())
}
