// Messages with their bodies, and the same bytes in any pieces.
use super::{delta, framed};
use std::alloc::Global;
use std::test::Fail;
use ty_base::{Deltas, Kind, NoMemory, Status, Text};
use ty_wire::{Frames, Msg, Msgs, fits, write};

// A message, in words.
#[derive(Clone, Copy)]
enum Word {
    ServerHello(u64),
    ClientHello(u64, &'static str),
    State(Status),
    Crumb(u64),
    Kvs(&'static [(&'static str, Kind, &'static str)]),
    Ping(u64),
    Pong(u64),
}

struct Row {
    word: Word,
    body: &'static str,
    len: usize,
}

const ROWS: [Row; 11] = [
    Row {
        word: Word::ServerHello(1),
        body: r#"{"m":"server_hello","version":1}"#,
        len: 32,
    },
    Row {
        word: Word::State(Status::Wait),
        body: r#"{"m":"status","status":"wait-for-ready"}"#,
        len: 40,
    },
    Row {
        word: Word::Crumb(0),
        body: r#"{"m":"crumb","n":0}"#,
        len: 19,
    },
    Row {
        word: Word::Kvs(&[("/calico/v1/Ready", Kind::New, "true")]),
        body: r#"{"kvs":[{"key":"/calico/v1/Ready","type":"new","value":"true"}],"m":"kvs"}"#,
        len: 74,
    },
    Row {
        word: Word::State(Status::InSync),
        body: r#"{"m":"status","status":"in-sync"}"#,
        len: 33,
    },
    Row {
        word: Word::Kvs(&[
            ("/calico/v1/config/a", Kind::New, r#""2""#),
            ("/calico/v1/config/b", Kind::New, r#""1""#),
        ]),
        body: r#"{"kvs":[{"key":"/calico/v1/config/a","type":"new","value":"\"2\""},{"key":"/calico/v1/config/b","type":"new","value":"\"1\""}],"m":"kvs"}"#,
        len: 137,
    },
    Row {
        word: Word::ClientHello(1, "n1"),
        body: r#"{"host":"n1","m":"client_hello","version":1}"#,
        len: 44,
    },
    Row {
        word: Word::Kvs(&[
            ("k\u{1}\u{1f}\u{7f}é", Kind::Updated, "\\\u{8}\u{c}\n\r\t/"),
            ("k", Kind::Deleted, ""),
        ]),
        body: "{\"kvs\":[{\"key\":\"k\\u0001\\u001f\u{7f}é\",\"type\":\"updated\",\"value\":\"\\\\\\b\\f\\n\\r\\t/\"},{\"key\":\"k\",\"type\":\"deleted\"}],\"m\":\"kvs\"}",
        len: 116,
    },
    Row {
        word: Word::State(Status::Resync),
        body: r#"{"m":"status","status":"resync"}"#,
        len: 32,
    },
    Row {
        word: Word::Ping(u64::MAX),
        body: r#"{"m":"ping","ts":18446744073709551615}"#,
        len: 38,
    },
    Row {
        word: Word::Pong(10_000),
        body: r#"{"m":"pong","ts":10000}"#,
        len: 23,
    },
];

fn kvs(alloc: Global, table: &[(&str, Kind, &str)]) -> Result<Msg, NoMemory> {
    let mut deltas = Deltas::new(alloc);
    for (key, kind, value) in table {
        let change = delta(alloc, key, *kind, value)?;
        deltas.push(change)?;
    }
    Ok(Msg::Kvs(deltas))
}

fn message(alloc: Global, word: Word) -> Result<Msg, NoMemory> {
    Ok(match word {
        Word::ServerHello(version) => Msg::ServerHello { version },
        Word::ClientHello(version, host) => {
            let host = Text::of(alloc, host)?;
            Msg::ClientHello { version, host }
        }
        Word::State(status) => Msg::Status(status),
        Word::Crumb(n) => Msg::Crumb { n },
        Word::Kvs(table) => kvs(alloc, table)?,
        Word::Ping(ts) => Msg::Ping { ts },
        Word::Pong(ts) => Msg::Pong { ts },
    })
}

// The frames of messages that fit, and nothing for the others.
fn append(alloc: Global, msgs: &[Msg], out: &mut Vec<u8>) -> Result<(), NoMemory> {
    for msg in msgs {
        if fits(alloc, msg)? {
            write(alloc, msg, out)?;
        }
    }
    Ok(())
}

// Whether the message of a row is written as its body says.
fn goes_as(alloc: Global, row: &Row) -> Result<bool, NoMemory> {
    let mut out = Vec::new(alloc);
    append(alloc, &[message(alloc, row.word)?], &mut out)?;
    let wanted = framed(alloc, &[row.body.as_bytes()])?;
    Ok(out == wanted && row.body.len() == row.len)
}

#[test]
fn bodies_and_their_lengths(rt: HostRuntime) -> Result<(), Fail> {
    let alloc = rt.alloc();
    for row in &ROWS {
        assert!(rt; goes_as(alloc, row)?, "{}", row.body);
    }
    Ok(())
}

// The frames of all rows.
fn all_frames(alloc: Global) -> Result<Vec<u8>, NoMemory> {
    let mut out = Vec::new(alloc);
    for row in &ROWS {
        out.extend_from_slice(&framed(alloc, &[row.body.as_bytes()])?)?;
    }
    Ok(out)
}

// The frames of the messages that pieces bring, where all is read at the end.
fn again(alloc: Global, pieces: &[&[u8]]) -> Result<Vec<u8>, NoMemory> {
    let mut frames = Frames::new(alloc);
    let mut out = Vec::new(alloc);
    for piece in pieces {
        let got = frames.feed(alloc, piece)?;
        append(alloc, got.msgs.as_slice(), &mut out)?;
    }
    if frames.left() > 0 {
        out.clear();
    }
    Ok(out)
}

#[test]
fn two_pieces_bring_the_same(rt: HostRuntime) -> Result<(), Fail> {
    let alloc = rt.alloc();
    let bytes = all_frames(alloc)?;
    for cut in 0..=bytes.len() {
        let (front, back) = bytes.split_at(cut);
        let out = again(alloc, &[front, back])?;
        assert!(rt; out == bytes, "at {cut}");
    }
    Ok(())
}

// How many bytes bring the first message, one by one.
fn bytes_until_one(alloc: Global, bytes: &[u8]) -> Result<usize, NoMemory> {
    let mut frames = Frames::new(alloc);
    let mut count = 0usize;
    for byte in bytes.chunks(1) {
        count = count.saturating_add(1);
        let got = frames.feed(alloc, byte)?;
        if got.msgs.len() > 0 {
            return Ok(count);
        }
    }
    Ok(0)
}

#[test]
fn single_bytes_bring_the_same(rt: HostRuntime) -> Result<(), Fail> {
    let alloc = rt.alloc();
    let bytes = all_frames(alloc)?;
    let mut pieces: Vec<&[u8]> = Vec::new(alloc);
    for byte in bytes.chunks(1) {
        pieces.push(byte)?;
    }
    let out = again(alloc, pieces.as_slice())?;
    assert!(rt; out == bytes);
    let crumb = framed(alloc, &[br#"{"m":"crumb","n":1}"#.as_slice()])?;
    assert_eq!(rt; bytes_until_one(alloc, crumb.as_slice())?, 23);
    Ok(())
}
