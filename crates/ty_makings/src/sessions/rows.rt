// What a client may say, when it is dropped, and what is queued: worked rows.
use super::{HELLO, joined, ready};
use std::alloc::Global;
use std::test::Fail;
use ty_crumb::Crumb;
use ty_group::Encoded;
use ty_session::{Gone, Phase, Reason, Session};
use ty_wire::WireFault;

const HELLO_9: &[u8] = b"\x00\x00\x00,{\"host\":\"n1\",\"m\":\"client_hello\",\"version\":9}";

const PONG: &[u8] = b"\x00\x00\x00\x13{\"m\":\"pong\",\"ts\":7}";

const PING: &[u8] = b"\x00\x00\x00\x17{\"m\":\"ping\",\"ts\":10000}";

const GROUP: &[u8] =
    b"\x00\x00\x00J{\"kvs\":[{\"key\":\"/calico/v1/Ready\",\"type\":\"new\",\"value\":\"true\"}],\"m\":\"kvs\"}\x00\x00\x00\x13{\"m\":\"crumb\",\"n\":1}";

#[derive(Clone, Copy)]
enum Call {
    Hear(&'static [u8], u64),
    Tick(u64),
    Join(u64),
    Offer(u64),
    Encoded(u64),
    Idle,
    Close,
}

// What a session answers to a call: how many messages it heard, or 0.
fn answer(alloc: Global, session: &mut Session, call: Call, crumb: &Crumb) -> Result<u64, Gone> {
    match call {
        Call::Hear(bytes, now) => return session.hear(alloc, bytes, now),
        Call::Tick(now) => session.tick(alloc, now)?,
        Call::Join(now) => session.join(alloc, crumb, now)?,
        Call::Offer(now) => session.offer(alloc, crumb, now)?,
        Call::Encoded(now) => {
            let encoded = Encoded::of(alloc, &crumb.deltas)?;
            session.offer_encoded(alloc, crumb, &encoded, now)?;
        }
        Call::Idle => session.idle(alloc)?,
        Call::Close => session.leave(Reason::PeerClosed),
    }
    Ok(0)
}

struct Row {
    name: &'static str,
    calls: &'static [Call],
    answer: Result<u64, Gone>,
    out: &'static [u8],
}

const OVER: Result<u64, Gone> = Err(Gone::Left(Reason::PeerClosed));

// On a session that has joined.
const JOINED: [Row; 19] = [
    Row {
        name: "a young breadcrumb, encoded",
        calls: &[Call::Encoded(99)],
        answer: Ok(0),
        out: GROUP,
    },
    Row {
        name: "an older one, encoded",
        calls: &[Call::Encoded(100), Call::Idle],
        answer: Ok(0),
        out: GROUP,
    },
    Row {
        name: "too slow, encoded",
        calls: &[Call::Encoded(300_001)],
        answer: Err(Gone::Left(Reason::TooSlow {
            at: 0,
            now: 300_001,
        })),
        out: b"",
    },
    Row {
        name: "a young breadcrumb",
        calls: &[Call::Offer(99)],
        answer: Ok(0),
        out: GROUP,
    },
    Row {
        name: "an older one is held",
        calls: &[Call::Offer(100)],
        answer: Ok(0),
        out: b"",
    },
    Row {
        name: "until there is no next",
        calls: &[Call::Offer(100), Call::Idle],
        answer: Ok(0),
        out: GROUP,
    },
    Row {
        name: "no group is held",
        calls: &[Call::Idle],
        answer: Ok(0),
        out: b"",
    },
    Row {
        name: "before a ping",
        calls: &[Call::Tick(9_999)],
        answer: Ok(0),
        out: b"",
    },
    Row {
        name: "a ping",
        calls: &[Call::Tick(9_999), Call::Tick(10_000)],
        answer: Ok(0),
        out: PING,
    },
    Row {
        name: "one ping",
        calls: &[Call::Tick(10_000), Call::Tick(19_999)],
        answer: Ok(0),
        out: PING,
    },
    Row {
        name: "not silent",
        calls: &[Call::Hear(PONG, 1), Call::Tick(10_000), Call::Tick(10_001)],
        answer: Ok(0),
        out: PING,
    },
    Row {
        name: "silent",
        calls: &[Call::Tick(60_001)],
        answer: Err(Gone::Left(Reason::NoPong {
            heard: 0,
            now: 60_001,
        })),
        out: b"",
    },
    Row {
        name: "silent since a pong",
        calls: &[Call::Hear(PONG, 5), Call::Hear(b"", 9), Call::Tick(60_006)],
        answer: Err(Gone::Left(Reason::NoPong {
            heard: 5,
            now: 60_006,
        })),
        out: b"",
    },
    Row {
        name: "within the greatest lag",
        calls: &[Call::Offer(300_000)],
        answer: Ok(0),
        out: b"",
    },
    Row {
        name: "too slow",
        calls: &[Call::Offer(300_001)],
        answer: Err(Gone::Left(Reason::TooSlow {
            at: 0,
            now: 300_001,
        })),
        out: b"",
    },
    Row {
        name: "closed, then bytes",
        calls: &[Call::Close, Call::Hear(PONG, 0)],
        answer: OVER,
        out: b"",
    },
    Row {
        name: "closed, then time",
        calls: &[Call::Close, Call::Tick(70_000)],
        answer: OVER,
        out: b"",
    },
    Row {
        name: "a second hello",
        calls: &[Call::Hear(PONG, 1), Call::Hear(HELLO, 2)],
        answer: Err(Gone::Left(Reason::BadOrder { frame: 3 })),
        out: b"",
    },
    Row {
        name: "many pongs",
        calls: &[Call::Hear(PONG, 1), Call::Hear(PONG, 1)],
        answer: Ok(1),
        out: b"",
    },
];

// On a session that was opened at 0.
const OPENED: [Row; 12] = [
    Row {
        name: "a hello",
        calls: &[Call::Hear(HELLO, 5)],
        answer: Ok(1),
        out: b"",
    },
    Row {
        name: "another version",
        calls: &[Call::Hear(HELLO_9, 0)],
        answer: Err(Gone::Left(Reason::BadHello { version: 9 })),
        out: b"",
    },
    Row {
        name: "a pong first",
        calls: &[Call::Hear(PONG, 0)],
        answer: Err(Gone::Left(Reason::BadOrder { frame: 1 })),
        out: b"",
    },
    Row {
        name: "the same later",
        calls: &[Call::Hear(PONG, 0), Call::Hear(HELLO, 0)],
        answer: Err(Gone::Left(Reason::BadOrder { frame: 1 })),
        out: b"",
    },
    Row {
        name: "the same at a tick",
        calls: &[Call::Hear(PONG, 0), Call::Tick(10_001)],
        answer: Err(Gone::Left(Reason::BadOrder { frame: 1 })),
        out: b"",
    },
    Row {
        name: "no JSON",
        calls: &[Call::Hear(b"\x00\x00\x00\x04oops", 0)],
        answer: Err(Gone::Left(Reason::BadBytes(WireFault::NotJson { frame: 1 }))),
        out: b"",
    },
    Row {
        name: "no message",
        calls: &[Call::Hear(HELLO, 0), Call::Hear(b"\x00\x00\x00\x02{}", 0)],
        answer: Err(Gone::Left(Reason::BadBytes(WireFault::Shape { frame: 2 }))),
        out: b"",
    },
    Row {
        name: "too long",
        calls: &[Call::Hear(b"\x00\x80\x00\x01", 0)],
        answer: Err(Gone::Left(Reason::BadBytes(WireFault::TooLong {
            frame: 1,
            len: 8_388_609,
        }))),
        out: b"",
    },
    Row {
        name: "time for a hello",
        calls: &[Call::Tick(10_000)],
        answer: Ok(0),
        out: b"",
    },
    Row {
        name: "no hello",
        calls: &[Call::Hear(b"\x00\x00", 9_000), Call::Tick(10_001)],
        answer: Err(Gone::Left(Reason::NoHello {
            opened: 0,
            now: 10_001,
        })),
        out: b"",
    },
    Row {
        name: "no ping before the joining",
        calls: &[Call::Hear(HELLO, 3), Call::Tick(60_003)],
        answer: Ok(0),
        out: b"",
    },
    Row {
        name: "silent before the joining",
        calls: &[Call::Hear(HELLO, 3), Call::Tick(60_004)],
        answer: Err(Gone::Left(Reason::NoPong {
            heard: 3,
            now: 60_004,
        })),
        out: b"",
    },
];

// The answer to the last call.
fn last_answer(
    alloc: Global,
    session: &mut Session,
    row: &Row,
    crumb: &Crumb,
) -> Result<u64, Gone> {
    let mut last = Ok(0);
    for call in row.calls {
        last = answer(alloc, session, *call, crumb);
    }
    last
}

#[test]
fn opened_and_joined_sessions_answer(rt: HostRuntime) -> Result<(), Fail> {
    let alloc = rt.alloc();
    let first = Crumb::first(alloc, 0);
    let crumb = ready(alloc, &first)?;
    for row in &OPENED {
        let mut session = Session::new(alloc, 0);
        assert_eq!(rt;
            last_answer(alloc, &mut session, row, &crumb),
            row.answer,
            "{}",
            row.name
        );
        assert!(rt; session.out() == row.out, "{}", row.name);
    }
    for row in &JOINED {
        let mut session = joined(alloc, &first)?;
        assert_eq!(rt;
            last_answer(alloc, &mut session, row, &crumb),
            row.answer,
            "{}",
            row.name
        );
        assert!(rt; session.out() == row.out, "{}", row.name);
    }
    Ok(())
}

#[test]
fn bytes_come_in_any_pieces(rt: HostRuntime) -> Result<(), Fail> {
    let alloc = rt.alloc();
    for step in 1..50 {
        let mut session = Session::new(alloc, 0);
        let mut said = Vec::from_slice(alloc, HELLO)?;
        said.extend_from_slice(PONG)?;
        said.extend_from_slice(PONG)?;
        let mut heard: u64 = 0;
        for piece in said.chunks(step) {
            heard = session
                .hear(alloc, piece, 4)
                .unwrap_or(100)
                .saturating_add(heard);
        }
        assert_eq!(rt; heard, 3);
        assert_eq!(rt; session.phase(), Phase::Greeted);
        assert_eq!(rt; session.left(), 0);
        session.quiet(5);
        assert_eq!(rt; (session.due(1_004), session.due(1_005)), (false, true));
    }
    Ok(())
}
