// The batches and the faults of feeds from outside, in pieces.
use std::alloc::Global;
use std::test::Fail;
use ty_base::{Item, print_u64, status_text};
use ty_intake::{Closed, Fed, Intake, IntakeFault};

// What an item says, as one line of text.
fn tell(item: &Item, out: &mut Vec<u8>) -> Result<(), Fail> {
    match item {
        Item::Put { key, value } => {
            out.extend_from_slice(b"put ")?;
            out.extend_from_slice(key.bytes())?;
            out.extend_from_slice(b" ")?;
            out.extend_from_slice(value.bytes())?;
        }
        Item::Del { key } => {
            out.extend_from_slice(b"del ")?;
            out.extend_from_slice(key.bytes())?;
        }
        Item::State(status) => out.extend_from_slice(status_text(*status).as_bytes())?,
        Item::Mark => out.extend_from_slice(b"mark")?,
    }
    out.push(b'\n')?;
    Ok(())
}

fn tell_batch(batch: &Closed, out: &mut Vec<u8>) -> Result<(), Fail> {
    for item in batch.items.as_slice() {
        tell(item, out)?;
    }
    out.extend_from_slice(b"cut ")?;
    print_u64(batch.cut, out)?;
    out.push(b'\n')?;
    Ok(())
}

fn tell_batches(fed: &Fed, out: &mut Vec<u8>) -> Result<(), Fail> {
    for batch in fed.closed.as_slice() {
        tell_batch(batch, out)?;
    }
    Ok(())
}

fn tell_fault(fault: Option<IntakeFault>, out: &mut Vec<u8>) -> Result<(), Fail> {
    let (name, line) = match fault {
        None => return Ok(()),
        Some(IntakeFault::LongLine { line }) => ("long ", line),
        Some(IntakeFault::BadUtf8 { line }) => ("utf8 ", line),
        Some(IntakeFault::BadLine { line }) => ("bad ", line),
        Some(IntakeFault::TooMuch) => ("much ", 0),
    };
    out.extend_from_slice(name.as_bytes())?;
    print_u64(line, out)?;
    Ok(())
}

// What a feed gives in pieces of so many bytes, and its fault.
fn told(alloc: Global, feed: &[u8], len: usize) -> Result<Vec<u8>, Fail> {
    let mut out = Vec::new(alloc);
    let mut intake = Intake::new(alloc);
    for piece in feed.chunks(len.max(1)) {
        let fed = intake.feed(alloc, piece)?;
        tell_batches(&fed, &mut out)?;
    }
    let fed = intake.end(alloc)?;
    tell_batches(&fed, &mut out)?;
    tell_fault(fed.fault, &mut out)?;
    Ok(out)
}

// Whether a feed gives this, whole and in pieces.
fn gives(alloc: Global, feed: &[u8], wanted: &[u8]) -> Result<bool, Fail> {
    for len in [1, 2, 7, 65_536] {
        if told(alloc, feed, len)?.as_slice() != wanted {
            return Ok(false);
        }
    }
    Ok(true)
}

struct Case {
    feed: &'static str,
    told: &'static str,
}

const FEEDS: [Case; 14] = [
    Case { feed: "", told: "" },
    Case {
        feed: r#"{"key":"/calico/v1/Ready","value":true}
{"status":"in-sync"}
"#,
        told: "put /calico/v1/Ready true\nin-sync\ncut 2\n",
    },
    Case {
        feed: r#"{"key":"/calico/v1/Ready","value":true}

{"key":"/calico/v1/Ready","value":true}

"#,
        told: "put /calico/v1/Ready true\nmark\ncut 2\nput /calico/v1/Ready true\nmark\ncut 4\n",
    },
    Case {
        feed: r#"{"key":"/calico/v1/config/a","value":"1"}
{"key":"/calico/v1/config/b","value":"1"}
{"key":"/calico/v1/config/a","value":"2"}
"#,
        told: r#"put /calico/v1/config/a "1"
put /calico/v1/config/b "1"
put /calico/v1/config/a "2"
cut 3
"#,
    },
    Case {
        feed: r#"{"key":"/calico/v1/config/a","value":"1"}
{"key":"/calico/v1/config/a","value":null}

{"key":"/calico/v1/config/b","value":"1"}

"#,
        told: r#"put /calico/v1/config/a "1"
del /calico/v1/config/a
mark
cut 3
put /calico/v1/config/b "1"
mark
cut 5
"#,
    },
    Case {
        feed: " \t\r\n{\"status\":\"resync\",\"at\":3}\r\n{\"status\":\"wait-for-ready\"}",
        told: "mark\ncut 1\nresync\ncut 2\nwait-for-ready\ncut 3\n",
    },
    Case {
        feed: r#" { "value" : false , "revision" : "71", "key" : "/calico/v1/Ready" } "#,
        told: "put /calico/v1/Ready false\ncut 1\n",
    },
    Case {
        feed: "{\"key\":\"/calico/v1/config/A-z_0.9\",\"value\":\"\\u00e9\\u0001\\/\\\"\"}",
        told: "put /calico/v1/config/A-z_0.9 \"\u{e9}\\u0001/\\\"\"\ncut 1\n",
    },
    Case {
        feed: r#"{"key":"/calico/v1/config/x"}
{"key":"/calico/v1/Ready"}"#,
        told: "del /calico/v1/config/x\ndel /calico/v1/Ready\ncut 2\n",
    },
    Case {
        feed: r#"{"key":"/calico/v1/config/a","key":"/calico/v1/config/b"}"#,
        told: "del /calico/v1/config/b\ncut 1\n",
    },
    // A key that doesn't read gives no item, whatever its value.
    Case {
        feed: r#"{"key":"/calico/v2/x","value":"1"}
{"key":""}
"#,
        told: "",
    },
    Case {
        feed: r#"{"key":"/calico/v2/x","value":"1"}

{"key":"/calico/v2/x"}
{"key":"/calico/v1/Ready","value":true}
"#,
        told: "mark\ncut 1\nput /calico/v1/Ready true\ncut 2\n",
    },
    // An invalid value deletes its key.
    Case {
        feed: r#"{"key":"/calico/v1/Ready","value":"true"}
{"key":"/calico/v1/config/a","value":["1"]}
{"key":"/calico/v1/Ready","value":1.5}
"#,
        told: "del /calico/v1/Ready\ndel /calico/v1/config/a\ndel /calico/v1/Ready\ncut 3\n",
    },
    // What isn't closed when a bad line comes isn't published.
    Case {
        feed: r#"{"key":"/calico/v1/Ready","value":true}

{"key":"/calico/v1/Ready","value":false}
oops

"#,
        told: "put /calico/v1/Ready true\nmark\ncut 2\nbad 4",
    },
];

#[test]
fn a_feed_gives_its_batches_in_any_pieces(rt: HostRuntime) -> Result<(), Fail> {
    for case in &FEEDS {
        assert!(rt;
            gives(rt.alloc(), case.feed.as_bytes(), case.told.as_bytes())?,
            "{}",
            case.feed
        );
    }
    Ok(())
}

// Lines that are bad.
const BAD: [&str; 18] = [
    "oops",
    "7",
    "[]",
    "{}",
    r#"{"value":true}"#,
    r#"{"status":"in-sync""#,
    r#"{"status":"in sync"}"#,
    r#"{"status":null}"#,
    r#"{"status":"in-sync","key":"/calico/v1/Ready"}"#,
    r#"{"status":null,"key":"/calico/v1/Ready"}"#,
    r#"{"status":"in-sync","key":null}"#,
    r#"{"key":null,"value":true}"#,
    r#"{"key":7,"value":true}"#,
    r#"{"key":"/calico/v1/Ready","value":true,"revision":7}"#,
    r#"{"key":"/calico/v1/Ready","value":true,"revision":null}"#,
    r#"{"key":"/calico/v1/Ready","value":true} x"#,
    r#"{"key":"/calico/v1/Ready","value":01}"#,
    "\u{a0}",
];

#[test]
fn the_first_bad_line_is_told(rt: HostRuntime) -> Result<(), Fail> {
    let wanted = "in-sync\ncut 1\nmark\ncut 2\nbad 3".as_bytes();
    for bad in &BAD {
        let mut feed = b"{\"status\":\"in-sync\"}\n\n".to_vec(rt.alloc())?;
        feed.extend_from_slice(bad.as_bytes())?;
        assert!(rt; gives(rt.alloc(), &feed, wanted)?, "{bad}");
        feed.extend_from_slice(b"\n\xff\n\n")?;
        assert!(rt; gives(rt.alloc(), &feed, wanted)?, "{bad}");
    }
    let wanted = "mark\ncut 1\nutf8 2".as_bytes();
    assert!(rt; gives(rt.alloc(), b"\n{\"key\":\"\xff\"}\noops", wanted)?);
    Ok(())
}

#[test]
fn a_batch_closes_at_its_hundredth_update(rt: HostRuntime) -> Result<(), Fail> {
    let mut feed = Vec::new(rt.alloc());
    let mut wanted = Vec::new(rt.alloc());
    for n in 1..102 {
        feed.extend_from_slice(b"{\"key\":\"/calico/v1/config/k")?;
        print_u64(n, &mut feed)?;
        feed.extend_from_slice(b"\",\"value\":\"1\"}\n")?;
        wanted.extend_from_slice(b"put /calico/v1/config/k")?;
        print_u64(n, &mut wanted)?;
        wanted.extend_from_slice(b" \"1\"\n")?;
        if n == 100 {
            wanted.extend_from_slice(b"cut 100\n")?;
        }
    }
    wanted.extend_from_slice(b"cut 101\n")?;
    assert!(rt; gives(rt.alloc(), &feed, &wanted)?);
    Ok(())
}

// How many batches a call gives, and the fault.
fn brief(fed: &Fed) -> (usize, Option<IntakeFault>) {
    (fed.closed.len(), fed.fault)
}

#[test]
fn a_long_line_is_told_at_the_byte_past_the_limit(rt: HostRuntime) -> Result<(), Fail> {
    let alloc = rt.alloc();
    let line = vec![in alloc; b' '; 8_388_608]?;
    let long = Some(IntakeFault::LongLine { line: 2 });
    let mut intake = Intake::new(alloc);
    let first = intake.feed(alloc, &line)?;
    assert_eq!(rt; brief(&first), (0, None));
    let ended = intake.feed(alloc, b"\n")?;
    assert_eq!(rt; brief(&ended), (1, None));
    let whole = intake.feed(alloc, &line)?;
    assert_eq!(rt; brief(&whole), (0, None));
    let past = intake.feed(alloc, b" ")?;
    assert_eq!(rt; brief(&past), (0, long));
    let after = intake.feed(alloc, b"\n\n")?;
    assert_eq!(rt; brief(&after), (0, long));
    let end = intake.end(alloc)?;
    assert_eq!(rt; brief(&end), (0, long));
    Ok(())
}

// Where the first batch of a call closes.
fn first_cut(fed: &Fed) -> Option<u64> {
    if fed.closed.is_empty() {
        return None;
    }
    Some(fed.closed.at(0).cut)
}

#[test]
fn nothing_comes_after_the_end(rt: HostRuntime) -> Result<(), Fail> {
    let alloc = rt.alloc();
    let mut intake = Intake::new(alloc);
    let fed = intake.feed(alloc, b"{\"key\":\"/calico/v1/Ready\"}")?;
    assert_eq!(rt; brief(&fed), (0, None));
    let end = intake.end(alloc)?;
    assert_eq!(rt; (brief(&end), first_cut(&end)), ((1, None), Some(1)));
    let more = intake.feed(alloc, b"\n\n\xff\n")?;
    assert_eq!(rt; brief(&more), (0, None));
    let again = intake.end(alloc)?;
    assert_eq!(rt; brief(&again), (0, None));
    Ok(())
}

#[test]
fn an_unfinished_line_is_left(rt: HostRuntime) -> Result<(), Fail> {
    let alloc = rt.alloc();
    let mut intake = Intake::new(alloc);
    for (piece, left) in [(" ", 1), (" \n\t", 1), ("", 1), ("\noops", 4), ("\n ", 0)] {
        let _fed = intake.feed(alloc, piece.as_bytes())?;
        assert_eq!(rt; intake.left(), left);
    }
    Ok(())
}
