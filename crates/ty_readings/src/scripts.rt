// Lines and what they say.
use std::alloc::Global;
use std::test::Fail;
use ty_script::{Event, EventFault, read_event};

// What a line says, as the words of a sentence.
fn told(alloc: Global, line: &[u8]) -> Result<String, Fail> {
    let text = match read_event(alloc, line) {
        Ok(Event::Line(_)) => format!(in alloc; "feed")?,
        Ok(Event::Join(c)) => format!(in alloc; "join {c}")?,
        Ok(Event::Step(c)) => format!(in alloc; "step {c}")?,
        Ok(Event::Get(c, n)) => format!(in alloc; "get {c} {n}")?,
        Ok(Event::Hear(c)) => format!(in alloc; "hear {c}")?,
        Ok(Event::Cut(c)) => format!(in alloc; "cut {c}")?,
        Ok(Event::Tick(ms)) => format!(in alloc; "tick {ms}")?,
        Err(EventFault::Bad) => format!(in alloc; "bad")?,
        Err(EventFault::NotUtf8) => format!(in alloc; "not UTF-8")?,
        Err(EventFault::NoMemory) => format!(in alloc; "no memory")?,
    };
    Ok(text)
}

#[test]
fn lines_say_events(rt: HostRuntime) -> Result<(), Fail> {
    let rows = [
        (b"join 1".as_slice(), "join 1"),
        (b"step 64", "step 64"),
        (b"hear 2", "hear 2"),
        (b"cut 3", "cut 3"),
        (b"\t get\t64  1099511627776 ", "get 64 1099511627776"),
        (b" tick\t5 ", "tick 5"),
        (b"tick 1000000", "tick 1000000"),
        (b"get 64 1099511627777", "bad"),
        (b"get 1 0", "bad"),
        (b"get 1", "bad"),
        (b"tick 0", "bad"),
        (b"tick 1000001", "bad"),
        (b"join 65", "bad"),
        (b"join 0", "bad"),
        (b"join  01", "bad"),
        (b"join", "bad"),
        (b"join 1 2", "bad"),
        (b"get 1 2 3", "bad"),
        (b"JOIN 1", "bad"),
        (b"join 1\r", "bad"),
        (b"join \xff", "bad"),
        (b"{", "feed"),
        (b"  {\"a\"", "feed"),
        (b"\r{", "feed"),
        (b"\r", "feed"),
        (b" \t", "feed"),
        (b"", "feed"),
        (b"{\xff", "not UTF-8"),
    ];
    for (line, wanted) in rows {
        assert_eq!(rt; told(rt.alloc(), line)?.as_str(), wanted);
    }
    Ok(())
}
