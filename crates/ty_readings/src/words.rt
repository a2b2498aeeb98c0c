// What the words come to.
use std::alloc::Global;
use std::test::Fail;
use ty_base::{NoMemory, Text, print_u64};
use ty_words::{Command, read_words};

// Of the words between a line's single spaces: two spaces, or one at an end, make an empty word.
fn asked(rt: &HostRuntime, line: &str) -> Result<Option<Command>, Fail> {
    let mut words = Vec::new(rt.alloc());
    for word in line.split(' ') {
        words.push(Text::of(rt.alloc(), word)?)?;
    }
    Ok(read_words(rt.alloc(), &words)?)
}

// The mode and what goes with it, and nothing where the words are refused.
fn shown(alloc: Global, command: Option<Command>) -> Result<Vec<u8>, NoMemory> {
    match command {
        Some(Command::Stream { from }) => row(alloc, "stream", "", "", from, false),
        Some(Command::Follow { brief }) => row(alloc, "follow", "", "", 0, brief),
        Some(Command::FollowAt(words)) => row(
            alloc,
            "follow",
            words.at.as_str(),
            words.host.as_str(),
            words.tries,
            words.brief,
        ),
        Some(Command::Sim) => row(alloc, "sim", "", "", 0, false),
        Some(Command::Load { number }) => row(alloc, "load", "", "", number, false),
        Some(Command::Serve(words)) => row(
            alloc,
            "serve",
            words.at.as_str(),
            "",
            words.workers,
            false,
        ),
        None => Ok(Vec::new(alloc)),
    }
}

fn row(
    alloc: Global,
    mode: &str,
    at: &str,
    host: &str,
    number: u64,
    brief: bool,
) -> Result<Vec<u8>, NoMemory> {
    let mut out = Vec::new(alloc);
    for word in [mode, at, host] {
        out.extend_from_slice(word.as_bytes())?;
        out.push(b' ')?;
    }
    print_u64(number, &mut out)?;
    if brief {
        out.extend_from_slice(b" brief")?;
    }
    Ok(out)
}

#[test]
fn modes_and_their_options_are_read(rt: HostRuntime) -> Result<(), Fail> {
    let cases: [(&str, &str); 29] = [
        ("stream", "stream   0"),
        ("stream --from 1", "stream   1"),
        ("stream --from=1", "stream   1"),
        ("--from=1 stream", "stream   1"),
        ("--from 1 stream", "stream   1"),
        ("stream --from 1099511627776", "stream   1099511627776"),
        ("-- stream", "stream   0"),
        ("stream --", "stream   0"),
        ("follow", "follow   0"),
        ("follow --brief", "follow   0 brief"),
        ("--brief follow", "follow   0 brief"),
        ("sim", "sim   0"),
        ("load", "load   1"),
        ("load --number 0", "load   0"),
        ("load --number=7", "load   7"),
        ("--number 7 load", "load   7"),
        (
            "load --number 18446744073709551615",
            "load   18446744073709551615",
        ),
        ("serve --at x", "serve x  8"),
        ("serve --at=:5473 --workers 1", "serve :5473  1"),
        ("--workers=64 --at x serve", "serve x  64"),
        ("--at x serve --workers 9", "serve x  9"),
        ("follow --at x", "follow x follower 1"),
        ("follow --at x --brief", "follow x follower 1 brief"),
        (
            "--brief follow --tries=1 --at=x",
            "follow x follower 1 brief",
        ),
        ("follow --at x --host h", "follow x h 1"),
        ("follow --at x --tries 100", "follow x follower 100"),
        (
            "--tries 2 --host h --at x follow --brief",
            "follow x h 2 brief",
        ),
        ("follow --host follow --at -", "follow - follow 1"),
        ("serve --at serve", "serve serve  8"),
    ];
    for (line, wanted) in cases {
        let found = shown(rt.alloc(), asked(&rt, line)?)?;
        assert!(rt; found.as_slice() == wanted.as_bytes());
    }
    Ok(())
}

// A text of 0 bytes is empty.
#[test]
fn texts_have_their_lengths(rt: HostRuntime) -> Result<(), Fail> {
    let cases: [(&str, usize, bool); 9] = [
        ("serve --at ", 0, false),
        ("serve --at ", 1, true),
        ("serve --at ", 512, true),
        ("serve --at ", 513, false),
        ("follow --at ", 0, false),
        ("follow --at ", 512, true),
        ("follow --at ", 513, false),
        ("follow --at x --host ", 253, true),
        ("follow --at x --host ", 254, false),
    ];
    for (front, length, taken) in cases {
        let mut line = String::from_str(rt.alloc(), front)?;
        for _ in 0..length {
            line.push_str("a")?;
        }
        assert_eq!(rt; asked(&rt, line.as_str())?.is_some(), taken);
    }
    Ok(())
}

#[test]
fn other_words_are_refused(rt: HostRuntime) -> Result<(), Fail> {
    let cases: [&str; 58] = [
        "",
        "-",
        "help",
        "serve",
        "serve --workers 8",
        "serve --at x --workers 0",
        "serve --at x --workers 65",
        "serve --at x --workers 08",
        "serve --at x --brief",
        "serve --at x --host h",
        "serve --at x --tries 1",
        "serve --at x --from 1",
        "Stream",
        "-h",
        "--help",
        "--version",
        "-V stream",
        "--brief",
        "stream load",
        "stream ",
        "stream --from",
        "stream --from=",
        "stream --from ",
        "stream --from -1",
        "stream --from=-1",
        "stream --from=+1",
        "stream --from=01",
        "stream --from --brief",
        "stream --from 1099511627777",
        "stream --from 1 --from 2",
        "stream --fro 1",
        "stream --brief",
        "stream --number 1",
        "stream --at x",
        "stream --at ",
        "stream -- --brief",
        "follow --from 1",
        "follow --at x --from 1",
        "follow --at x --workers 1",
        "follow --at x --at x",
        "follow --at",
        "follow --at x y",
        "follow --at x --tries 0",
        "follow --at x --tries 101",
        "follow --at x --tries x",
        "follow --at x --host ",
        "follow --at x --host h --host h",
        "follow --tries 1",
        "follow --brief --brief",
        "follow --brief=true",
        "follow --host x",
        "sim --brief",
        "sim --number 1",
        "sim --tries 1",
        "load --from 1",
        "load --workers 1",
        "load --number 18446744073709551616",
        "load --number 1 --number 1",
    ];
    for line in cases {
        assert!(rt; asked(&rt, line)?.is_none());
    }
    Ok(())
}

#[test]
fn no_words_are_refused(rt: HostRuntime) -> Result<(), Fail> {
    assert!(rt; read_words(rt.alloc(), &[])?.is_none());
    Ok(())
}
