// Scripts of events, and the load.
use crate::runs::{Devices, GOOD, came, run};
use std::alloc::Global;
use std::test::Fail;

const OPENING: &str = "join 1\nhear 1\n";

const OPENED: &str = "client 1 open\nclient 1 heard 1\nclient 1 joined 0\n";

const READY: &str = "{\"key\":\"/calico/v1/Ready\",\"value\":true}\n\n";

const PUBLISHED: &str = "crumb 1 wait-for-ready 1\n";

const PAIR: &str = "{\"key\":\"/calico/v1/Ready\",\"value\":\"true\"}\n";

// A script, in pieces of several sizes, comes to this.
fn simulates(
    alloc: Global,
    script: &[u8],
    status: u8,
    report: &[u8],
    note: &str,
) -> Result<bool, Fail> {
    let mut good = true;
    for piece in [1usize, 7, 1_000_000] {
        let ran = run(alloc, &["sim"], script, Devices { piece, ..GOOD })?;
        good = good && came(&ran, status, report, note);
    }
    Ok(good)
}

// What a script says behind a client's joining, and what is told behind that: all of it, or up to a fault.
const SCRIPTS: [(&[u8], u8, &str, &str); 14] = [
    (b"", 0, "end 0\n", ""),
    (b"step 1", 0, "client 1 pending 0\nend 0\n", ""),
    (b" step\t1 \n", 0, "client 1 pending 0\nend 0\n", ""),
    (
        b"{\"status\":\"in-sync\"}",
        0,
        "crumb 1 in-sync 0\nend 1\n",
        "",
    ),
    (
        b"{\"key\":\"/calico/v1/Ready\",\"value\":true}",
        0,
        "crumb 1 wait-for-ready 1\nend 1\n",
        "",
    ),
    (b"oops\nstep 1\n", 2, "", "typha: line 3: not an event\n"),
    (
        b"step 1\nget 1 0",
        2,
        "client 1 pending 0\n",
        "typha: line 4: not an event\n",
    ),
    (b"\xff\n", 2, "", "typha: line 3: not an event\n"),
    (b"{}\nstep 1\n", 2, "", "typha: line 3: not a feed line\n"),
    (
        b"\n{\"status\":\"up\"}",
        2,
        "",
        "typha: line 4: not a feed line\n",
    ),
    (b"{\xff}\n", 2, "", "typha: line 3: not UTF-8\n"),
    (b" \t{\xff}", 2, "", "typha: line 3: not UTF-8\n"),
    (
        b"cut 1\ncut 1\n",
        0,
        "client 1 cut\nclient 1 absent\nend 0\n",
        "",
    ),
    (
        b"{\"key\":\"/calico/v1/Ready\",\"value\":true}\noops\n",
        2,
        "",
        "typha: line 4: not an event\n",
    ),
];

#[test]
fn scripts_have_their_reports(rt: HostRuntime) -> Result<(), Fail> {
    let alloc = rt.alloc();
    for (more, status, told, note) in &SCRIPTS {
        let mut script = OPENING.as_bytes().to_vec(alloc)?;
        script.extend_from_slice(more)?;
        let mut report = OPENED.as_bytes().to_vec(alloc)?;
        report.extend_from_slice(told.as_bytes())?;
        assert!(rt;
            simulates(alloc, &script, *status, &report, note)?,
            "{told} {note}"
        );
    }
    Ok(())
}

// A client gets 204 bytes one by one: the snapshot of breadcrumb 0 has 103 of them, and breadcrumb 1 has 101.
#[test]
fn bytes_reach_a_client_one_by_one(rt: HostRuntime) -> Result<(), Fail> {
    let alloc = rt.alloc();
    let mut script = format!(in alloc; "{OPENING}{READY}step 1\n")?;
    let mut report = format!(in alloc; "{OPENED}{PUBLISHED}client 1 step 1\n")?;
    for at in 1..=204u64 {
        script.push_str("get 1 1\n")?;
        report.push_str(match at {
            1..=102 => "client 1 still none\n",
            103 => "client 1 at 0 wait-for-ready 0\n",
            104..=203 => "client 1 still 0 wait-for-ready 0\n",
            _ => "client 1 at 1 wait-for-ready 1\n",
        })?;
    }
    report.push_str(PAIR)?;
    report.push_str("end 1\n")?;
    assert!(rt; simulates(alloc, script.as_bytes(), 0, report.as_bytes(), "")?);
    Ok(())
}

#[test]
fn a_script_on_devices_that_fail(rt: HostRuntime) -> Result<(), Fail> {
    let alloc = rt.alloc();
    let whole = format!(in alloc; "{OPENED}end 0\n")?;
    for (read_fails, write_fails, room, status, given, note) in [
        (0u64, 0u64, 55usize, 0u8, 55usize, ""),
        (1, 0, 55, 3, 0, "typha: read fault\n"),
        (2, 0, 55, 3, 49, "typha: read fault\n"),
        (0, 1, 55, 4, 0, "typha: write fault\n"),
        (0, 2, 55, 4, 49, "typha: write fault\n"),
        (0, 0, 54, 4, 54, "typha: write fault\n"),
        (0, 0, 7, 4, 7, "typha: write fault\n"),
    ] {
        let devices = Devices {
            piece: 1_000_000,
            read_fails,
            room,
            write_fails,
            ..GOOD
        };
        let ran = run(alloc, &["sim"], OPENING.as_bytes(), devices)?;
        assert_eq!(rt; ran.given.len(), given, "{status} {given}");
        let (front, _) = whole.as_bytes().split_at(given.min(whole.len()));
        assert!(rt; came(&ran, status, front, note), "{status} {given}");
    }
    Ok(())
}

// The numbers are those of a plain program over the same lines.
#[test]
fn a_load_has_its_summary(rt: HostRuntime) -> Result<(), Fail> {
    let alloc = rt.alloc();
    let mut summary = format!(in alloc; "load 1\ncrumbs 200\npairs 1744\n")?;
    for client in 1..=8u64 {
        write!(summary, "client {client} at 200 1744\n")?;
    }
    let ran = run(alloc, &["load"], b"", GOOD)?;
    assert!(rt; came(&ran, 0, summary.as_bytes(), ""));
    let devices = Devices { room: 20, ..GOOD };
    let ran = run(alloc, &["load", "--number", "1"], b"", devices)?;
    assert_eq!(rt; ran.status, 4);
    assert_eq!(rt; ran.given.len(), 20);
    assert!(rt; summary.as_bytes().starts_with(&ran.given));
    assert_eq!(rt; ran.notes.as_slice(), b"typha: write fault\n".as_slice());
    Ok(())
}
