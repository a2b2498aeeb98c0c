// Scripts in pieces, with their reports and their faults.
use std::alloc::Global;
use std::test::Fail;
use ty_base::{MemSink, MemSource};
use ty_core::{SimFault, World, simulate};
use ty_intake::IntakeFault;

const RETURNS: &str = r#"{"key":"/calico/v1/config/a","value":"1"}
{"status":"in-sync"}
join 1
hear 1
 get 1   100000
cut 1
join 1"#;

const REPORT: &str = r#"crumb 1 in-sync 1
client 1 open
client 1 heard 1
client 1 joined 1
client 1 at 1 in-sync 1
{"key":"/calico/v1/config/a","value":"\"1\""}
client 1 cut
client 1 open
end 1
"#;

// What a script in pieces of a size comes to, where this call of the source or of the sink fails.
fn simulated(
    alloc: Global,
    script: &[u8],
    size: usize,
    source_fails: u64,
    sink_fails: u64,
) -> Result<(Vec<u8>, Result<(), SimFault>), Fail> {
    let mut pieces = Vec::new(alloc);
    for piece in script.chunks(size.max(1)) {
        pieces.push(piece.to_vec(alloc)?)?;
    }
    let mut source = MemSource::new(alloc, pieces, [source_fails].to_vec(alloc)?)?;
    let mut sink = MemSink::new(alloc, 65_536, [sink_fails].to_vec(alloc)?)?;
    let mut world = World::new(alloc)?;
    let result = simulate(alloc, &mut world, &mut source, &mut sink);
    Ok((sink.given().to_vec(alloc)?, result))
}

#[test]
fn pieces_change_nothing(rt: HostRuntime) -> Result<(), Fail> {
    let alloc = rt.alloc();
    for size in [1, 7, 4096] {
        let (report, result) = simulated(alloc, RETURNS.as_bytes(), size, 0, 0)?;
        assert_eq!(rt; result, Ok(()));
        assert_eq!(rt; report.as_slice(), REPORT.as_bytes());
    }
    Ok(())
}

struct Row {
    script: &'static [u8],
    fault: SimFault,
    report: &'static str,
}

const FAULTY: [Row; 5] = [
    Row {
        script: b"join 1\njoin 65\njoin 2",
        fault: SimFault::Event { line: 2 },
        report: "client 1 open\n",
    },
    Row {
        script: b"\n{\n",
        fault: SimFault::Feed {
            line: 2,
            fault: IntakeFault::BadLine { line: 2 },
        },
        report: "",
    },
    Row {
        script: b"join 1\n\n{}",
        fault: SimFault::Feed {
            line: 3,
            fault: IntakeFault::BadLine { line: 3 },
        },
        report: "client 1 open\n",
    },
    Row {
        script: b"join 1\n{\xff",
        fault: SimFault::Feed {
            line: 2,
            fault: IntakeFault::BadUtf8 { line: 2 },
        },
        report: "client 1 open\n",
    },
    Row {
        script: b"cut 3\n\xff\n",
        fault: SimFault::Event { line: 2 },
        report: "client 3 absent\n",
    },
];

#[test]
fn faults_are_told_by_the_line(rt: HostRuntime) -> Result<(), Fail> {
    let alloc = rt.alloc();
    for row in &FAULTY {
        let (report, result) = simulated(alloc, row.script, 5, 0, 0)?;
        assert_eq!(rt; result, Err(row.fault));
        assert_eq!(rt; report.as_slice(), row.report.as_bytes());
    }
    Ok(())
}

#[test]
fn long_lines_are_told_at_the_byte_past_the_limit(rt: HostRuntime) -> Result<(), Fail> {
    let alloc = rt.alloc();
    let mut script = Vec::new(alloc);
    script.extend_from_slice(b"cut 1\n")?;
    script.resize(6 + 8_388_609, b' ')?;
    let (report, result) = simulated(alloc, &script, 65_536, 0, 0)?;
    assert_eq!(rt; result, Err(SimFault::LongLine { line: 2 }));
    assert_eq!(rt; report.as_slice(), b"client 1 absent\n".as_slice());
    Ok(())
}

#[test]
fn devices_may_fail(rt: HostRuntime) -> Result<(), Fail> {
    let alloc = rt.alloc();
    let (report, result) = simulated(alloc, b"cut 1\ncut 2\n", 6, 2, 0)?;
    assert_eq!(rt; result, Err(SimFault::Read));
    assert_eq!(rt; report.as_slice(), b"client 1 absent\n".as_slice());
    let (report, result) = simulated(alloc, b"cut 1\ncut 2\n", 6, 0, 2)?;
    assert_eq!(rt; result, Err(SimFault::Write));
    assert_eq!(rt; report.as_slice(), b"client 1 absent\n".as_slice());
    Ok(())
}
