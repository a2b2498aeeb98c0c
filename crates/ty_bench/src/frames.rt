// Many frames, written and read back.
use std::alloc::Global;
use ty_base::{Delta, Deltas, Kind, NoMemory, Text};
use ty_wire::{Frames, Msg, fits, write};

const PIECE: usize = 65_536;

// A message of 100 deltas.
fn message(alloc: Global) -> Result<Msg, NoMemory> {
    let mut deltas = Deltas::new(alloc);
    for i in 0..100u8 {
        deltas.push(Delta {
            key: Text::from_string(format!(in alloc;
                "/calico/v1/host/node-{i}/workload/k8s/default%2fweb-{i}/endpoint/eth0"
            )?),
            kind: Kind::Updated,
            value: Some(Text::of(
                alloc,
                "{\"ipv4_nets\":[\"10.244.2.7/32\"],\"labels\":{\"app\":\"web\"},\"mac\":\"ee:ee:ee:ee:ee:ee\",\"name\":\"cali0a1b2c3d4e5\",\"state\":\"active\"}",
            )?),
        })?;
    }
    Ok(Msg::Kvs(deltas))
}

// The bytes of so many frames.
pub(crate) fn written(alloc: Global, count: u64) -> Result<Vec<u8>, NoMemory> {
    let message = message(alloc)?;
    let mut out = Vec::new(alloc);
    for _ in 0..count {
        append(alloc, &message, &mut out)?;
    }
    Ok(out)
}

// Appends the message's frame, where it fits.
pub(crate) fn append(alloc: Global, message: &Msg, out: &mut Vec<u8>) -> Result<(), NoMemory> {
    if fits(alloc, message)? {
        write(alloc, message, out)?;
    }
    Ok(())
}

// How many messages the bytes bring, in pieces.
pub(crate) fn read_all(alloc: Global, bytes: &[u8]) -> Result<usize, NoMemory> {
    let mut frames = Frames::new(alloc);
    let mut count: usize = 0;
    for piece in bytes.chunks(PIECE) {
        let got = frames.feed(alloc, piece)?;
        count = count.saturating_add(got.msgs.as_slice().len());
    }
    Ok(count)
}
