// Bodies, lengths and faults from outside, and pieces.
mod hurt;
mod limits;
mod pieces;

use std::alloc::Global;
use ty_base::{Delta, Kind, NoMemory, Text};

fn delta(alloc: Global, key: &str, kind: Kind, value: &str) -> Result<Delta, NoMemory> {
    let key = Text::of(alloc, key)?;
    match kind {
        Kind::Deleted => Ok(Delta {
            key,
            kind,
            value: None,
        }),
        Kind::New | Kind::Updated => {
            let value = Some(Text::of(alloc, value)?);
            Ok(Delta { key, kind, value })
        }
    }
}

fn framed(alloc: Global, bodies: &[&[u8]]) -> Result<Vec<u8>, NoMemory> {
    let mut out = Vec::new(alloc);
    for body in bodies {
        out.extend_from_slice(&u32::try_from(body.len()).unwrap_or(0).to_be_bytes())?;
        out.extend_from_slice(body)?;
    }
    Ok(out)
}
