// A writer of std, with a count of its errors.
ghost use Rattle.std.specs.Prelude.{◌≡◌, None};

use std::io::Write;
use ty_base::{Failed, Sink};

/// A writer, as standard output or standard error. It tells nothing of content.
#[derive(Drop)]
pub struct OsSink<W> {
    writer: W,
    count: u64,
}

impl<W> OsSink<W> {
    /// A sink that hands on to the writer, with no errors yet.
    pub fn new(writer: W) -> OsSink<W>
        ensures { result.count ≡ 0 }
    {
        OsSink { writer, count: 0 }
    }
}

impl<W: Write> Sink for OsSink<W> {
    ghost seen = { λ s. record { held = None; faults = s.count } };

    // A writer that takes none is an error.
    fn give(&mut self, piece: &[u8]) -> Result<usize, Failed> {
        match self.writer.write(piece) {
            Ok(count) if count > 0 => Ok(count),
            _ => {
                self.count = self.count.saturating_add(1);
                Err(Failed)
            }
        }
    }

    fn faults(&self) -> u64 {
        self.count
    }
}
