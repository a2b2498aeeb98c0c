// A reader of std, with a count of its errors.
ghost use Rattle.std.specs.Prelude.{◌≡◌, None};

use std::io::Read;
use ty_base::{Failed, Source};

/// A reader, as standard input. It tells nothing of content.
#[derive(Drop)]
pub struct OsSource<R> {
    reader: R,
    count: u64,
}

impl<R> OsSource<R> {
    /// A source of what the reader gives, with no errors yet.
    pub fn new(reader: R) -> OsSource<R>
        ensures { result.count ≡ 0 }
    {
        OsSource { reader, count: 0 }
    }
}

impl<R: Read> Source for OsSource<R> {
    ghost seen = { λ s. record { left = None; faults = s.count } };

    fn take(&mut self, buf: &mut [u8]) -> Result<usize, Failed> {
        match self.reader.read(buf) {
            Ok(count) => Ok(count),
            Err(_) => {
                self.count = self.count.saturating_add(1);
                Err(Failed)
            }
        }
    }

    fn faults(&self) -> u64 {
        self.count
    }
}
