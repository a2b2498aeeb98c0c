// A link over a TCP stream.
ghost use Rattle.std.specs.Prelude.{◌≡◌, IfOk, None};

use std::io;
use std::io::{ErrorKind, Read, Write};
use std::net::TcpStream;
use std::time::Duration;
use ty_base::{Failed, Link, Took};

/// How long a take waits for bytes, in milliseconds. Then it answers `Quiet`.
const READ_WAIT: u64 = 100;

/// How long a give waits for room, in milliseconds. Then it answers `Failed`.
const WRITE_WAIT: u64 = 60_000;

/// A link over a TCP stream. It tells nothing of content, and closes where it is dropped.
#[derive(Drop)]
pub struct OsLink {
    stream: TcpStream,
    count: u64,
}

impl OsLink {
    /// A link over a stream, with no errors yet. Its takes wait at most 100 ms and its gives at most
    /// 60,000 ms, and what is given is sent without delay. At an error the stream took not all of these
    /// settings, and is closed.
    pub fn new(stream: TcpStream) -> io::Result<OsLink>
        ensures { IfOk result (λ l. l.count ≡ 0) }
    {
        stream.set_nonblocking(false)?;
        stream.set_nodelay(true)?;
        stream.set_read_timeout(Some(Duration::from_millis(READ_WAIT)))?;
        stream.set_write_timeout(Some(Duration::from_millis(WRITE_WAIT)))?;
        Ok(OsLink { stream, count: 0 })
    }
}

impl Link for OsLink {
    ghost sight = { λ _. None };

    ghost count = { λ l. l.count };

    // A read that has waited its time gives `WouldBlock`. `TimedOut` is a peer that is gone.
    fn take(&mut self, buf: &mut [u8]) -> Result<Took, Failed> {
        match self.stream.read(buf) {
            Ok(0) => Ok(Took::End),
            Ok(count) => Ok(Took::Bytes(count)),
            Err(error) => match error.kind() {
                ErrorKind::WouldBlock | ErrorKind::Interrupted => Ok(Took::Quiet),
                _ => {
                    self.count = self.count.saturating_add(1);
                    Err(Failed)
                }
            },
        }
    }

    // A write that has waited its time gives an error too.
    fn give(&mut self, piece: &[u8]) -> Result<usize, Failed> {
        match self.stream.write(piece) {
            Ok(count) if count > 0 => Ok(count),
            _ => {
                self.count = self.count.saturating_add(1);
                Err(Failed)
            }
        }
    }

    fn faults(&self) -> u64 {
        self.count
    }
}
