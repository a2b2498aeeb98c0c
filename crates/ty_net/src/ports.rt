// Ports and ranges of them.
ghost use Rattle.std.specs.Prelude.{◌≡◌};
ghost use Rattle.ty_net.specs.Ports.{ports_reading, port_of, range_of};

use crate::cut::{after, before};
use crate::fault::NetFault;
use ty_base::read_u64;

/// The greatest number of a port.
pub const GREATEST_PORT: u64 = 65_535;

/// The ports from `low` to `high`, both of them counted.
#[derive(Clone, Copy, Debug, PartialEq, Eq)]
pub struct PortRange {
    pub low: u16,
    pub high: u16,
}

/// A port, or two with `:` between, in decimal without leading zeros. `BadPort` exactly where the text has
/// another form or a number above `GREATEST_PORT`. `Reversed` exactly where the form is good and the first port is
/// above the second; it holds both as they stand.
pub fn read_ports(text: &[u8]) -> Result<PortRange, NetFault>
    ensures { result ≡ ports_reading text.now }
{
    if text.contains(&b':') {
        ports_between(before(text, b':'), after(text, b':'))
    } else {
        ports_between(text, text)
    }
}

// The ports from the one that a text writes to the one that another does.
fn ports_between(first: &[u8], last: &[u8]) -> Result<PortRange, NetFault>
    ensures { result ≡ range_of (port_of first.now) (port_of last.now) }
{
    let (Some(low), Some(high)) = (read_port(first), read_port(last)) else {
        return Err(NetFault::BadPort);
    };
    if low > high {
        return Err(NetFault::Reversed { low, high });
    }
    Ok(PortRange { low, high })
}

// The number up to `GREATEST_PORT` that a text writes.
fn read_port(text: &[u8]) -> Option<u16>
    ensures { result ≡ port_of text.now }
{
    u16::try_from(read_u64(text)?).ok()
}
