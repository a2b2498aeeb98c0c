// Networks: an address with a prefix length.
ghost use Rattle.std.specs.Prelude.{◌≡◌};
ghost use Rattle.ty_net.specs.Cidrs.{cidr_reading, prefix_of, bits_of};

use crate::address::{Ip, read_ip};
use crate::cut::{after, before};
use crate::fault::NetFault;
use ty_base::read_u64;

/// An address and how many of its highest bits are the network's. The bits past them may be set.
#[derive(Clone, Copy, Debug, PartialEq, Eq)]
pub struct Cidr {
    pub ip: Ip,
    /// From 0 to 32 for IPv4, and from 0 to 128 for IPv6.
    pub len: u8,
}

/// An address, `/` and a prefix length in decimal, as RFC 4291 section 2.3 writes them. `BadIp` exactly where
/// what stands before the first `/`, or the whole text without one, is no address. `BadLength` exactly where
/// the address is good and the length is missing or is no number from 0 to 32 or 128.
pub fn read_cidr(text: &[u8]) -> Result<Cidr, NetFault>
    ensures { result ≡ cidr_reading text.now }
{
    let ip = read_ip(before(text, b'/'))?;
    let Some(len) = read_prefix(ip, after(text, b'/')) else {
        return Err(NetFault::BadLength);
    };
    Ok(Cidr { ip, len })
}

// The prefix length that a text writes, where it fits the address.
fn read_prefix(ip: Ip, text: &[u8]) -> Option<u8>
    ensures { result ≡ prefix_of ip text.now }
{
    let len = read_u64(text)?;
    if len <= bits(ip) {
        u8::try_from(len).ok()
    } else {
        None
    }
}

// How many bits an address has.
fn bits(ip: Ip) -> u64
    ensures { result ≡ bits_of ip }
{
    match ip {
        Ip::V4(_) => 32,
        Ip::V6(_) => 128,
    }
}
