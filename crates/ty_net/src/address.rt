// Addresses of both versions.
ghost use Rattle.std.specs.Prelude.{◌≡◌};
ghost use Rattle.std.specs.Option.{ok_or};
ghost use Rattle.ty_net.specs.Addresses.{ip_of};

use crate::fault::NetFault;
use std::net::IpAddr;

/// An address as a number, with the first part of its text as the highest byte or group.
#[derive(Clone, Copy, Debug, PartialEq, Eq)]
pub enum Ip {
    V4(u32),
    V6(u128),
}

/// The address that a whole text writes: IPv4 as four decimal numbers from 0 to 255 without leading zeros,
/// IPv6 in the forms of RFC 4291 section 2.2. No zone may follow. `BadIp` exactly where it writes none.
pub fn read_ip(text: &[u8]) -> Result<Ip, NetFault>
    ensures { result ≡ ok_or (ip_of text.now) NetFault.BadIp }
{
    match IpAddr::parse_ascii(text) {
        Ok(IpAddr::V4(ip)) => Ok(Ip::V4(ip.to_bits())),
        Ok(IpAddr::V6(ip)) => Ok(Ip::V6(ip.to_bits())),
        Err(_) => Err(NetFault::BadIp),
    }
}
