// Addresses, networks and ports.
ghost use Rattle.std.specs.Prelude.{◌≡◌};
ghost use Rattle.ty_values.specs.Nets.{is_v4, is_v6, ip, ip4, ip6, cidr, cidr4, cidr6, port_range, ports, addrs, addrs4, addrs6, nets, nets4, nets6};

use serde_json::Value;
use ty_net::{Cidr, GREATEST_PORT, Ip, read_cidr, read_ip, read_ports};
use ty_rules::{ArrayOf, PortName, Test, TextOf, TextTest, WholeWithin};

/// Whether an address is one of IPv4.
pub fn is_v4(ip: Ip) -> bool
    ensures { result ≡ is_v4 ip }
{
    matches!(ip, Ip::V4(_))
}

/// Whether an address is one of IPv6.
pub fn is_v6(ip: Ip) -> bool
    ensures { result ≡ is_v6 ip }
{
    matches!(ip, Ip::V6(_))
}

/// An address.
#[derive(Drop)]
pub struct IpText;

impl TextTest for IpText {
    ghost reads = { λ _. ip };

    fn takes(&self, text: &str) -> bool {
        read_ip(text.as_bytes()).is_ok()
    }
}

/// An IPv4 address.
#[derive(Drop)]
pub struct Ip4;

impl TextTest for Ip4 {
    ghost reads = { λ _. ip4 };

    fn takes(&self, text: &str) -> bool {
        match read_ip(text.as_bytes()) {
            Ok(ip) => is_v4(ip),
            Err(_) => false,
        }
    }
}

/// An IPv6 address.
#[derive(Drop)]
pub struct Ip6;

impl TextTest for Ip6 {
    ghost reads = { λ _. ip6 };

    fn takes(&self, text: &str) -> bool {
        match read_ip(text.as_bytes()) {
            Ok(ip) => is_v6(ip),
            Err(_) => false,
        }
    }
}

/// A network.
#[derive(Drop)]
pub struct CidrText;

impl TextTest for CidrText {
    ghost reads = { λ _. cidr };

    fn takes(&self, text: &str) -> bool {
        read_cidr(text.as_bytes()).is_ok()
    }
}

/// An IPv4 network.
#[derive(Drop)]
pub struct Cidr4;

impl TextTest for Cidr4 {
    ghost reads = { λ _. cidr4 };

    fn takes(&self, text: &str) -> bool {
        match read_cidr(text.as_bytes()) {
            Ok(Cidr { ip, .. }) => is_v4(ip),
            Err(_) => false,
        }
    }
}

/// An IPv6 network.
#[derive(Drop)]
pub struct Cidr6;

impl TextTest for Cidr6 {
    ghost reads = { λ _. cidr6 };

    fn takes(&self, text: &str) -> bool {
        match read_cidr(text.as_bytes()) {
            Ok(Cidr { ip, .. }) => is_v6(ip),
            Err(_) => false,
        }
    }
}

/// A port or a range of ports.
#[derive(Drop)]
pub struct PortRangeText;

impl TextTest for PortRangeText {
    ghost reads = { λ _. port_range };

    fn takes(&self, text: &str) -> bool {
        read_ports(text.as_bytes()).is_ok()
    }
}

/// An array of ports, each by number, as a range or by name.
#[derive(Drop)]
pub struct Ports;

impl Test for Ports {
    ghost holds = { λ _. ports };

    fn accepts(&self, value: &Value) -> bool {
        ArrayOf(ty_rules::any_of![
            WholeWithin(0, GREATEST_PORT),
            TextOf(PortRangeText),
            TextOf(PortName),
        ])
        .accepts(value)
    }
}
