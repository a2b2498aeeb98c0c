// Tests of texts.
ghost use Rattle.std.specs.Prelude.{◌≡◌, Bool, List, ℕ};
ghost use Rattle.std.specs.List.{list_all, list_any};
ghost use Rattle.ty_rules.specs.Texts.{this, within, name_byte, interface, interface_or_all, filled, letter, port_name, hex_digit, hex_pairs, mac, protocol_name, protocol_with_ports, action, action_or_empty};

use crate::test::TextTest;

fn is_within(low: usize, high: usize, n: usize) -> bool
    ensures { result ≡ within low high n }
{
    low <= n && n <= high
}

fn is_letter(b: u8) -> bool
    ensures { result ≡ letter b }
{
    matches!(b, b'A'..=b'Z' | b'a'..=b'z')
}

fn is_name_byte(b: u8) -> bool
    ensures { result ≡ name_byte b }
{
    is_letter(b) || matches!(b, b'0'..=b'9' | b'_' | b'.' | b'-')
}

fn are_name_bytes(bytes: &[u8]) -> bool
    ensures { result ≡ list_all name_byte bytes.now }
{
    bytes.iter().all(|b| is_name_byte(*b))
}

fn has_letter(bytes: &[u8]) -> bool
    ensures { result ≡ list_any letter bytes.now }
{
    bytes.iter().any(|b| is_letter(*b))
}

/// The name of a network interface: 1 to 15 bytes out of letters, digits, `_`, `.` and `-`.
#[derive(Drop)]
pub struct Interface;

impl TextTest for Interface {
    ghost reads = { λ _. interface };

    fn takes(&self, text: &str) -> bool {
        is_within(1, 15, text.len()) && are_name_bytes(text.as_bytes())
    }
}

/// The name of a network interface, or `*`.
#[derive(Drop)]
pub struct InterfaceOrAll;

impl TextTest for InterfaceOrAll {
    ghost reads = { λ _. interface_or_all };

    fn takes(&self, text: &str) -> bool {
        Interface.takes(text) || text == "*"
    }
}

/// The name of a port: 1 to 128 bytes out of letters, digits, `_`, `.` and `-`, with a letter.
#[derive(Drop)]
pub struct PortName;

impl TextTest for PortName {
    ghost reads = { λ _. port_name };

    fn takes(&self, text: &str) -> bool {
        is_within(1, 128, text.len())
            && are_name_bytes(text.as_bytes())
            && has_letter(text.as_bytes())
    }
}

/// This text.
#[derive(Drop)]
pub struct This<'t>(pub &'t str);

impl TextTest for This<'_> {
    ghost reads = { λ t. this t.0.now };

    fn takes(&self, text: &str) -> bool {
        text == self.0
    }
}

/// A text that isn't empty.
#[derive(Drop)]
pub struct Filled;

impl TextTest for Filled {
    ghost reads = { λ _. filled };

    fn takes(&self, text: &str) -> bool {
        !text.is_empty()
    }
}

fn is_hex_digit(b: u8) -> bool
    ensures { result ≡ hex_digit b }
{
    matches!(b, b'0'..=b'9' | b'A'..=b'F' | b'a'..=b'f')
}

fn are_hex_pairs(bytes: &[u8]) -> bool
    ensures { result ≡ hex_pairs bytes.now }
{
    match bytes {
        [a, b] => is_hex_digit(*a) && is_hex_digit(*b),
        [a, b, c, rest @ ..] => {
            is_hex_digit(*a) && is_hex_digit(*b) && *c == b':' && are_hex_pairs(rest)
        }
        _ => false,
    }
}

/// A hardware address: six pairs of hexadecimal digits, parted by `:`.
#[derive(Drop)]
pub struct Mac;

impl TextTest for Mac {
    ghost reads = { λ _. mac };

    fn takes(&self, text: &str) -> bool {
        text.len() == 17 && are_hex_pairs(text.as_bytes())
    }
}

/// A spelling of TCP, UDP or SCTP.
#[derive(Drop)]
pub struct ProtocolWithPorts;

impl TextTest for ProtocolWithPorts {
    ghost reads = { λ _. protocol_with_ports };

    fn takes(&self, text: &str) -> bool {
        matches!(text, "tcp" | "udp" | "sctp" | "TCP" | "UDP" | "SCTP")
    }
}

/// A spelling of a protocol.
#[derive(Drop)]
pub struct ProtocolName;

impl TextTest for ProtocolName {
    ghost reads = { λ _. protocol_name };

    fn takes(&self, text: &str) -> bool {
        ProtocolWithPorts.takes(text)
            || matches!(
                text,
                "icmp" | "icmpv6" | "udplite" | "ICMP" | "ICMPv6" | "UDPLite"
            )
    }
}

/// What a rule of a policy does.
#[derive(Drop)]
pub struct Action;

impl TextTest for Action {
    ghost reads = { λ _. action };

    fn takes(&self, text: &str) -> bool {
        matches!(
            text,
            "allow" | "deny" | "log" | "pass" | "next-tier" | "Allow" | "Deny" | "Log" | "Pass"
        )
    }
}

/// What a rule of a policy does, or nothing.
#[derive(Drop)]
pub struct ActionOrEmpty;

impl TextTest for ActionOrEmpty {
    ghost reads = { λ _. action_or_empty };

    fn takes(&self, text: &str) -> bool {
        Action.takes(text) || text.is_empty()
    }
}
