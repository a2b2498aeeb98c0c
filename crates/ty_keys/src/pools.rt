// Keys of address pools.
ghost use Rattle.std.specs.Prelude.{◌≡◌, ◌<◌, position, option_and_then, if◌then◌else◌, IsTrue, IfSome, IfOk, IfErr};
ghost use Rattle.std.specs.List.{list_all, before_first, after_first};
ghost use Rattle.std.specs.Bool.{OnTrue};
ghost use Rattle.std.specs.Option.{option_map};
ghost use Rattle.ty_keys.specs.Nets.{net_of, is_net, is_addr, is_addr_byte, is_dash, longest};
ghost use Rattle.ty_keys.specs.Forms.{Gives, pool_of, pools};
ghost use Rattle.ty_keys.specs.steps.Segments.{segment, segments_in, net_view};

use crate::key::{Key, KeyFault};
use crate::segment::{is_word, last, next};
use crate::span::Span;
use std::alloc::Global;
use ty_base::{Text, TextFault, read_u64};

/// Behind `/calico/v1/ipam`.
pub fn pool(alloc: Global, rest: Span<'_>) -> Result<Key, KeyFault>
    ensures { Gives (λ k. k) result (pools (segments_in rest.entry)) }
{
    let (version, rest) = next(rest)?;
    let (word, rest) = next(rest)?;
    let net = last(rest)?;
    if !is_word(word, b"pool") {
        return Err(KeyFault::NoForm);
    }
    if is_word(version, b"v4") {
        pool_at(alloc, false, net)
    } else if is_word(version, b"v6") {
        pool_at(alloc, true, net)
    } else {
        Err(KeyFault::NoForm)
    }
}

// The pool that a segment ADDR-LEN names.
fn pool_at(alloc: Global, v6: bool, written: Span<'_>) -> Result<Key, KeyFault>
    ensures { Gives (λ k. k) result (pool_of v6 (net_of v6 written.entry.bytes.now)) }
{
    match net(v6, written.bytes) {
        Some((addr, len)) => Ok(Key::Pool {
            v6,
            addr: ascii(alloc, addr)?,
            len,
        }),
        None => Err(KeyFault::NoForm),
    }
}

// The address and the length of a segment ADDR-LEN, where it is one.
fn net(v6: bool, written: &[u8]) -> Option<(&[u8], u8)>
    ensures value { option_map net_view result ≡ net_of v6 written.now }
    ensures addr { IfSome result (λ n. IsTrue (is_addr n.0.now)) }
{
    let (addr, len) = cut_at_dash(written);
    within(v6, addr, read_u64(len))
}

// The address and the length, where both may be such.
fn within(v6: bool, addr: &[u8], len: Option<u64>) -> Option<(&[u8], u8)>
    ensures value { option_map net_view result ≡ option_and_then (λ n. if is_net v6 addr.now n then Some (addr.now, n) else None) len }
    ensures addr { IfSome result (λ n. IsTrue (is_addr n.0.now)) }
{
    match len {
        None => None,
        Some(len) => {
            if is_network(v6, addr, len) {
                Some((addr, len as u8))
            } else {
                None
            }
        }
    }
}

// Whether an address and a length may stand together.
fn is_network(v6: bool, addr: &[u8], len: u64) -> bool
    ensures value { result ≡ is_net v6 addr.now len }
    ensures addr { OnTrue result (IsTrue (is_addr addr.now)) }
    ensures len { OnTrue result (len < 256) }
{
    is_address(addr) && len <= most(v6)
}

// The greatest length.
fn most(v6: bool) -> u64
    ensures value { result ≡ longest v6 }
    ensures small { result < 256 }
{
    if v6 { 128 } else { 32 }
}

// What stands before the first dash, and what behind it; all and nothing where there is none.
fn cut_at_dash(written: &[u8]) -> (&[u8], &[u8])
    ensures front { result.0.now ≡ before_first is_dash written.now }
    ensures back { result.1.now ≡ after_first is_dash written.now }
{
    match dash_place(written) {
        Some(dash) => (&written[..dash], &written[dash + 1..]),
        None => (written, &[]),
    }
}

// Where the first dash stands.
fn dash_place(written: &[u8]) -> Option<usize>
    ensures { result ≡ position is_dash written.now }
{
    written.iter().position(|b| *b == b'-')
}

// Whether this may be an address: 1 to 45 of its bytes.
fn is_address(addr: &[u8]) -> bool
    ensures { result ≡ is_addr addr.now }
{
    !addr.is_empty() && addr.len() <= 45 && all_of_address(addr)
}

fn all_of_address(addr: &[u8]) -> bool
    ensures { result ≡ list_all is_addr_byte addr.now }
{
    addr.iter().all(|b| is_address_byte(*b))
}

fn is_address_byte(b: u8) -> bool
    ensures { result ≡ is_addr_byte b }
{
    b.is_ascii_hexdigit() || b == b':' || b == b'.'
}

// A text of ASCII bytes.
fn ascii(alloc: Global, bytes: &[u8]) -> Result<Text, KeyFault>
    requires { IsTrue (is_addr bytes.now) }
    ensures text { IfOk result (λ t. t ≡ bytes.now) }
    ensures err { IfErr result (λ e. e ≡ KeyFault.NoMemory) }
{
    match Text::read(alloc, bytes) {
        Ok(text) => Ok(text),
        Err(TextFault::NoMemory) => Err(KeyFault::NoMemory),
        Err(TextFault::NotUtf8) => unreachable!(),
    }
}
