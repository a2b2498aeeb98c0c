// The text of a key.
ghost use Rattle.std.specs.Prelude.{◌≡◌, ◌++◌, IfOk, OnOk};
ghost use Rattle.std.specs.List.{flat_map};
ghost use Rattle.ty_keys.specs.Grammar.{key_text, escaped, escaped_byte};
ghost use Rattle.ty_keys.specs.steps.Bits.{bit_text};

use crate::key::Key;
use std::alloc::Global;
use ty_base::{NoMemory, print_u64};

/// A bit of a key's text.
#[derive(Clone, Copy)]
pub enum Bit<'a> {
    /// These bytes, slashes and all.
    Path(&'static str),
    /// A part, to be escaped.
    Part(&'a [u8]),
    /// Bytes as they are.
    Plain(&'a [u8]),
    /// A number's decimal digits.
    Number(u8),
}

/// The text of a key.
#[tactic(auto, unfolding(crate::specs::Grammar::key_text))]
pub fn text_of(alloc: Global, key: &Key) -> Result<Vec<u8>, NoMemory>
    ensures { IfOk result (λ text. text.items ≡ key_text key.now) }
{
    match key {
        Key::Ready => joined(alloc, &[Bit::Path("/calico/v1/Ready")]),
        Key::Global { name } => joined(
            alloc,
            &[Bit::Path("/calico/v1/config/"), Bit::Part(name.bytes())],
        ),
        Key::HostConfig { host, name } => joined(
            alloc,
            &[
                Bit::Path("/calico/v1/host/"),
                Bit::Part(host.bytes()),
                Bit::Path("/config/"),
                Bit::Part(name.bytes()),
            ],
        ),
        Key::HostIp { host } => joined(
            alloc,
            &[
                Bit::Path("/calico/v1/host/"),
                Bit::Part(host.bytes()),
                Bit::Path("/bird_ip"),
            ],
        ),
        Key::HostEndpoint { host, endpoint } => joined(
            alloc,
            &[
                Bit::Path("/calico/v1/host/"),
                Bit::Part(host.bytes()),
                Bit::Path("/endpoint/"),
                Bit::Part(endpoint.bytes()),
            ],
        ),
        Key::Workload {
            host,
            orchestrator,
            workload,
            endpoint,
        } => workload_text(
            alloc,
            host.bytes(),
            orchestrator.bytes(),
            workload.bytes(),
            endpoint.bytes(),
        ),
        Key::Policy { tier, policy } => joined(
            alloc,
            &[
                Bit::Path("/calico/v1/policy/tier/"),
                Bit::Part(tier.bytes()),
                Bit::Path("/policy/"),
                Bit::Part(policy.bytes()),
            ],
        ),
        Key::ProfileRules { profile } => joined(
            alloc,
            &[
                Bit::Path("/calico/v1/policy/profile/"),
                Bit::Part(profile.bytes()),
                Bit::Path("/rules"),
            ],
        ),
        Key::ProfileLabels { profile } => joined(
            alloc,
            &[
                Bit::Path("/calico/v1/policy/profile/"),
                Bit::Part(profile.bytes()),
                Bit::Path("/labels"),
            ],
        ),
        Key::NetSet { name } => joined(
            alloc,
            &[Bit::Path("/calico/v1/netset/"), Bit::Part(name.bytes())],
        ),
        Key::Pool { v6, addr, len } => pool_text(alloc, *v6, addr.bytes(), *len),
        Key::Resource {
            plural,
            namespace,
            name,
        } => match namespace {
            None => joined(
                alloc,
                &[
                    Bit::Path("/calico/resources/v3/projectcalico.org/"),
                    Bit::Plain(plural.bytes()),
                    Bit::Path("/"),
                    Bit::Part(name.bytes()),
                ],
            ),
            Some(namespace) => joined(
                alloc,
                &[
                    Bit::Path("/calico/resources/v3/projectcalico.org/"),
                    Bit::Plain(plural.bytes()),
                    Bit::Path("/"),
                    Bit::Part(namespace.bytes()),
                    Bit::Path("/"),
                    Bit::Part(name.bytes()),
                ],
            ),
        },
    }
}

// The text of a workload endpoint's key.
fn workload_text<'a>(
    alloc: Global,
    host: &'a [u8],
    orchestrator: &'a [u8],
    workload: &'a [u8],
    endpoint: &'a [u8],
) -> Result<Vec<u8>, NoMemory>
    ensures { IfOk result (λ text. text.items ≡ key_text (Key.Workload host.now orchestrator.now workload.now endpoint.now)) }
{
    joined(
        alloc,
        &[
            Bit::Path("/calico/v1/host/"),
            Bit::Part(host),
            Bit::Path("/workload/"),
            Bit::Part(orchestrator),
            Bit::Path("/"),
            Bit::Part(workload),
            Bit::Path("/endpoint/"),
            Bit::Part(endpoint),
        ],
    )
}

// The text of a pool's key.
#[tactic(auto, unfolding(crate::specs::Grammar::key_text))]
fn pool_text(alloc: Global, v6: bool, addr: &[u8], len: u8) -> Result<Vec<u8>, NoMemory>
    ensures { IfOk result (λ text. text.items ≡ key_text (Key.Pool v6 addr.now len)) }
{
    if v6 {
        joined(
            alloc,
            &[
                Bit::Path("/calico/v1/ipam/v6/pool/"),
                Bit::Plain(addr),
                Bit::Path("-"),
                Bit::Number(len),
            ],
        )
    } else {
        joined(
            alloc,
            &[
                Bit::Path("/calico/v1/ipam/v4/pool/"),
                Bit::Plain(addr),
                Bit::Path("-"),
                Bit::Number(len),
            ],
        )
    }
}

// The bits, one behind another.
fn joined(alloc: Global, bits: &[Bit<'_>]) -> Result<Vec<u8>, NoMemory>
    ensures { IfOk result (λ text. text.items ≡ flat_map bit_text bits.now) }
{
    let mut text = Vec::new(alloc);
    for bit in bits {
        push_bit(&mut text, bit)?;
    }
    Ok(text)
}

fn push_bit(text: &mut Vec<u8>, bit: &Bit<'_>) -> Result<(), NoMemory>
    ensures { OnOk result (text.new.items ≡ text.old.items ++ bit_text bit.now) }
{
    match bit {
        Bit::Path(path) => text.extend_from_slice(path.as_bytes())?,
        Bit::Part(part) => escape(text, part)?,
        Bit::Plain(plain) => text.extend_from_slice(plain)?,
        Bit::Number(n) => print_u64(u64::from(*n), text)?,
    }
    Ok(())
}

// A part, with `%` and `/` escaped.
fn escape(text: &mut Vec<u8>, part: &[u8]) -> Result<(), NoMemory>
    ensures { OnOk result (text.new.items ≡ text.old.items ++ escaped part.now) }
{
    for byte in part {
        escape_byte(text, *byte)?;
    }
    Ok(())
}

fn escape_byte(text: &mut Vec<u8>, byte: u8) -> Result<(), NoMemory>
    ensures { OnOk result (text.new.items ≡ text.old.items ++ escaped_byte byte) }
{
    if byte == b'%' {
        text.extend_from_slice(b"%25")?;
    } else if byte == b'/' {
        text.extend_from_slice(b"%2f")?;
    } else {
        text.push(byte)?;
    }
    Ok(())
}
