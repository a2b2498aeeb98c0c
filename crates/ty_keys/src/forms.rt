// The forms of keys, from their first segment on, and the keys of each but pools and resources.
ghost use Rattle.std.specs.Prelude.{◌≡◌};
ghost use Rattle.ty_keys.specs.Forms.{Gives, of_root, of_v1, resources, read_segments, last_part, ready, and_last_part, host_ip, host_workload, under_host, hosts, of_tier, of_profile, policies};
ghost use Rattle.ty_keys.specs.steps.Segments.{segment, segments_in};

use crate::key::{Key, KeyFault};
use crate::part::part;
use crate::pools::pool;
use crate::resources::of_kind;
use crate::segment::{is_end, is_word, last, next};
use crate::span::Span;
use std::alloc::Global;

/// The key that a text is. Its length is not asked here.
#[tactic(auto, unfolding(crate::specs::Forms::read_segments))]
pub fn read_segments(alloc: Global, text: Span<'_>) -> Result<Key, KeyFault>
    ensures { Gives (λ k. k) result (read_segments (segments_in text.entry)) }
{
    let (root, rest) = next(text)?;
    let (word, rest) = next(rest)?;
    if !is_word(root, b"calico") {
        return Err(KeyFault::NoForm);
    }
    of_root(alloc, word, rest)
}

// Behind `/calico`.
fn of_root(alloc: Global, word: Span<'_>, rest: Span<'_>) -> Result<Key, KeyFault>
    ensures { Gives (λ k. k) result (of_root (segment word.entry) (segments_in rest.entry)) }
{
    if is_word(word, b"v1") {
        let (word, rest) = next(rest)?;
        of_v1(alloc, word, rest)
    } else if is_word(word, b"resources") {
        resources(alloc, rest)
    } else {
        Err(KeyFault::NoForm)
    }
}

// Behind `/calico/v1`.
fn of_v1(alloc: Global, word: Span<'_>, rest: Span<'_>) -> Result<Key, KeyFault>
    ensures { Gives (λ k. k) result (of_v1 (segment word.entry) (segments_in rest.entry)) }
{
    if is_word(word, b"host") {
        of_any_host(alloc, rest)
    } else if is_word(word, b"config") {
        global(alloc, rest)
    } else if is_word(word, b"policy") {
        of_tier_or_profile(alloc, rest)
    } else if is_word(word, b"netset") {
        net_set(alloc, rest)
    } else if is_word(word, b"ipam") {
        pool(alloc, rest)
    } else if is_word(word, b"Ready") {
        ready(rest)
    } else {
        Err(KeyFault::NoForm)
    }
}

// Behind `/calico/resources`.
fn resources(alloc: Global, rest: Span<'_>) -> Result<Key, KeyFault>
    ensures { Gives (λ k. k) result (resources (segments_in rest.entry)) }
{
    let (version, rest) = next(rest)?;
    let (group, rest) = next(rest)?;
    let (plural, rest) = next(rest)?;
    if !is_word(version, b"v3") || !is_word(group, b"projectcalico.org") {
        return Err(KeyFault::NoForm);
    }
    of_kind(alloc, plural, rest)
}

/// Behind `/calico/v1/Ready`.
pub fn ready(rest: Span<'_>) -> Result<Key, KeyFault>
    ensures { Gives (λ k. k) result (ready (segments_in rest.entry)) }
{
    if is_end(rest) {
        Ok(Key::Ready)
    } else {
        Err(KeyFault::NoForm)
    }
}

/// Behind `/calico/v1/config`.
pub fn global(alloc: Global, rest: Span<'_>) -> Result<Key, KeyFault>
    ensures { Gives (λ k. k) result (last_part (λ name. Key.Global name) (segments_in rest.entry)) }
{
    let name = last(rest)?;
    Ok(Key::Global {
        name: part(alloc, name)?,
    })
}

/// Behind `/calico/v1/netset`.
pub fn net_set(alloc: Global, rest: Span<'_>) -> Result<Key, KeyFault>
    ensures { Gives (λ k. k) result (last_part (λ name. Key.NetSet name) (segments_in rest.entry)) }
{
    let name = last(rest)?;
    Ok(Key::NetSet {
        name: part(alloc, name)?,
    })
}

/// Behind `/calico/v1/host`.
pub fn of_any_host(alloc: Global, rest: Span<'_>) -> Result<Key, KeyFault>
    ensures { Gives (λ k. k) result (hosts (segments_in rest.entry)) }
{
    let (host, rest) = next(rest)?;
    let (word, rest) = next(rest)?;
    of_host(alloc, host, word, rest)
}

// Behind `/calico/v1/host/HOST`.
fn of_host(alloc: Global, host: Span<'_>, word: Span<'_>, rest: Span<'_>) -> Result<Key, KeyFault>
    ensures { Gives (λ k. k) result (under_host (segment host.entry) (segment word.entry) (segments_in rest.entry)) }
{
    if is_word(word, b"config") {
        host_config(alloc, host, rest)
    } else if is_word(word, b"bird_ip") {
        host_ip(alloc, host, rest)
    } else if is_word(word, b"endpoint") {
        host_endpoint(alloc, host, rest)
    } else if is_word(word, b"workload") {
        workload(alloc, host, rest)
    } else {
        Err(KeyFault::NoForm)
    }
}

fn host_config(alloc: Global, host: Span<'_>, rest: Span<'_>) -> Result<Key, KeyFault>
    ensures { Gives (λ k. k) result (and_last_part (λ h n. Key.HostConfig h n) (segment host.entry) (segments_in rest.entry)) }
{
    let name = last(rest)?;
    Ok(Key::HostConfig {
        host: part(alloc, host)?,
        name: part(alloc, name)?,
    })
}

fn host_ip(alloc: Global, host: Span<'_>, rest: Span<'_>) -> Result<Key, KeyFault>
    ensures { Gives (λ k. k) result (host_ip (segment host.entry) (segments_in rest.entry)) }
{
    if !is_end(rest) {
        return Err(KeyFault::NoForm);
    }
    Ok(Key::HostIp {
        host: part(alloc, host)?,
    })
}

fn host_endpoint(alloc: Global, host: Span<'_>, rest: Span<'_>) -> Result<Key, KeyFault>
    ensures { Gives (λ k. k) result (and_last_part (λ h e. Key.HostEndpoint h e) (segment host.entry) (segments_in rest.entry)) }
{
    let endpoint = last(rest)?;
    Ok(Key::HostEndpoint {
        host: part(alloc, host)?,
        endpoint: part(alloc, endpoint)?,
    })
}

fn workload(alloc: Global, host: Span<'_>, rest: Span<'_>) -> Result<Key, KeyFault>
    ensures { Gives (λ k. k) result (host_workload (segment host.entry) (segments_in rest.entry)) }
{
    let (orchestrator, rest) = next(rest)?;
    let (workload, rest) = next(rest)?;
    let (word, rest) = next(rest)?;
    let endpoint = last(rest)?;
    if !is_word(word, b"endpoint") {
        return Err(KeyFault::NoForm);
    }
    Ok(Key::Workload {
        host: part(alloc, host)?,
        orchestrator: part(alloc, orchestrator)?,
        workload: part(alloc, workload)?,
        endpoint: part(alloc, endpoint)?,
    })
}

/// Behind `/calico/v1/policy`.
pub fn of_tier_or_profile(alloc: Global, rest: Span<'_>) -> Result<Key, KeyFault>
    ensures { Gives (λ k. k) result (policies (segments_in rest.entry)) }
{
    let (word, rest) = next(rest)?;
    let (owner, rest) = next(rest)?;
    if is_word(word, b"tier") {
        of_tier(alloc, owner, rest)
    } else if is_word(word, b"profile") {
        of_profile(alloc, owner, rest)
    } else {
        Err(KeyFault::NoForm)
    }
}

// Behind `/calico/v1/policy/tier/TIER`.
fn of_tier(alloc: Global, tier: Span<'_>, rest: Span<'_>) -> Result<Key, KeyFault>
    ensures { Gives (λ k. k) result (of_tier (segment tier.entry) (segments_in rest.entry)) }
{
    let (word, rest) = next(rest)?;
    let policy = last(rest)?;
    if !is_word(word, b"policy") {
        return Err(KeyFault::NoForm);
    }
    Ok(Key::Policy {
        tier: part(alloc, tier)?,
        policy: part(alloc, policy)?,
    })
}

// Behind `/calico/v1/policy/profile/PROFILE`.
fn of_profile(alloc: Global, profile: Span<'_>, rest: Span<'_>) -> Result<Key, KeyFault>
    ensures { Gives (λ k. k) result (of_profile (segment profile.entry) (segments_in rest.entry)) }
{
    let word = last(rest)?;
    if is_word(word, b"rules") {
        Ok(Key::ProfileRules {
            profile: part(alloc, profile)?,
        })
    } else if is_word(word, b"labels") {
        Ok(Key::ProfileLabels {
            profile: part(alloc, profile)?,
        })
    } else {
        Err(KeyFault::NoForm)
    }
}
