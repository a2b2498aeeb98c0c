// The kinds of resources, and their keys.
ghost use Rattle.std.specs.Prelude.{◌≡◌};
ghost use Rattle.std.specs.Option.{option_map};
ghost use Rattle.ty_keys.specs.Plurals.{kind_of, cluster_wide, in_namespace};
ghost use Rattle.ty_keys.specs.Plurals.{view};
ghost use Rattle.ty_keys.specs.steps.Segments.{segment, segments_in};
ghost use Rattle.ty_keys.specs.Forms.{Gives, last_part, namespaced, of_kind};

use crate::key::{Key, KeyFault};
use crate::part::part;
use crate::segment::{last, next};
use crate::span::Span;
use std::alloc::Global;
use ty_base::Text;

/// A kind of resource.
#[derive(Clone, Copy)]
pub struct ResourceKind {
    /// What names it in a key's text, as `ippools`.
    pub plural: &'static str,
    /// What a resource of it says of itself, as `IPPool`.
    pub kind: &'static str,
    /// Whether its keys have a namespace.
    pub namespaced: bool,
}

/// The kind that a plural names, if it names one.
#[tactic(auto, unfolding(crate::specs::Plurals::kind_of))]
pub fn kind_of(plural: &[u8]) -> Option<ResourceKind>
    ensures { option_map view result ≡ kind_of plural.now }
{
    if plural == b"nodes".as_slice() {
        Some(cluster_wide("nodes", "Node"))
    } else if plural == b"ippools".as_slice() {
        Some(cluster_wide("ippools", "IPPool"))
    } else if plural == b"globalnetworkpolicies".as_slice() {
        Some(cluster_wide("globalnetworkpolicies", "GlobalNetworkPolicy"))
    } else if plural == b"globalnetworksets".as_slice() {
        Some(cluster_wide("globalnetworksets", "GlobalNetworkSet"))
    } else if plural == b"hostendpoints".as_slice() {
        Some(cluster_wide("hostendpoints", "HostEndpoint"))
    } else if plural == b"profiles".as_slice() {
        Some(cluster_wide("profiles", "Profile"))
    } else if plural == b"tiers".as_slice() {
        Some(cluster_wide("tiers", "Tier"))
    } else if plural == b"bgpconfigurations".as_slice() {
        Some(cluster_wide("bgpconfigurations", "BGPConfiguration"))
    } else if plural == b"bgppeers".as_slice() {
        Some(cluster_wide("bgppeers", "BGPPeer"))
    } else if plural == b"felixconfigurations".as_slice() {
        Some(cluster_wide("felixconfigurations", "FelixConfiguration"))
    } else if plural == b"clusterinformations".as_slice() {
        Some(cluster_wide("clusterinformations", "ClusterInformation"))
    } else if plural == b"networkpolicies".as_slice() {
        Some(in_namespace("networkpolicies", "NetworkPolicy"))
    } else if plural == b"networksets".as_slice() {
        Some(in_namespace("networksets", "NetworkSet"))
    } else if plural == b"workloadendpoints".as_slice() {
        Some(in_namespace("workloadendpoints", "WorkloadEndpoint"))
    } else {
        None
    }
}

// A kind whose resources have no namespace.
fn cluster_wide(plural: &'static str, kind: &'static str) -> ResourceKind
    ensures { view result ≡ cluster_wide plural.now kind.now }
{
    ResourceKind {
        plural,
        kind,
        namespaced: false,
    }
}

// A kind whose resources stand in namespaces.
fn in_namespace(plural: &'static str, kind: &'static str) -> ResourceKind
    ensures { view result ≡ in_namespace plural.now kind.now }
{
    ResourceKind {
        plural,
        kind,
        namespaced: true,
    }
}

/// Behind `/calico/resources/v3/projectcalico.org/PLURAL`.
pub fn of_kind(alloc: Global, plural: Span<'_>, rest: Span<'_>) -> Result<Key, KeyFault>
    ensures { Gives (λ k. k) result (of_kind (kind_of plural.entry.bytes.now) (segments_in rest.entry)) }
{
    match kind_of(plural.bytes) {
        None => Err(KeyFault::NoForm),
        Some(kind) => of_resource(alloc, kind, rest),
    }
}

fn of_resource(alloc: Global, kind: ResourceKind, rest: Span<'_>) -> Result<Key, KeyFault>
    ensures { Gives (λ k. k) result (of_kind (Some (view kind)) (segments_in rest.entry)) }
{
    if kind.namespaced {
        with_namespace(alloc, kind.plural, rest)
    } else {
        without_namespace(alloc, kind.plural, rest)
    }
}

fn without_namespace(alloc: Global, plural: &'static str, rest: Span<'_>) -> Result<Key, KeyFault>
    ensures { Gives (λ k. k) result (last_part (λ name. Key.Resource plural.now None name) (segments_in rest.entry)) }
{
    let name = last(rest)?;
    Ok(Key::Resource {
        plural: Text::of(alloc, plural)?,
        namespace: None,
        name: part(alloc, name)?,
    })
}

fn with_namespace(alloc: Global, plural: &'static str, rest: Span<'_>) -> Result<Key, KeyFault>
    ensures { Gives (λ k. k) result (namespaced plural.now (segments_in rest.entry)) }
{
    let (namespace, rest) = next(rest)?;
    let name = last(rest)?;
    Ok(Key::Resource {
        plural: Text::of(alloc, plural)?,
        namespace: Some(part(alloc, namespace)?),
        name: part(alloc, name)?,
    })
}
