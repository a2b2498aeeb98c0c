// The rules of a resource's `spec`, kind by kind.
ghost use Rattle.std.specs.Prelude.{◌≡◌, Option};
ghost use Rattle.serde_json.specs.View.{view};
ghost use Rattle.ty_rules.specs.Checks.{Tells};
ghost use Rattle.ty_values.specs.Kinds.{v3_direction, policy_spec, profile_spec, network_set_spec, host_endpoint_spec, cidr_in, widest_block, block_of, block_size, pool_spec, tier_spec, spec_of};

use crate::label::Labels;
use crate::nets::{CidrText, IpText};
use crate::policy_rules::V3Rules;
use crate::selectors::SelectorAt;
use serde_json::Value;
use std::alloc::Global;
use ty_net::{Cidr, Ip, read_cidr};
use ty_rules::{
    ArrayOf, Check, IfGiven, InterfaceOrAll, IsBool, Optional, Profiles, Required, Row, Rule, Test,
    TextOf, TextTest, ValueFault, Whole, all_of, given, is_whole_within, table,
};

#[derive(Drop)]
struct Direction;

impl TextTest for Direction {
    ghost reads = { λ _. v3_direction };

    fn takes(&self, text: &str) -> bool {
        matches!(text, "Ingress" | "Egress")
    }
}

fn check_policy(alloc: Global, spec: &Value) -> Result<(), ValueFault>
    ensures { Tells result (policy_spec (view spec.now)) }
{
    table![
        Row(Rule::Order, Optional("order", Whole)),
        SelectorAt("selector"),
        Row(Rule::Types, Optional("types", ArrayOf(TextOf(Direction)))),
        IfGiven("ingress", V3Rules),
        IfGiven("egress", V3Rules),
    ]
    .check(alloc, spec)
}

fn check_profile(alloc: Global, spec: &Value) -> Result<(), ValueFault>
    ensures { Tells result (profile_spec (view spec.now)) }
{
    table![
        Row(Rule::Labels, Optional("labelsToApply", Labels)),
        IfGiven("ingress", V3Rules),
        IfGiven("egress", V3Rules),
    ]
    .check(alloc, spec)
}

fn check_network_set(alloc: Global, spec: &Value) -> Result<(), ValueFault>
    ensures { Tells result (network_set_spec (view spec.now)) }
{
    Row(Rule::Nets, Optional("nets", ArrayOf(TextOf(CidrText)))).check(alloc, spec)
}

fn check_host_endpoint(alloc: Global, spec: &Value) -> Result<(), ValueFault>
    ensures { Tells result (host_endpoint_spec (view spec.now)) }
{
    table![
        Row(
            Rule::Interface,
            Optional("interfaceName", TextOf(InterfaceOrAll))
        ),
        Row(
            Rule::Addresses,
            Optional("expectedIPs", ArrayOf(TextOf(IpText)))
        ),
        Row(Rule::Profiles, Optional("profiles", Profiles)),
    ]
    .check(alloc, spec)
}

// The network of an address pool.
fn cidr_in(spec: &Value) -> Option<Cidr>
    ensures { result ≡ cidr_in (view spec.now) }
{
    read_cidr(given(spec, "cidr")?.as_str()?.as_bytes()).ok()
}

fn is_block_of(cidr: Cidr, size: &Value) -> bool
    ensures { result ≡ block_of cidr (view size.now) }
{
    let len = u64::from(cidr.len);
    match cidr.ip {
        Ip::V4(_) => is_whole_within(size, len.max(20), 32),
        Ip::V6(_) => is_whole_within(size, len.max(116), 128),
    }
}

#[derive(Drop)]
struct BlockSize;

impl Test for BlockSize {
    ghost holds = { λ _. block_size };

    fn accepts(&self, spec: &Value) -> bool {
        match (cidr_in(spec), given(spec, "blockSize")) {
            (Some(cidr), Some(size)) => is_block_of(cidr, size),
            _ => true,
        }
    }
}

fn check_pool(alloc: Global, spec: &Value) -> Result<(), ValueFault>
    ensures { Tells result (pool_spec (view spec.now)) }
{
    table![
        Row(Rule::Nets, Required("cidr", TextOf(CidrText))),
        Row(Rule::BlockSize, BlockSize),
        Row(
            Rule::Flag,
            all_of![
                Optional("natOutgoing", IsBool),
                Optional("disabled", IsBool)
            ]
        ),
    ]
    .check(alloc, spec)
}

fn check_tier(alloc: Global, spec: &Value) -> Result<(), ValueFault>
    ensures { Tells result (tier_spec (view spec.now)) }
{
    Row(Rule::Order, Optional("order", Whole)).check(alloc, spec)
}

/// The rules of the `spec` of a resource of this kind.
#[derive(Drop)]
pub struct SpecOf<'k>(pub &'k str);

impl Check for SpecOf<'_> {
    ghost breaks = { λ t. spec_of t.0.now };

    fn check(&self, alloc: Global, spec: &Value) -> Result<(), ValueFault> {
        match self.0 {
            "NetworkPolicy" | "GlobalNetworkPolicy" => check_policy(alloc, spec),
            "Profile" => check_profile(alloc, spec),
            "NetworkSet" | "GlobalNetworkSet" => check_network_set(alloc, spec),
            "HostEndpoint" => check_host_endpoint(alloc, spec),
            "IPPool" => check_pool(alloc, spec),
            "Tier" => check_tier(alloc, spec),
            _ => Ok(()),
        }
    }
}
