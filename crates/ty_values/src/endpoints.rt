// Endpoints of hosts and of workloads.
ghost use Rattle.std.specs.Prelude.{◌≡◌};
ghost use Rattle.serde_json.specs.View.{view};
ghost use Rattle.ty_rules.specs.Checks.{Tells};
ghost use Rattle.ty_values.specs.Keys.{host_endpoint, state, workload};

use crate::label::Labels;
use crate::nets::{Cidr4, Cidr6, Ip4, Ip6};
use serde_json::Value;
use std::alloc::Global;
use ty_rules::{
    ArrayOf, Check, Interface, InterfaceOrAll, IsObject, Mac, NamedPorts, Optional, Profiles,
    Required, Row, Rule, Test, TextOf, TextTest, ValueFault, all_of, table,
};

/// The first rule that a host endpoint's value breaks.
pub fn check_host_endpoint(alloc: Global, value: &Value) -> Result<(), ValueFault>
    ensures { Tells result (host_endpoint (view value.now)) }
{
    table![
        Row(Rule::Shape, IsObject),
        Row(Rule::Interface, Optional("name", TextOf(InterfaceOrAll))),
        Row(
            Rule::Addresses,
            all_of![
                Optional("expected_ipv4_addrs", ArrayOf(TextOf(Ip4))),
                Optional("expected_ipv6_addrs", ArrayOf(TextOf(Ip6))),
            ]
        ),
        Row(Rule::Labels, Optional("labels", Labels)),
        Row(Rule::Profiles, Optional("profile_ids", Profiles)),
        Row(Rule::Ports, Optional("ports", NamedPorts)),
    ]
    .check(alloc, value)
}

#[derive(Drop)]
struct State;

impl TextTest for State {
    ghost reads = { λ _. state };

    fn takes(&self, text: &str) -> bool {
        matches!(text, "active" | "inactive")
    }
}

/// The first rule that a workload endpoint's value breaks.
pub fn check_workload(alloc: Global, value: &Value) -> Result<(), ValueFault>
    ensures { Tells result (workload (view value.now)) }
{
    table![
        Row(Rule::Shape, IsObject),
        Row(Rule::State, Optional("state", TextOf(State))),
        Row(Rule::Interface, Required("name", TextOf(Interface))),
        Row(Rule::Mac, Optional("mac", TextOf(Mac))),
        Row(
            Rule::Nets,
            all_of![
                Optional("ipv4_nets", ArrayOf(TextOf(Cidr4))),
                Optional("ipv6_nets", ArrayOf(TextOf(Cidr6))),
            ]
        ),
        Row(Rule::Labels, Optional("labels", Labels)),
        Row(Rule::Profiles, Optional("profile_ids", Profiles)),
        Row(Rule::Ports, Optional("ports", NamedPorts)),
    ]
    .check(alloc, value)
}
