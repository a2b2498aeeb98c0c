// Policies, profiles and sets of networks of version 1.
ghost use Rattle.std.specs.Prelude.{◌≡◌};
ghost use Rattle.serde_json.specs.View.{view};
ghost use Rattle.ty_rules.specs.Checks.{Tells};
ghost use Rattle.ty_values.specs.Keys.{v1_direction, policy, profile_rules, network_set};

use crate::label::Labels;
use crate::nets::CidrText;
use crate::policy_rules::V1Rules;
use crate::selectors::SelectorAt;
use serde_json::Value;
use std::alloc::Global;
use ty_rules::{
    ArrayOf, Check, IfGiven, IsObject, Optional, Row, Rule, TextOf, TextTest, ValueFault, Whole,
    table,
};

#[derive(Drop)]
struct Direction;

impl TextTest for Direction {
    ghost reads = { λ _. v1_direction };

    fn takes(&self, text: &str) -> bool {
        matches!(text, "ingress" | "egress")
    }
}

/// The first rule that a policy's value breaks.
pub fn check_policy(alloc: Global, value: &Value) -> Result<(), ValueFault>
    ensures { Tells result (policy (view value.now)) }
{
    table![
        Row(Rule::Shape, IsObject),
        Row(Rule::Order, Optional("order", Whole)),
        SelectorAt("selector"),
        Row(Rule::Types, Optional("types", ArrayOf(TextOf(Direction)))),
        IfGiven("inbound_rules", V1Rules),
        IfGiven("outbound_rules", V1Rules),
    ]
    .check(alloc, value)
}

/// The first rule that the value of a profile's rules breaks.
pub fn check_profile_rules(alloc: Global, value: &Value) -> Result<(), ValueFault>
    ensures { Tells result (profile_rules (view value.now)) }
{
    table![
        Row(Rule::Shape, IsObject),
        IfGiven("inbound_rules", V1Rules),
        IfGiven("outbound_rules", V1Rules),
    ]
    .check(alloc, value)
}

/// The first rule that a network set's value breaks.
pub fn check_network_set(alloc: Global, value: &Value) -> Result<(), ValueFault>
    ensures { Tells result (network_set (view value.now)) }
{
    table![
        Row(Rule::Shape, IsObject),
        Row(Rule::Nets, Optional("nets", ArrayOf(TextOf(CidrText)))),
        Row(Rule::Labels, Optional("labels", Labels)),
    ]
    .check(alloc, value)
}
