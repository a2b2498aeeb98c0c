// The rules of a policy, as keys of version 1 and resources of version 3 write them.
ghost use Rattle.std.specs.Prelude.{◌≡◌};
ghost use Rattle.ty_rules.specs.declared.rule.Rule.TheVariants as R;
ghost use Rattle.ty_rules.specs.Checks.{row};
ghost use Rattle.ty_values.specs.PolicyRules.{v1_nets, v1_selectors, v1_ports, v1_rule, v1_rules, side_nets, side_ports, side_selectors, both_sides, lists_ports, v3_shape, v3_ports, v3_rule, v3_rules};

use crate::nets::{CidrText, Ports};
use crate::selectors::SelectorAt;
use serde_json::Value;
use std::alloc::Global;
use ty_rules::{
    Action, ActionOrEmpty, ArrayOf, Check, FilledArray, HasPorts, IfGiven, IpVersion, IsObject,
    ListOf, Optional, Protocol, Required, Row, Rule, Test, TextOf, ValueFault, WhereAlso,
    WholeWithin, all_of, any_of, table,
};

#[derive(Drop)]
struct V1Nets;

impl Test for V1Nets {
    ghost holds = { λ _. v1_nets };

    fn accepts(&self, value: &Value) -> bool {
        all_of![
            Optional("src_net", TextOf(CidrText)),
            Optional("dst_net", TextOf(CidrText)),
            Optional("src_nets", ArrayOf(TextOf(CidrText))),
            Optional("dst_nets", ArrayOf(TextOf(CidrText))),
        ]
        .accepts(value)
    }
}

#[derive(Drop)]
struct V1Selectors;

impl Check for V1Selectors {
    ghost breaks = { λ _. row R.Selector v1_selectors };

    fn check(&self, alloc: Global, value: &Value) -> Result<(), ValueFault> {
        table![
            SelectorAt("src_selector"),
            SelectorAt("dst_selector"),
            SelectorAt("not_src_selector"),
            SelectorAt("not_dst_selector"),
        ]
        .check(alloc, value)
    }
}

#[derive(Drop)]
struct V1Ports;

impl Test for V1Ports {
    ghost holds = { λ _. v1_ports };

    fn accepts(&self, value: &Value) -> bool {
        all_of![
            Optional("src_ports", Ports),
            Optional("dst_ports", Ports),
            Optional("not_src_ports", Ports),
            Optional("not_dst_ports", Ports),
            WhereAlso(
                any_of![
                    Required("src_ports", FilledArray),
                    Required("dst_ports", FilledArray),
                    Required("not_src_ports", FilledArray),
                    Required("not_dst_ports", FilledArray),
                ],
                Required("protocol", HasPorts)
            ),
        ]
        .accepts(value)
    }
}

#[derive(Drop)]
struct V1Rule;

impl Check for V1Rule {
    ghost breaks = { λ _. v1_rule };

    fn check(&self, alloc: Global, value: &Value) -> Result<(), ValueFault> {
        table![
            Row(Rule::Shape, IsObject),
            Row(Rule::Action, Optional("action", TextOf(ActionOrEmpty))),
            Row(Rule::IpVersion, Optional("ip_version", IpVersion)),
            Row(
                Rule::Protocol,
                all_of![
                    Optional("protocol", Protocol),
                    Optional("not_protocol", Protocol)
                ]
            ),
            Row(Rule::Nets, V1Nets),
            V1Selectors,
            Row(Rule::RulePorts, V1Ports),
            Row(
                Rule::Icmp,
                all_of![
                    Optional("icmp_type", WholeWithin(0, 254)),
                    Optional("icmp_code", WholeWithin(0, 255)),
                ]
            ),
        ]
        .check(alloc, value)
    }
}

/// A list of rules of a policy in version 1.
#[derive(Drop)]
pub struct V1Rules;

impl Check for V1Rules {
    ghost breaks = { λ _. v1_rules };

    fn check(&self, alloc: Global, value: &Value) -> Result<(), ValueFault> {
        ListOf(Rule::Shape, V1Rule).check(alloc, value)
    }
}

#[derive(Drop)]
struct V3Shape;

impl Test for V3Shape {
    ghost holds = { λ _. v3_shape };

    fn accepts(&self, value: &Value) -> bool {
        all_of![
            IsObject,
            all_of![
                Optional("source", IsObject),
                Optional("destination", IsObject)
            ],
            Optional("icmp", IsObject),
        ]
        .accepts(value)
    }
}

#[derive(Drop)]
struct SideNets;

impl Test for SideNets {
    ghost holds = { λ _. side_nets };

    fn accepts(&self, value: &Value) -> bool {
        all_of![
            Optional("nets", ArrayOf(TextOf(CidrText))),
            Optional("notNets", ArrayOf(TextOf(CidrText))),
        ]
        .accepts(value)
    }
}

#[derive(Drop)]
struct SideSelectors;

impl Check for SideSelectors {
    ghost breaks = { λ _. row R.Selector side_selectors };

    fn check(&self, alloc: Global, value: &Value) -> Result<(), ValueFault> {
        table![
            SelectorAt("selector"),
            SelectorAt("notSelector"),
            SelectorAt("namespaceSelector"),
        ]
        .check(alloc, value)
    }
}

#[derive(Drop)]
struct V3Selectors;

impl Check for V3Selectors {
    ghost breaks = { λ _. row R.Selector (both_sides side_selectors) };

    fn check(&self, alloc: Global, value: &Value) -> Result<(), ValueFault> {
        table![
            IfGiven("source", SideSelectors),
            IfGiven("destination", SideSelectors),
        ]
        .check(alloc, value)
    }
}

#[derive(Drop)]
struct SidePorts;

impl Test for SidePorts {
    ghost holds = { λ _. side_ports };

    fn accepts(&self, value: &Value) -> bool {
        all_of![Optional("ports", Ports), Optional("notPorts", Ports)].accepts(value)
    }
}

#[derive(Drop)]
struct ListsPorts;

impl Test for ListsPorts {
    ghost holds = { λ _. lists_ports };

    fn accepts(&self, value: &Value) -> bool {
        any_of![
            Required("ports", FilledArray),
            Required("notPorts", FilledArray)
        ]
        .accepts(value)
    }
}

#[derive(Drop)]
struct V3Ports;

impl Test for V3Ports {
    ghost holds = { λ _. v3_ports };

    fn accepts(&self, value: &Value) -> bool {
        all_of![
            all_of![
                Optional("source", SidePorts),
                Optional("destination", SidePorts)
            ],
            WhereAlso(
                any_of![
                    Required("source", ListsPorts),
                    Required("destination", ListsPorts)
                ],
                Required("protocol", HasPorts)
            ),
        ]
        .accepts(value)
    }
}

#[derive(Drop)]
struct V3Rule;

impl Check for V3Rule {
    ghost breaks = { λ _. v3_rule };

    fn check(&self, alloc: Global, value: &Value) -> Result<(), ValueFault> {
        table![
            Row(Rule::Shape, V3Shape),
            Row(Rule::Action, Required("action", TextOf(Action))),
            Row(Rule::IpVersion, Optional("ipVersion", IpVersion)),
            Row(
                Rule::Protocol,
                all_of![
                    Optional("protocol", Protocol),
                    Optional("notProtocol", Protocol)
                ]
            ),
            Row(
                Rule::Nets,
                all_of![
                    Optional("source", SideNets),
                    Optional("destination", SideNets)
                ]
            ),
            V3Selectors,
            Row(Rule::RulePorts, V3Ports),
            Row(
                Rule::Icmp,
                Optional(
                    "icmp",
                    all_of![
                        Optional("type", WholeWithin(0, 254)),
                        Optional("code", WholeWithin(0, 255))
                    ]
                )
            ),
        ]
        .check(alloc, value)
    }
}

/// A list of rules of a policy in version 3.
#[derive(Drop)]
pub struct V3Rules;

impl Check for V3Rules {
    ghost breaks = { λ _. v3_rules };

    fn check(&self, alloc: Global, value: &Value) -> Result<(), ValueFault> {
        ListOf(Rule::Shape, V3Rule).check(alloc, value)
    }
}
