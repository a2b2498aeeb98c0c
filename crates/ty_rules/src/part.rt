// Parts that the values of several keys have.
ghost use Rattle.ty_rules.specs.Parts.{profiles, protocol, has_ports, named_ports, ip_version};

use crate::test::{ArrayOf, IsObject, Required, Test, TextOf, TextTest, WholeWithin};
use crate::text::{Filled, PortName, ProtocolName, ProtocolWithPorts};
use serde_json::Value;
use ty_net::GREATEST_PORT;

/// An array of names of profiles, none of them empty.
#[derive(Drop)]
pub struct Profiles;

impl Test for Profiles {
    ghost holds = { λ _. profiles };

    fn accepts(&self, value: &Value) -> bool {
        ArrayOf(TextOf(Filled)).accepts(value)
    }
}

/// A protocol's number or name.
#[derive(Drop)]
pub struct Protocol;

impl Test for Protocol {
    ghost holds = { λ _. protocol };

    fn accepts(&self, value: &Value) -> bool {
        crate::any_of![WholeWithin(1, 255), TextOf(ProtocolName)].accepts(value)
    }
}

/// The number or the name of a protocol that has ports.
#[derive(Drop)]
pub struct HasPorts;

impl Test for HasPorts {
    ghost holds = { λ _. has_ports };

    fn accepts(&self, value: &Value) -> bool {
        crate::any_of![
            WholeWithin(6, 6),
            WholeWithin(17, 17),
            WholeWithin(132, 132),
            TextOf(ProtocolWithPorts),
        ]
        .accepts(value)
    }
}

/// An array of ports with names.
#[derive(Drop)]
pub struct NamedPorts;

impl Test for NamedPorts {
    ghost holds = { λ _. named_ports };

    fn accepts(&self, value: &Value) -> bool {
        ArrayOf(crate::all_of![
            IsObject,
            Required("name", TextOf(PortName)),
            Required("protocol", HasPorts),
            Required("port", WholeWithin(1, GREATEST_PORT)),
        ])
        .accepts(value)
    }
}

/// 4 or 6.
#[derive(Drop)]
pub struct IpVersion;

impl Test for IpVersion {
    ghost holds = { λ _. ip_version };

    fn accepts(&self, value: &Value) -> bool {
        crate::any_of![WholeWithin(4, 4), WholeWithin(6, 6)].accepts(value)
    }
}
