// Pools and resources, which say again what their keys say.
ghost use Rattle.std.specs.Prelude.{◌≡◌};
ghost use Rattle.serde_json.specs.View.{view};
ghost use Rattle.ty_keys.specs.Plurals.{kind_of as kind_named};
ghost use Rattle.ty_rules.specs.Checks.{Tells};
ghost use Rattle.ty_values.specs.Keys.{same_ip, same_net, same_version, net_of_key, pool, kind_name, same_namespace, resource};

use crate::kinds::SpecOf;
use crate::label::Labels;
use crate::nets::is_v6;
use serde_json::Value;
use std::alloc::Global;
use ty_base::Text;
use ty_keys::kind_of;
use ty_net::{Cidr, Ip, read_cidr, read_ip};
use ty_rules::{
    Check, IfGiven, IsBool, IsObject, Optional, Required, Row, Rule, Test, TextOf, TextTest, This,
    ValueFault, all_of, table,
};

fn is_same_ip(a: Ip, b: Ip) -> bool
    ensures { result ≡ same_ip a b }
{
    match (a, b) {
        (Ip::V4(a), Ip::V4(b)) => a == b,
        (Ip::V6(a), Ip::V6(b)) => a == b,
        _ => false,
    }
}

fn is_net(ip: Ip, len: u8, cidr: Cidr) -> bool
    ensures { result ≡ same_net ip len cidr }
{
    is_same_ip(cidr.ip, ip) && cidr.len == len
}

fn is_of_version(v6: bool, ip: Ip) -> bool
    ensures { result ≡ same_version v6 ip }
{
    if v6 { is_v6(ip) } else { !is_v6(ip) }
}

// The network that a pool's key names.
#[derive(Drop)]
struct NetOfKey<'k> {
    v6: bool,
    addr: &'k Text,
    len: u8,
}

impl TextTest for NetOfKey<'_> {
    ghost reads = { λ t. net_of_key t.v6 t.addr.now t.len };

    fn takes(&self, text: &str) -> bool {
        let (Ok(ip), Ok(cidr)) = (read_ip(self.addr.bytes()), read_cidr(text.as_bytes())) else {
            return false;
        };
        is_of_version(self.v6, ip) && is_net(ip, self.len, cidr)
    }
}

/// The first rule that a pool's value breaks, under the network of its key.
pub fn check_pool(
    alloc: Global,
    v6: bool,
    addr: &Text,
    len: u8,
    value: &Value,
) -> Result<(), ValueFault>
    ensures { Tells result (pool v6 addr.now len (view value.now)) }
{
    table![
        Row(Rule::Shape, IsObject),
        Row(
            Rule::PoolCidr,
            Required("cidr", TextOf(NetOfKey { v6, addr, len }))
        ),
        Row(
            Rule::Flag,
            all_of![Optional("masquerade", IsBool), Optional("disabled", IsBool)]
        ),
    ]
    .check(alloc, value)
}

// The name of the kind that a plural names, where it names one.
fn kind_name(plural: &Text) -> &'static str
    ensures { result.now ≡ kind_name (kind_named plural.now) }
{
    match kind_of(plural.bytes()) {
        Some(kind) => kind.kind,
        None => "",
    }
}

// The namespace of a resource's key.
#[derive(Drop)]
struct InNamespace<'k>(&'k Option<Text>);

impl Test for InNamespace<'_> {
    ghost holds = { λ t. same_namespace t.0.now };

    fn accepts(&self, metadata: &Value) -> bool {
        match self.0 {
            Some(namespace) => {
                Required("namespace", TextOf(This(namespace.as_str()))).accepts(metadata)
            }
            None => Optional("namespace", TextOf(This(""))).accepts(metadata),
        }
    }
}

/// The first rule that a resource's value breaks, under the kind, namespace and name of its key.
pub fn check_resource(
    alloc: Global,
    plural: &Text,
    namespace: &Option<Text>,
    name: &Text,
    value: &Value,
) -> Result<(), ValueFault>
    ensures { Tells result (resource (kind_name (kind_named plural.now)) namespace.now name.now (view value.now)) }
{
    check_kind(alloc, kind_name(plural), namespace, name.as_str(), value)
}

// The rules of a resource of this kind.
fn check_kind(
    alloc: Global,
    kind: &str,
    namespace: &Option<Text>,
    name: &str,
    value: &Value,
) -> Result<(), ValueFault>
    ensures { Tells result (resource kind.now namespace.now name.now (view value.now)) }
{
    table![
        Row(Rule::Shape, IsObject),
        Row(
            Rule::ApiVersion,
            Optional("apiVersion", TextOf(This("projectcalico.org/v3")))
        ),
        Row(Rule::ResourceKind, Optional("kind", TextOf(This(kind)))),
        Row(
            Rule::Name,
            Optional(
                "metadata",
                all_of![IsObject, Required("name", TextOf(This(name)))]
            )
        ),
        Row(
            Rule::Namespace,
            Optional("metadata", InNamespace(namespace))
        ),
        Row(
            Rule::Labels,
            Optional("metadata", Optional("labels", Labels))
        ),
        Row(Rule::Shape, Optional("spec", IsObject)),
        IfGiven("spec", SpecOf(kind)),
    ]
    .check(alloc, value)
}
