// The rules of each form of key.
ghost use Rattle.std.specs.Prelude.{◌≡◌};
ghost use Rattle.serde_json.specs.View.{view};
ghost use Rattle.ty_rules.specs.Checks.{Tells};
ghost use Rattle.ty_values.specs.Keys.{of_key};

use crate::endpoints::{check_host_endpoint, check_workload};
use crate::label::Labels;
use crate::nets::IpText;
use crate::policies::{check_network_set, check_policy, check_profile_rules};
use crate::resources::{check_pool, check_resource};
use serde_json::Value;
use std::alloc::Global;
use ty_keys::Key;
use ty_rules::{Check, IsBool, IsText, Row, Rule, TextOf, ValueFault};

/// What a value breaks of the rules of a key's form.
pub fn check_form(alloc: Global, key: &Key, value: &Value) -> Result<(), ValueFault>
    ensures { Tells result (of_key key.now (view value.now)) }
{
    match key {
        Key::Ready => Row(Rule::Ready, IsBool).check(alloc, value),
        Key::Global { .. } | Key::HostConfig { .. } => Row(Rule::Config, IsText).check(
            alloc, value,
        ),
        Key::HostIp { .. } => Row(Rule::Address, TextOf(IpText)).check(alloc, value),
        Key::HostEndpoint { .. } => check_host_endpoint(alloc, value),
        Key::Workload { .. } => check_workload(alloc, value),
        Key::Policy { .. } => check_policy(alloc, value),
        Key::ProfileRules { .. } => check_profile_rules(alloc, value),
        Key::ProfileLabels { .. } => Row(Rule::Labels, Labels).check(alloc, value),
        Key::NetSet { .. } => check_network_set(alloc, value),
        Key::Pool { v6, addr, len } => check_pool(alloc, *v6, addr, *len, value),
        Key::Resource {
            plural,
            namespace,
            name,
        } => check_resource(alloc, plural, namespace, name, value),
    }
}
