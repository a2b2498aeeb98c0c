// Values as a cluster has them, and each way to break a rule, by the rules' own order.
use serde_json::Value;
use std::alloc::Global;
use std::process::Abort;
use std::test::Fail;
use ty_keys::Key;
use ty_values::{Rule, ValueFault, check};

const READY: &str = "/calico/v1/Ready";

const CONFIG: &str = "/calico/v1/config/LogSeverityScreen";

const HOST_CONFIG: &str = "/calico/v1/host/node-1/config/InterfacePrefix";

const HOST_IP: &str = "/calico/v1/host/node-1/bird_ip";

const HOST_ENDPOINT: &str = "/calico/v1/host/node-1/endpoint/eth0";

const WORKLOAD: &str = "/calico/v1/host/n1/workload/k8s/p1/endpoint/eth0";

const POLICY: &str = "/calico/v1/policy/tier/default/policy/allow-web";

const RULES: &str = "/calico/v1/policy/profile/kns.default/rules";

const LABELS: &str = "/calico/v1/policy/profile/kns.default/labels";

const NETSET: &str = "/calico/v1/netset/blocked";

const POOL: &str = "/calico/v1/ipam/v4/pool/10.0.0.0-16";

const POOL6: &str = "/calico/v1/ipam/v6/pool/fd00::-48";

const ODD_POOL: &str = "/calico/v1/ipam/v6/pool/10.0.0.0-16";

const TIER: &str = "/calico/resources/v3/projectcalico.org/tiers/security";

const GLOBAL_POLICY: &str = "/calico/resources/v3/projectcalico.org/globalnetworkpolicies/deny-all";

const NETWORK_POLICY: &str = "/calico/resources/v3/projectcalico.org/networkpolicies/prod/web";

const PROFILE: &str = "/calico/resources/v3/projectcalico.org/profiles/kns.default";

const GLOBAL_SET: &str = "/calico/resources/v3/projectcalico.org/globalnetworksets/blocked";

const V3_ENDPOINT: &str = "/calico/resources/v3/projectcalico.org/hostendpoints/node-1-eth0";

const V3_POOL: &str = "/calico/resources/v3/projectcalico.org/ippools/default";

const NODE: &str = "/calico/resources/v3/projectcalico.org/nodes/node-1";

const NETWORK_SET: &str = "/calico/resources/v3/projectcalico.org/networksets/prod/partners";

const BGP: &str = "/calico/resources/v3/projectcalico.org/bgpconfigurations/default";

const BGP_PEER: &str = "/calico/resources/v3/projectcalico.org/bgppeers/rack-1";

const FELIX: &str = "/calico/resources/v3/projectcalico.org/felixconfigurations/default";

const CLUSTER: &str = "/calico/resources/v3/projectcalico.org/clusterinformations/default";

const V3_WORKLOAD: &str = "/calico/resources/v3/projectcalico.org/workloadendpoints/prod/web-eth0";

// The first broken rule, where the key reads.
fn broken(rt: &impl Abort, alloc: Global, key: &str, value: &str) -> Option<Rule> {
    let key = Key::read(alloc, key.as_bytes()).expect(rt, "a key");
    let value = Value::from_str(alloc, value).expect(rt, "a JSON text");
    match check(alloc, &key, &value) {
        Ok(()) => None,
        Err(ValueFault::Broken { rule }) => Some(rule),
        Err(ValueFault::NoMemory) => {
            assert!(rt; false, "there is memory");
            None
        }
    }
}

const VALID: [(&str, &str); 30] = [
    (READY, "true"),
    (CONFIG, r#""Info""#),
    (HOST_CONFIG, r#""cali""#),
    (HOST_IP, r#""192.168.10.1""#),
    (
        HOST_ENDPOINT,
        r#"{"name":"*","expected_ipv4_addrs":["10.0.0.1"],"expected_ipv6_addrs":["fd00::1"],"labels":{"role":"db"},
        "profile_ids":["p"],"ports":[{"name":"http","protocol":"tcp","port":80}]}"#,
    ),
    (
        WORKLOAD,
        r#"{"state":"active","name":"cali0a1b2c3d4e5","mac":"ee:ee:ee:ee:ee:ee","ipv4_nets":["10.244.1.5/32"],
        "ipv6_nets":["fd00::5/128"],"labels":{"projectcalico.org/namespace":"default"},"profile_ids":["kns.default"],
        "ports":[{"name":"dns","protocol":17,"port":53}],"ipv4_gateway":null,"other":[1,{"a":[-1]}]}"#,
    ),
    (
        POLICY,
        r#"{"order":100,"selector":"app == 'web'","types":["ingress","egress"],
        "inbound_rules":[{"action":"allow","ip_version":4,"protocol":"tcp","not_protocol":"ICMPv6","src_net":"10.0.0.0/8",
        "src_nets":["fd00::/8"],"src_selector":"role == 'client'","dst_ports":[80,"8000:8080","http"],
        "icmp_type":254,"icmp_code":255},{"action":"","src_ports":[]},{}],"outbound_rules":null}"#,
    ),
    (
        RULES,
        r#"{"inbound_rules":[],"outbound_rules":[{"action":"next-tier","protocol":255}]}"#,
    ),
    (
        LABELS,
        r#"{"pcns.name":"default","projectcalico.org/name":""}"#,
    ),
    (NETSET, r#"{"nets":["10.0.0.0/8","::/0"],"labels":{}}"#),
    (
        POOL,
        r#"{"cidr":"10.0.0.0/16","masquerade":true,"disabled":null}"#,
    ),
    (POOL6, r#"{"cidr":"FD00:0::/48"}"#),
    (
        TIER,
        r#"{"metadata":{"name":"security"},"spec":{"order":10}}"#,
    ),
    (TIER, "{}"),
    (TIER, r#"{"metadata":null,"spec":null}"#),
    (
        GLOBAL_POLICY,
        r#"{"apiVersion":"projectcalico.org/v3","kind":"GlobalNetworkPolicy",
        "metadata":{"name":"deny-all","namespace":"","labels":{"a":"b"}},
        "spec":{"order":-1,"selector":"all()","types":["Ingress","Egress"],"ingress":[{"action":"Deny"}],"egress":[]}}"#,
    ),
    (
        NETWORK_POLICY,
        r#"{"metadata":{"name":"web","namespace":"prod"},"spec":{"ingress":[{"action":"Allow","ipVersion":6,
        "protocol":"SCTP","notProtocol":1,"source":{"nets":["10.0.0.0/8"],"notNets":[],"selector":"has(x)",
        "notSelector":"a in {'b'}","namespaceSelector":"global()","ports":["1:2"]},"destination":{"notPorts":[0,65535]},
        "icmp":{"type":0,"code":0}},{"action":"Pass","source":null,"icmp":{}}]}}"#,
    ),
    (
        PROFILE,
        r#"{"spec":{"labelsToApply":{"pcns.name":"default"},"egress":[{"action":"Log"}]}}"#,
    ),
    (GLOBAL_SET, r#"{"spec":{"nets":["10.0.0.0/8"]}}"#),
    (
        V3_ENDPOINT,
        r#"{"spec":{"node":"node-1","interfaceName":"eth0","expectedIPs":["10.0.0.1","::1"],"profiles":["p"]}}"#,
    ),
    (
        V3_POOL,
        r#"{"spec":{"cidr":"10.244.0.0/16","blockSize":26,"natOutgoing":true,"disabled":false}}"#,
    ),
    (
        V3_POOL,
        r#"{"spec":{"cidr":"10.244.0.0/26","blockSize":26}}"#,
    ),
    (V3_POOL, r#"{"spec":{"cidr":"fd00::/48","blockSize":116}}"#),
    (NODE, r#"{"kind":"Node","spec":{"bgp":{"asNumber":64512}}}"#),
    (
        NETWORK_SET,
        r#"{"apiVersion":"projectcalico.org/v3","kind":"NetworkSet",
        "metadata":{"name":"partners","namespace":"prod","labels":{"role":"partner"}},
        "spec":{"nets":["198.51.100.0/24","2001:db8::/32"]}}"#,
    ),
    (
        BGP,
        r#"{"kind":"BGPConfiguration","metadata":{"name":"default"},"spec":{"asNumber":64512,"nodeToNodeMeshEnabled":true}}"#,
    ),
    (
        BGP_PEER,
        r#"{"kind":"BGPPeer","spec":{"asNumber":64513,"peerIP":"192.0.2.1"}}"#,
    ),
    (
        FELIX,
        r#"{"kind":"FelixConfiguration","spec":{"logSeverityScreen":"Info","reportingInterval":"0s"}}"#,
    ),
    (
        CLUSTER,
        r#"{"kind":"ClusterInformation","spec":{"calicoVersion":"v3.30.0","datastoreReady":true}}"#,
    ),
    (
        V3_WORKLOAD,
        r#"{"kind":"WorkloadEndpoint","metadata":{"name":"web-eth0","namespace":"prod"},"spec":{"node":"node-1"}}"#,
    ),
];

const BROKEN: [(&str, &str, Rule); 68] = [
    (POOL, r#"{"cidr":"10.1.0.0/16","x":0.5}"#, Rule::Number),
    (READY, r#"[[{"a":1e3}]]"#, Rule::Number),
    (READY, "-0", Rule::Number),
    (READY, "1.0", Rule::Number),
    (READY, "1e2", Rule::Number),
    (READY, "18446744073709551616", Rule::Number),
    (READY, "-9223372036854775809", Rule::Number),
    (READY, "18446744073709551615", Rule::Ready),
    (READY, "-9223372036854775808", Rule::Ready),
    (READY, "1", Rule::Ready),
    (READY, "null", Rule::Ready),
    (CONFIG, "7", Rule::Config),
    (HOST_CONFIG, "null", Rule::Config),
    (HOST_IP, r#""192.168.10.01""#, Rule::Address),
    (HOST_ENDPOINT, r#""eth0""#, Rule::Shape),
    (HOST_ENDPOINT, r#"{"name":"eth0/1"}"#, Rule::Interface),
    (
        HOST_ENDPOINT,
        r#"{"expected_ipv4_addrs":["::1"]}"#,
        Rule::Addresses,
    ),
    (
        HOST_ENDPOINT,
        r#"{"expected_ipv6_addrs":["10.0.0.1"]}"#,
        Rule::Addresses,
    ),
    (HOST_ENDPOINT, r#"{"labels":{"a":1}}"#, Rule::Labels),
    (HOST_ENDPOINT, r#"{"profile_ids":[""]}"#, Rule::Profiles),
    (
        HOST_ENDPOINT,
        r#"{"ports":[{"name":"http","protocol":"tcp"}]}"#,
        Rule::Ports,
    ),
    (WORKLOAD, r#"{"state":"up","name":"cali1"}"#, Rule::State),
    (WORKLOAD, r#"{"name":"*"}"#, Rule::Interface),
    (WORKLOAD, r#"{"name":null}"#, Rule::Interface),
    (WORKLOAD, r#"{"name":"cali1","mac":"ee:ee"}"#, Rule::Mac),
    (
        WORKLOAD,
        r#"{"name":"cali1","ipv4_nets":["10.0.0.1/33"]}"#,
        Rule::Nets,
    ),
    (
        WORKLOAD,
        r#"{"name":"cali1","ipv6_nets":["10.0.0.1/32"]}"#,
        Rule::Nets,
    ),
    (POLICY, r#"{"order":"100"}"#, Rule::Order),
    (POLICY, r#"{"selector":"a ="}"#, Rule::Selector),
    (POLICY, r#"{"types":["Ingress"]}"#, Rule::Types),
    (POLICY, r#"{"inbound_rules":{}}"#, Rule::Shape),
    (LABELS, r#"{"a b":"c"}"#, Rule::Labels),
    (LABELS, r#"{"":"x"}"#, Rule::Labels),
    (LABELS, r#"{"a":"x","b":null}"#, Rule::Labels),
    (LABELS, r#"["a"]"#, Rule::Labels),
    (NETSET, r#"{"nets":"10.0.0.0/8"}"#, Rule::Nets),
    (POOL, "[]", Rule::Shape),
    (POOL, r#"{"cidr":"10.1.0.0/16"}"#, Rule::PoolCidr),
    (POOL, r#"{"cidr":"10.0.0.0/17"}"#, Rule::PoolCidr),
    (POOL, r#"{"cidr":null}"#, Rule::PoolCidr),
    (ODD_POOL, r#"{"cidr":"10.0.0.0/16"}"#, Rule::PoolCidr),
    (
        POOL,
        r#"{"cidr":"10.0.0.0/16","masquerade":"true"}"#,
        Rule::Flag,
    ),
    (TIER, "1", Rule::Shape),
    (TIER, r#"{"apiVersion":"v3"}"#, Rule::ApiVersion),
    (TIER, r#"{"kind":"Node"}"#, Rule::ResourceKind),
    (TIER, r#"{"metadata":[]}"#, Rule::Name),
    (TIER, r#"{"metadata":{}}"#, Rule::Name),
    (TIER, r#"{"metadata":{"name":"x"}}"#, Rule::Name),
    (
        TIER,
        r#"{"metadata":{"name":"security","namespace":"prod"}}"#,
        Rule::Namespace,
    ),
    (
        NETWORK_POLICY,
        r#"{"metadata":{"name":"web"}}"#,
        Rule::Namespace,
    ),
    (
        NETWORK_POLICY,
        r#"{"metadata":{"name":"web","namespace":"dev"}}"#,
        Rule::Namespace,
    ),
    (
        TIER,
        r#"{"metadata":{"name":"security","labels":[]}}"#,
        Rule::Labels,
    ),
    (TIER, r#"{"spec":[]}"#, Rule::Shape),
    (TIER, r#"{"spec":{"order":true}}"#, Rule::Order),
    (
        GLOBAL_POLICY,
        r#"{"spec":{"selector":"x"}}"#,
        Rule::Selector,
    ),
    (
        GLOBAL_POLICY,
        r#"{"spec":{"types":["ingress"]}}"#,
        Rule::Types,
    ),
    (PROFILE, r#"{"spec":{"labelsToApply":1}}"#, Rule::Labels),
    (GLOBAL_SET, r#"{"spec":{"nets":["x"]}}"#, Rule::Nets),
    (
        V3_ENDPOINT,
        r#"{"spec":{"interfaceName":""}}"#,
        Rule::Interface,
    ),
    (
        V3_ENDPOINT,
        r#"{"spec":{"expectedIPs":["10.0.0.1/32"]}}"#,
        Rule::Addresses,
    ),
    (V3_ENDPOINT, r#"{"spec":{"profiles":[1]}}"#, Rule::Profiles),
    (V3_POOL, r#"{"spec":{}}"#, Rule::Nets),
    (
        V3_POOL,
        r#"{"spec":{"cidr":"10.244.0.0/27","blockSize":26}}"#,
        Rule::BlockSize,
    ),
    (
        V3_POOL,
        r#"{"spec":{"cidr":"10.0.0.0/8","blockSize":19}}"#,
        Rule::BlockSize,
    ),
    (
        V3_POOL,
        r#"{"spec":{"cidr":"fd00::/48","blockSize":115}}"#,
        Rule::BlockSize,
    ),
    (
        V3_POOL,
        r#"{"spec":{"cidr":"10.0.0.0/8","blockSize":33}}"#,
        Rule::BlockSize,
    ),
    (
        V3_POOL,
        r#"{"spec":{"cidr":"10.0.0.0/8","natOutgoing":0}}"#,
        Rule::Flag,
    ),
    (
        RULES,
        r#"{"inbound_rules":[{"action":"allow"}],"outbound_rules":[{},7]}"#,
        Rule::Shape,
    ),
];

// One rule of a policy, as version 1 writes it.
const V1_RULES: [(&str, Rule); 15] = [
    ("[]", Rule::Shape),
    (r#"{"action":"drop"}"#, Rule::Action),
    (r#"{"ip_version":5,"protocol":0}"#, Rule::IpVersion),
    (r#"{"protocol":0,"src_net":"x"}"#, Rule::Protocol),
    (r#"{"not_protocol":"Tcp"}"#, Rule::Protocol),
    (r#"{"src_net":["10.0.0.0/8"]}"#, Rule::Nets),
    (r#"{"dst_nets":"10.0.0.0/8"}"#, Rule::Nets),
    (r#"{"dst_selector":"!"}"#, Rule::Selector),
    (r#"{"not_src_selector":1}"#, Rule::Selector),
    (r#"{"src_ports":[80]}"#, Rule::RulePorts),
    (
        r#"{"protocol":"icmp","not_dst_ports":["http"]}"#,
        Rule::RulePorts,
    ),
    (r#"{"protocol":6,"dst_ports":[65536]}"#, Rule::RulePorts),
    (r#"{"protocol":6,"dst_ports":["90:80"]}"#, Rule::RulePorts),
    (r#"{"icmp_type":255}"#, Rule::Icmp),
    (r#"{"icmp_code":256}"#, Rule::Icmp),
];

// The same of version 3.
const V3_RULES: [(&str, Rule); 18] = [
    ("null", Rule::Shape),
    (r#"{"action":"Allow","source":[]}"#, Rule::Shape),
    (r#"{"action":"Allow","icmp":1}"#, Rule::Shape),
    ("{}", Rule::Action),
    (r#"{"action":""}"#, Rule::Action),
    (r#"{"action":null}"#, Rule::Action),
    (r#"{"action":"Allow","ipVersion":"4"}"#, Rule::IpVersion),
    (r#"{"action":"Allow","protocol":256}"#, Rule::Protocol),
    (
        r#"{"action":"Allow","source":{"nets":["10.0.0.0"]}}"#,
        Rule::Nets,
    ),
    (
        r#"{"action":"Allow","destination":{"notNets":[1]}}"#,
        Rule::Nets,
    ),
    (
        r#"{"action":"Allow","source":{"selector":"("}}"#,
        Rule::Selector,
    ),
    (
        r#"{"action":"Allow","destination":{"namespaceSelector":"x"}}"#,
        Rule::Selector,
    ),
    (
        r#"{"action":"Allow","destination":{"ports":[80]}}"#,
        Rule::RulePorts,
    ),
    (
        r#"{"action":"Allow","protocol":"UDPLite","source":{"notPorts":[80]}}"#,
        Rule::RulePorts,
    ),
    (
        r#"{"action":"Allow","protocol":"UDP","source":{"notPorts":80}}"#,
        Rule::RulePorts,
    ),
    (
        r#"{"action":"Allow","protocol":"UDP","source":{"ports":[80,"1:"]}}"#,
        Rule::RulePorts,
    ),
    (r#"{"action":"Allow","icmp":{"type":255}}"#, Rule::Icmp),
    (r#"{"action":"Allow","icmp":{"code":-1}}"#, Rule::Icmp),
];

#[test]
fn values_are_judged_by_the_rules_of_their_keys(rt: HostRuntime) -> Result<(), Fail> {
    for (key, value) in &VALID {
        assert_eq!(rt; broken(&rt, rt.alloc(), key, value), None, "{value}");
    }
    for (key, value, rule) in &BROKEN {
        assert_eq!(rt; broken(&rt, rt.alloc(), key, value), Some(*rule), "{value}");
    }
    Ok(())
}

#[test]
fn rules_of_policies_are_judged_member_by_member(rt: HostRuntime) -> Result<(), Fail> {
    for (text, rule) in &V1_RULES {
        let value = format!(in rt.alloc(); r#"{{"outbound_rules":[{{}},{text}]}}"#)?;
        for key in [RULES, POLICY] {
            assert_eq!(rt;
                broken(&rt, rt.alloc(), key, value.as_str()),
                Some(*rule),
                "{text}"
            );
        }
    }
    for (text, rule) in &V3_RULES {
        let value = format!(in rt.alloc(); r#"{{"spec":{{"ingress":[{text}]}}}}"#)?;
        for key in [PROFILE, NETWORK_POLICY] {
            assert_eq!(rt;
                broken(&rt, rt.alloc(), key, value.as_str()),
                Some(*rule),
                "{text}"
            );
        }
    }
    Ok(())
}

fn letters(alloc: Global, count: usize) -> Result<String, Fail> {
    let mut text = String::new(alloc);
    for _ in 0..count {
        text.push('a')?;
    }
    Ok(text)
}

#[test]
fn a_value_has_at_most_1048576_bytes_as_compact_text(rt: HostRuntime) -> Result<(), Fail> {
    let most = format!(in rt.alloc(); r#"  "{}""#, letters(rt.alloc(), 1_048_574)?)?;
    assert_eq!(rt; broken(&rt, rt.alloc(), CONFIG, most.as_str()), None);
    let more = format!(in rt.alloc(); r#""{}""#, letters(rt.alloc(), 1_048_575)?)?;
    assert_eq!(rt;
        broken(&rt, rt.alloc(), CONFIG, more.as_str()),
        Some(Rule::Size)
    );
    Ok(())
}
