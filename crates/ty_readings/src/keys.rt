use std::alloc::Global;
use std::test::Fail;
use ty_keys::{Key, KeyFault, kind_of};

fn fault(alloc: Global, text: &[u8]) -> Option<KeyFault> {
    match Key::read(alloc, text) {
        Ok(_) => None,
        Err(fault) => Some(fault),
    }
}

fn printed(alloc: Global, text: &[u8]) -> Result<Vec<u8>, Fail> {
    let key = Key::read(alloc, text).ok().ok_or("no key")?;
    let mut out = Vec::new(alloc);
    key.print(alloc, &mut out).ok().ok_or("no memory")?;
    Ok(out)
}

#[test]
fn each_form_there_and_back(rt: HostRuntime) -> Result<(), Fail> {
    for text in [
        "/calico/v1/Ready",
        "/calico/v1/config/a",
        "/calico/v1/host/h/config/n",
        "/calico/v1/host/a%2fb/bird_ip",
        "/calico/v1/host/h/endpoint/100%25",
        "/calico/v1/host/n1/workload/k8s/p1/endpoint/eth0",
        "/calico/v1/policy/tier/t/policy/p",
        "/calico/v1/policy/profile/p/rules",
        "/calico/v1/policy/profile/p/labels",
        "/calico/v1/netset/n",
        "/calico/v1/ipam/v4/pool/10.0.0.0-32",
        "/calico/v1/ipam/v6/pool/fe80::-128",
        "/calico/resources/v3/projectcalico.org/ippools/p",
        "/calico/resources/v3/projectcalico.org/networksets/ns/n",
    ] {
        let out = printed(rt.alloc(), text.as_bytes())?;
        assert!(rt; out.as_slice() == text.as_bytes());
    }
    Ok(())
}

#[test]
fn an_escape_is_read(rt: HostRuntime) -> Result<(), Fail> {
    match Key::read(rt.alloc(), b"/calico/v1/host/a%2fb/bird_ip") {
        Ok(Key::HostIp { host }) => assert!(rt; host.bytes() == b"a/b".as_slice()),
        _ => return Err(Fail::from("another key")),
    }
    Ok(())
}

#[test]
fn faults_stand_in_their_places(rt: HostRuntime) {
    for (text, wanted) in [
        ("/calico/v2/x", KeyFault::NoForm),
        ("", KeyFault::NoForm),
        ("calico/v1/Ready", KeyFault::NoForm),
        ("/calico/v1/Ready/", KeyFault::NoForm),
        ("/calico/v1/configs/a", KeyFault::NoForm),
        ("/calico/v1/host//config", KeyFault::NoForm),
        ("/calico/v1/ipam/v4/pool/10.0.0.0-33", KeyFault::NoForm),
        ("/calico/v1/ipam/v4/pool/10.0.0.0-08", KeyFault::NoForm),
        ("/calico/v1/ipam/v6/pool/::-129", KeyFault::NoForm),
        (
            "/calico/resources/v3/projectcalico.org/pods/a/b",
            KeyFault::NoForm,
        ),
        (
            "/calico/v1/host/a%2Fb/bird_ip",
            KeyFault::BadEscape { at: 17 },
        ),
        ("/calico/v1/host//bird_ip", KeyFault::EmptyPart { at: 16 }),
        ("/calico/v1/config/", KeyFault::EmptyPart { at: 18 }),
        ("/calico/v1/config/a%", KeyFault::BadEscape { at: 19 }),
        (
            "/calico/v1/host/ /workload//%/endpoint/ ",
            KeyFault::BadByte { at: 16 },
        ),
        (
            "/calico/v1/host/h/workload//%/endpoint/ ",
            KeyFault::EmptyPart { at: 27 },
        ),
        (
            "/calico/v1/host/h/workload/o/%/endpoint/ ",
            KeyFault::BadEscape { at: 29 },
        ),
        (
            "/calico/v1/host/h/workload/o/w/endpoint/ ",
            KeyFault::BadByte { at: 40 },
        ),
    ] {
        assert_eq!(rt; fault(rt.alloc(), text.as_bytes()), Some(wanted));
    }
}

#[test]
fn the_longest_text_is_read(rt: HostRuntime) -> Result<(), Fail> {
    let mut text = Vec::from_slice(rt.alloc(), b"/calico/v1/config/")?;
    for _ in 0..1006 {
        text.push(b'a')?;
    }
    assert_eq!(rt; fault(rt.alloc(), &text), None);
    text.push(b'a')?;
    assert_eq!(rt; fault(rt.alloc(), &text), Some(KeyFault::TooLong));
    Ok(())
}

#[test]
fn each_plural_names_its_kind(rt: HostRuntime) -> Result<(), Fail> {
    for (plural, kind, namespaced) in [
        ("nodes", "Node", false),
        ("ippools", "IPPool", false),
        ("globalnetworkpolicies", "GlobalNetworkPolicy", false),
        ("globalnetworksets", "GlobalNetworkSet", false),
        ("hostendpoints", "HostEndpoint", false),
        ("profiles", "Profile", false),
        ("tiers", "Tier", false),
        ("bgpconfigurations", "BGPConfiguration", false),
        ("bgppeers", "BGPPeer", false),
        ("felixconfigurations", "FelixConfiguration", false),
        ("clusterinformations", "ClusterInformation", false),
        ("networkpolicies", "NetworkPolicy", true),
        ("networksets", "NetworkSet", true),
        ("workloadendpoints", "WorkloadEndpoint", true),
    ] {
        let found = kind_of(plural.as_bytes()).ok_or("no kind")?;
        assert!(rt; found.kind == kind);
        assert!(rt; found.namespaced == namespaced);
        let mut text = Vec::from_slice(rt.alloc(), b"/calico/resources/v3/projectcalico.org/")?;
        text.extend_from_slice(plural.as_bytes())?;
        text.extend_from_slice(b"/a")?;
        assert!(rt; fault(rt.alloc(), &text).is_none() != namespaced);
        text.extend_from_slice(b"/b")?;
        assert!(rt; fault(rt.alloc(), &text).is_none() == namespaced);
    }
    Ok(())
}
