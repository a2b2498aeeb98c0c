// A realistic feed, whole and cut off.
use crate::runs::{Devices, GOOD, came, framed, joined, run, streams};
use std::test::Fail;

// The lines of the feed. Its breadcrumbs are published by lines 1, 10, 13 and 17.
pub(crate) const LINES: [&str; 17] = [
    "{\"status\":\"resync\"}\n",
    "{\"key\":\"/calico/v1/Ready\",\"value\":true,\"revision\":\"71\"}\n",
    "{\"key\":\"/calico/v1/config/LogSeverityScreen\",\"value\":\"Info\"}\n",
    "{\"key\":\"/calico/v1/host/node-1/bird_ip\",\"value\":\"192.168.10.1\"}\n",
    "{\"key\":\"/calico/v1/host/node-2/bird_ip\",\"value\":\"192.168.10.2\"}\n",
    "{\"key\":\"/calico/v1/host/node-1/workload/k8s/default%2fweb-1/endpoint/eth0\",\"value\":{\"state\":\"active\",\"name\":\"cali0a1b2c3d4e5\",\"mac\":\"ee:ee:ee:ee:ee:ee\",\"ipv4_nets\":[\"10.244.1.5/32\"],\"labels\":{\"app\":\"web\"},\"profile_ids\":[\"kns.default\"]}}\n",
    "{\"key\":\"/calico/v1/policy/tier/default/policy/allow-web\",\"value\":{\"order\":100,\"selector\":\"app == 'web'\",\"types\":[\"ingress\",\"egress\"],\"inbound_rules\":[{\"action\":\"allow\",\"protocol\":\"tcp\",\"src_selector\":\"role == 'client'\",\"dst_ports\":[80,\"8000:8080\"]}],\"outbound_rules\":[{\"action\":\"allow\"}]}}\n",
    "{\"key\":\"/calico/v1/policy/profile/kns.default/labels\",\"value\":{\"pcns.name\":\"default\"}}\n",
    "{\"key\":\"/calico/v1/ipam/v4/pool/10.244.0.0-16\",\"value\":{\"cidr\":\"10.244.0.0/16\",\"masquerade\":true}}\n",
    "{\"status\":\"in-sync\"}\n",
    "{\"key\":\"/calico/v1/host/node-1/workload/k8s/default%2fweb-1/endpoint/eth0\",\"value\":null,\"revision\":\"88\"}\n",
    "{\"key\":\"/calico/v1/host/node-2/workload/k8s/default%2fweb-1/endpoint/eth0\",\"value\":{\"state\":\"active\",\"name\":\"cali0a1b2c3d4e5\",\"mac\":\"ee:ee:ee:ee:ee:ee\",\"ipv4_nets\":[\"10.244.2.7/32\"],\"labels\":{\"app\":\"web\"},\"profile_ids\":[\"kns.default\"]}}\n",
    "\n",
    "{\"key\":\"/calico/v1/Ready\",\"value\":true,\"revision\":\"90\"}\n",
    "\n",
    "{\"key\":\"/calico/v1/host/node-2/workload/k8s/default%2fweb-1/endpoint/eth0\",\"value\":{\"state\":\"active\",\"name\":\"cali0a1b2c3d4e5\",\"mac\":\"ee:ee:ee:ee:ee:ee\",\"ipv4_nets\":[\"10.244.2.7/33\"],\"labels\":{\"app\":\"web\"},\"profile_ids\":[\"kns.default\"]}}\n",
    "\n",
];

// The bodies of its frames. The breadcrumbs from 0 to 4 end with the 3rd, 5th, 8th, 10th and 12th.
pub(crate) const BODIES: [&str; 12] = [
    "{\"m\":\"server_hello\",\"version\":1}",
    "{\"m\":\"status\",\"status\":\"wait-for-ready\"}",
    "{\"m\":\"crumb\",\"n\":0}",
    "{\"m\":\"status\",\"status\":\"resync\"}",
    "{\"m\":\"crumb\",\"n\":1}",
    "{\"kvs\":[{\"key\":\"/calico/v1/Ready\",\"type\":\"new\",\"value\":\"true\"},{\"key\":\"/calico/v1/config/LogSeverityScreen\",\"type\":\"new\",\"value\":\"\\\"Info\\\"\"},{\"key\":\"/calico/v1/host/node-1/bird_ip\",\"type\":\"new\",\"value\":\"\\\"192.168.10.1\\\"\"},{\"key\":\"/calico/v1/host/node-2/bird_ip\",\"type\":\"new\",\"value\":\"\\\"192.168.10.2\\\"\"},{\"key\":\"/calico/v1/host/node-1/workload/k8s/default%2fweb-1/endpoint/eth0\",\"type\":\"new\",\"value\":\"{\\\"ipv4_nets\\\":[\\\"10.244.1.5/32\\\"],\\\"labels\\\":{\\\"app\\\":\\\"web\\\"},\\\"mac\\\":\\\"ee:ee:ee:ee:ee:ee\\\",\\\"name\\\":\\\"cali0a1b2c3d4e5\\\",\\\"profile_ids\\\":[\\\"kns.default\\\"],\\\"state\\\":\\\"active\\\"}\"},{\"key\":\"/calico/v1/policy/tier/default/policy/allow-web\",\"type\":\"new\",\"value\":\"{\\\"inbound_rules\\\":[{\\\"action\\\":\\\"allow\\\",\\\"dst_ports\\\":[80,\\\"8000:8080\\\"],\\\"protocol\\\":\\\"tcp\\\",\\\"src_selector\\\":\\\"role == 'client'\\\"}],\\\"order\\\":100,\\\"outbound_rules\\\":[{\\\"action\\\":\\\"allow\\\"}],\\\"selector\\\":\\\"app == 'web'\\\",\\\"types\\\":[\\\"ingress\\\",\\\"egress\\\"]}\"},{\"key\":\"/calico/v1/policy/profile/kns.default/labels\",\"type\":\"new\",\"value\":\"{\\\"pcns.name\\\":\\\"default\\\"}\"},{\"key\":\"/calico/v1/ipam/v4/pool/10.244.0.0-16\",\"type\":\"new\",\"value\":\"{\\\"cidr\\\":\\\"10.244.0.0/16\\\",\\\"masquerade\\\":true}\"}],\"m\":\"kvs\"}",
    "{\"m\":\"status\",\"status\":\"in-sync\"}",
    "{\"m\":\"crumb\",\"n\":2}",
    "{\"kvs\":[{\"key\":\"/calico/v1/host/node-1/workload/k8s/default%2fweb-1/endpoint/eth0\",\"type\":\"deleted\"},{\"key\":\"/calico/v1/host/node-2/workload/k8s/default%2fweb-1/endpoint/eth0\",\"type\":\"new\",\"value\":\"{\\\"ipv4_nets\\\":[\\\"10.244.2.7/32\\\"],\\\"labels\\\":{\\\"app\\\":\\\"web\\\"},\\\"mac\\\":\\\"ee:ee:ee:ee:ee:ee\\\",\\\"name\\\":\\\"cali0a1b2c3d4e5\\\",\\\"profile_ids\\\":[\\\"kns.default\\\"],\\\"state\\\":\\\"active\\\"}\"}],\"m\":\"kvs\"}",
    "{\"m\":\"crumb\",\"n\":3}",
    "{\"kvs\":[{\"key\":\"/calico/v1/host/node-2/workload/k8s/default%2fweb-1/endpoint/eth0\",\"type\":\"deleted\"}],\"m\":\"kvs\"}",
    "{\"m\":\"crumb\",\"n\":4}",
];

// How many lines publish a breadcrumb, and how many frames there are by then.
const PUBLISHED: [(usize, usize); 5] = [(0, 3), (1, 5), (10, 8), (13, 10), (17, 12)];

#[test]
fn the_realistic_feed_has_its_frames(rt: HostRuntime) -> Result<(), Fail> {
    assert!(rt; streams(rt.alloc(), &["stream"], &LINES, 0, &BODIES, "")?);
    Ok(())
}

// How many frames stand in the bytes that were read before a fault.
fn frames_by(bytes: usize) -> usize {
    let mut frames = 0;
    for (lines, count) in PUBLISHED {
        if length_of(lines) <= bytes {
            frames = count;
        }
    }
    frames
}

// How many bytes the first lines have.
fn length_of(lines: usize) -> usize {
    let mut bytes: usize = 0;
    for line in LINES.iter().take(lines) {
        bytes = bytes.saturating_add(line.len());
    }
    bytes
}

#[test]
fn a_source_that_fails_leaves_the_breadcrumbs_before(rt: HostRuntime) -> Result<(), Fail> {
    let alloc = rt.alloc();
    let feed = joined(alloc, &LINES)?;
    for pieces in 0..27usize {
        let devices = Devices {
            piece: 64,
            read_fails: pieces as u64 + 1,
            ..GOOD
        };
        let ran = run(alloc, &["stream"], &feed, devices)?;
        let frames = frames_by(64 * pieces).min(12);
        let wanted = framed(alloc, BODIES.split_at(frames).0)?;
        assert!(rt; came(&ran, 3, &wanted, "typha: read fault\n"));
    }
    Ok(())
}
