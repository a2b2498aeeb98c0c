// Answers from outside: the examples of RFC 4291 and what Python's `ipaddress` says of the other texts.
use ty_net::{Cidr, Ip, NetFault, PortRange, read_cidr, read_ip, read_ports};

// Every form of an address, with its fewest and its most groups. Those in capitals are RFC 4291's own.
const ADDRESSES: [(&str, Ip); 26] = [
    ("0.0.0.0", Ip::V4(0)),
    ("255.255.255.255", Ip::V4(0xffff_ffff)),
    ("1.2.3.4", Ip::V4(0x0102_0304)),
    ("192.168.10.1", Ip::V4(0xc0a8_0a01)),
    (
        "ABCD:EF01:2345:6789:ABCD:EF01:2345:6789",
        Ip::V6(0xabcd_ef01_2345_6789_abcd_ef01_2345_6789),
    ),
    (
        "2001:DB8:0:0:8:800:200C:417A",
        Ip::V6(0x2001_0db8_0000_0000_0008_0800_200c_417a),
    ),
    (
        "2001:DB8::8:800:200C:417A",
        Ip::V6(0x2001_0db8_0000_0000_0008_0800_200c_417a),
    ),
    (
        "FF01:0:0:0:0:0:0:101",
        Ip::V6(0xff01_0000_0000_0000_0000_0000_0000_0101),
    ),
    (
        "FF01::101",
        Ip::V6(0xff01_0000_0000_0000_0000_0000_0000_0101),
    ),
    ("0:0:0:0:0:0:0:1", Ip::V6(1)),
    ("::1", Ip::V6(1)),
    ("0:0:0:0:0:0:0:0", Ip::V6(0)),
    ("::", Ip::V6(0)),
    ("0:0:0:0:0:0:13.1.68.3", Ip::V6(0x0d01_4403)),
    ("::13.1.68.3", Ip::V6(0x0d01_4403)),
    ("0:0:0:0:0:FFFF:129.144.52.38", Ip::V6(0xffff_8190_3426)),
    ("::FFFF:129.144.52.38", Ip::V6(0xffff_8190_3426)),
    ("::1.2.3.4", Ip::V6(16_909_060)),
    ("1::", Ip::V6(0x0001_0000_0000_0000_0000_0000_0000_0000)),
    (
        "1:2:3:4:5:6:7::",
        Ip::V6(0x0001_0002_0003_0004_0005_0006_0007_0000),
    ),
    (
        "::2:3:4:5:6:7:8",
        Ip::V6(0x0002_0003_0004_0005_0006_0007_0008),
    ),
    (
        "1:2:3::5:6:7:8",
        Ip::V6(0x0001_0002_0003_0000_0005_0006_0007_0008),
    ),
    (
        "1:2:3:4:5::1.2.3.4",
        Ip::V6(0x0001_0002_0003_0004_0005_0000_0102_0304),
    ),
    (
        "1::3:4:5:6:1.2.3.4",
        Ip::V6(0x0001_0000_0003_0004_0005_0006_0102_0304),
    ),
    (
        "ffff:ffff:ffff:ffff:ffff:ffff:255.255.255.255",
        Ip::V6(u128::MAX),
    ),
    (
        "0001:00aB::0",
        Ip::V6(0x0001_00ab_0000_0000_0000_0000_0000_0000),
    ),
];

const NO_ADDRESSES: [&str; 32] = [
    "",
    ".",
    ":",
    ":::",
    "1.2.3",
    "1.2.3.4.5",
    "1.2.3.04",
    "00.0.0.0",
    "1.2.3.256",
    "1..2.3",
    "1.2.3.4.",
    "1.2.3.-4",
    " 1.2.3.4",
    "1:2:3:4:5:6:7",
    "1:2:3:4:5:6:7:8:9",
    "1:2:3:4:5:6:7:8::",
    "::1:2:3:4:5:6:7:8",
    "1:2:3:4::5:6:7:8",
    "1::2::3",
    "1:::2",
    ":1:2:3:4:5:6:7",
    "1:2:3:4:5:6:7:",
    "12345::",
    "g::",
    "fe80::1%1",
    "[::1]",
    "1.2.3.4::",
    "::1.2.3.4:5",
    "::1.2.3.04",
    "::1.2.3",
    "1:2:3:4:5:6::1.2.3.4",
    "1:2:3:4:5:6:7:1.2.3.4",
];

#[test]
fn addresses_are_read_as_outside_tools_read_them(rt: HostRuntime) {
    for (text, ip) in ADDRESSES {
        assert_eq!(rt; read_ip(text.as_bytes()), Ok(ip), "at {text}");
    }
    for text in NO_ADDRESSES {
        assert_eq!(rt; read_ip(text.as_bytes()), Err(NetFault::BadIp), "at {text}");
    }
}

// The networks with 60 bits are the examples of RFC 4291 section 2.3. The last of them is one that it warns of:
// it doesn't write the network of the three before.
const NETWORKS: [(&str, Ip, u8); 8] = [
    ("10.0.0.0/8", Ip::V4(0x0a00_0000), 8),
    ("10.244.1.5/32", Ip::V4(0x0af4_0105), 32),
    ("10.1.2.3/0", Ip::V4(0x0a01_0203), 0),
    (
        "2001:0DB8:0000:CD30:0000:0000:0000:0000/60",
        Ip::V6(0x2001_0db8_0000_cd30_0000_0000_0000_0000),
        60,
    ),
    (
        "2001:0DB8::CD30:0:0:0:0/60",
        Ip::V6(0x2001_0db8_0000_cd30_0000_0000_0000_0000),
        60,
    ),
    (
        "2001:0DB8:0:CD30::/60",
        Ip::V6(0x2001_0db8_0000_cd30_0000_0000_0000_0000),
        60,
    ),
    (
        "2001:0DB8::CD30/60",
        Ip::V6(0x2001_0db8_0000_0000_0000_0000_0000_cd30),
        60,
    ),
    ("::/128", Ip::V6(0), 128),
];

const NO_NETWORKS: [(&str, NetFault); 10] = [
    ("::/129", NetFault::BadLength),
    ("10.0.0.0/33", NetFault::BadLength),
    ("10.0.0.0/08", NetFault::BadLength),
    ("10.0.0.0/8/8", NetFault::BadLength),
    ("10.0.0.0/", NetFault::BadLength),
    ("10.0.0.0", NetFault::BadLength),
    ("10.0.0/33", NetFault::BadIp),
    ("2001:0DB8:0:CD3/60", NetFault::BadIp),
    ("/8", NetFault::BadIp),
    ("", NetFault::BadIp),
];

#[test]
fn networks_are_an_address_and_a_length(rt: HostRuntime) {
    for (text, ip, len) in NETWORKS {
        assert_eq!(rt;
            read_cidr(text.as_bytes()),
            Ok(Cidr { ip, len }),
            "at {text}"
        );
    }
    for (text, fault) in NO_NETWORKS {
        assert_eq!(rt; read_cidr(text.as_bytes()), Err(fault), "at {text}");
    }
}

const PORTS: [(&str, u16, u16); 5] = [
    ("0", 0, 0),
    ("80", 80, 80),
    ("8000:8080", 8000, 8080),
    ("0:65535", 0, 65_535),
    ("90:90", 90, 90),
];

const NO_PORTS: [(&str, NetFault); 9] = [
    ("90:80", NetFault::Reversed { low: 90, high: 80 }),
    ("65536", NetFault::BadPort),
    ("90:65536", NetFault::BadPort),
    ("080", NetFault::BadPort),
    ("80:", NetFault::BadPort),
    (":80", NetFault::BadPort),
    ("80:90:100", NetFault::BadPort),
    ("http", NetFault::BadPort),
    ("", NetFault::BadPort),
];

#[test]
fn ports_are_one_or_two_in_order(rt: HostRuntime) {
    for (text, low, high) in PORTS {
        assert_eq!(rt;
            read_ports(text.as_bytes()),
            Ok(PortRange { low, high }),
            "at {text}"
        );
    }
    for (text, fault) in NO_PORTS {
        assert_eq!(rt; read_ports(text.as_bytes()), Err(fault), "at {text}");
    }
}
