// Each kind of test and of rule once, over JSON texts.
use serde_json::Value;
use std::process::Abort;
use std::test::Fail;
use ty_rules::{
    Action, ActionOrEmpty, ArrayOf, Check, FilledArray, IfGiven, InterfaceOrAll, IpVersion, IsBool,
    IsObject, IsText, ListOf, Mac, NamedPorts, Optional, Profiles, Protocol, Required, Row, Rule,
    Test, TextOf, This, ValueFault, WhereAlso, Whole, WholeWithin, has_float,
};

// A rule for each member, in the order of the alphabet; members of `z` are flags.
fn broken(rt: &impl Abort, alloc: std::alloc::Global, text: &str) -> Option<Rule> {
    let value = Value::from_str(alloc, text).expect(rt, "a JSON text");
    let rules = ty_rules::table![
        Row(Rule::Shape, IsObject),
        Row(Rule::Action, Optional("a", TextOf(Action))),
        Row(Rule::Size, Optional("b", WholeWithin(3, 5))),
        Row(Rule::Config, Optional("c", IsText)),
        Row(Rule::Icmp, Optional("d", TextOf(ActionOrEmpty))),
        Row(Rule::Interface, Optional("i", TextOf(InterfaceOrAll))),
        Row(Rule::Mac, Optional("m", TextOf(Mac))),
        Row(Rule::Name, Required("n", TextOf(This("x")))),
        Row(Rule::Order, Optional("o", Whole)),
        Row(Rule::Profiles, Optional("p", Profiles)),
        Row(Rule::Ports, Optional("q", NamedPorts)),
        Row(
            Rule::Types,
            WhereAlso(
                Required("r", FilledArray),
                ty_rules::any_of![
                    Required("s", IsBool),
                    ty_rules::all_of![Required("t", Protocol), Required("v", IpVersion)],
                ],
            ),
        ),
        IfGiven(
            "z",
            ListOf(Rule::Nets, ty_rules::table![Row(Rule::Flag, IsBool)])
        ),
    ];
    match rules.check(alloc, &value) {
        Ok(()) => None,
        Err(ValueFault::Broken { rule }) => Some(rule),
        Err(ValueFault::NoMemory) => Some(Rule::Number),
    }
}

const BROKEN: [(&str, Rule); 36] = [
    ("[]", Rule::Shape),
    ("null", Rule::Shape),
    (r#"{"a":"drop"}"#, Rule::Action),
    (r#"{"a":""}"#, Rule::Action),
    (r#"{"a":"allow","b":2}"#, Rule::Size),
    (r#"{"b":6,"c":1}"#, Rule::Size),
    (r#"{"b":"4"}"#, Rule::Size),
    (r#"{"b":-4}"#, Rule::Size),
    (r#"{"c":["x"]}"#, Rule::Config),
    (r#"{"d":"ALLOW"}"#, Rule::Icmp),
    (r#"{"i":""}"#, Rule::Interface),
    (r#"{"i":"eth0/1"}"#, Rule::Interface),
    (r#"{"i":"sixteen-letters_"}"#, Rule::Interface),
    (r#"{"i":"**"}"#, Rule::Interface),
    (r#"{"m":"ee:ee:ee:ee:ee"}"#, Rule::Mac),
    (r#"{"m":"ee:ee:ee:ee:ee:e"}"#, Rule::Mac),
    (r#"{"m":"ee-ee-ee-ee-ee-ee"}"#, Rule::Mac),
    (r#"{"m":"eg:ee:ee:ee:ee:ee"}"#, Rule::Mac),
    ("{}", Rule::Name),
    (r#"{"n":null}"#, Rule::Name),
    (r#"{"n":"xx"}"#, Rule::Name),
    (r#"{"n":"x","o":"1"}"#, Rule::Order),
    (r#"{"n":"x","o":1.0}"#, Rule::Order),
    (r#"{"n":"x","p":["a",""]}"#, Rule::Profiles),
    (r#"{"n":"x","p":"a"}"#, Rule::Profiles),
    (
        r#"{"n":"x","q":[{"name":"80","protocol":"tcp","port":80}]}"#,
        Rule::Ports,
    ),
    (
        r#"{"n":"x","q":[{"name":"http","protocol":"icmp","port":80}]}"#,
        Rule::Ports,
    ),
    (
        r#"{"n":"x","q":[{"name":"http","protocol":6,"port":0}]}"#,
        Rule::Ports,
    ),
    (
        r#"{"n":"x","q":[{"name":"http","protocol":6}]}"#,
        Rule::Ports,
    ),
    (r#"{"n":"x","r":[0]}"#, Rule::Types),
    (r#"{"n":"x","r":[0],"s":0}"#, Rule::Types),
    (r#"{"n":"x","r":[0],"t":"tcp"}"#, Rule::Types),
    (r#"{"n":"x","r":[0],"t":256,"v":4}"#, Rule::Types),
    (r#"{"n":"x","r":[0],"t":255,"v":5}"#, Rule::Types),
    (r#"{"n":"x","z":{}}"#, Rule::Nets),
    (r#"{"n":"x","z":[true,null,0]}"#, Rule::Flag),
];

const KEPT: [&str; 10] = [
    r#"{"n":"x"}"#,
    r#"{"a":null,"b":null,"m":null,"n":"x","o":null,"z":null,"y":[{}]}"#,
    r#"{"a":"next-tier","b":3,"c":"","d":"","i":"*","n":"x"}"#,
    r#"{"a":"Pass","b":5,"d":"log","i":"cali0a1b2c3d4e5","n":"x"}"#,
    r#"{"m":"Ee:01:9a:BC:dF:00","n":"x","o":-9}"#,
    r#"{"n":"x","o":18446744073709551615,"p":["kns.default"],"q":[]}"#,
    r#"{"n":"x","q":[{"name":"http","protocol":"SCTP","port":65535},{"name":"1.a_","protocol":132,"port":1}]}"#,
    r#"{"n":"x","r":[],"s":0}"#,
    r#"{"n":"x","r":[0],"s":false}"#,
    r#"{"n":"x","r":[0],"t":"UDPLite","v":6,"z":[true,false]}"#,
];

#[test]
fn the_first_broken_rule_is_told(rt: HostRuntime) -> Result<(), Fail> {
    for (text, rule) in &BROKEN {
        assert_eq!(rt; broken(&rt, rt.alloc(), text), Some(*rule), "{text}");
    }
    for text in &KEPT {
        assert_eq!(rt; broken(&rt, rt.alloc(), text), None, "{text}");
    }
    Ok(())
}

#[test]
fn floats_are_found_wherever_they_stand(rt: HostRuntime) -> Result<(), Fail> {
    for (text, found) in [
        (r#"{"a":[1,{"b":-1}],"c":18446744073709551615}"#, false),
        (r#"{"a":[1,{"b":-1.5}]}"#, true),
        (r#"[[[1e2]]]"#, true),
        ("18446744073709551616", true),
        (r#""1.5""#, false),
    ] {
        let value = Value::from_str(rt.alloc(), text)?;
        assert_eq!(rt; has_float(&value), found, "{text}");
    }
    let numbers = Value::from_str(rt.alloc(), "[1,2]")?;
    assert!(rt; ArrayOf(Whole).accepts(&numbers));
    Ok(())
}
