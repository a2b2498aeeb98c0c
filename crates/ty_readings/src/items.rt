// The items of lines.
use serde_json::Value;
use std::alloc::Global;
use std::process::Abort;
use std::test::Fail;
use ty_base::{Item, Status, Text};
use ty_values::{Cleaned, Line, Rule, clean};

const CONFIG: &str = "/calico/v1/config/LogSeverityScreen";

const WORKLOAD: &str = "/calico/v1/host/n1/workload/k8s/p1/endpoint/eth0";

// The line's item as a text: the key, `=` and the value of a put, and the key alone of a deletion.
fn cleaned(
    rt: &impl Abort,
    alloc: Global,
    key: &str,
    value: Option<&str>,
) -> (String, Option<Rule>) {
    let key = Text::of(alloc, key).expect(rt, "memory");
    let value = value.map(|text| Value::from_str(alloc, text).expect(rt, "a JSON text"));
    let Cleaned { item, broken } = clean(alloc, &Line::Update { key, value }).expect(rt, "memory");
    let text = match &item {
        Some(Item::Put { key, value }) => {
            format!(in alloc; "{}={}", key.as_str(), value.as_str())
        }
        Some(Item::Del { key }) => format!(in alloc; "{}", key.as_str()),
        Some(Item::State(_) | Item::Mark) => format!(in alloc; "state or mark"),
        None => format!(in alloc; "none"),
    };
    (text.expect(rt, "memory"), broken)
}

const CLEANED: [(&str, Option<&str>, &str, Option<Rule>); 7] = [
    (
        WORKLOAD,
        Some(
            r#"{ "name": "cali1", "ipv4_nets": ["10.0.0.1/32"], "b": {"d": 1, "c": -2, "C": "\u00e9\/"} }"#,
        ),
        r#"/calico/v1/host/n1/workload/k8s/p1/endpoint/eth0={"b":{"C":"é/","c":-2,"d":1},"ipv4_nets":["10.0.0.1/32"],"name":"cali1"}"#,
        None,
    ),
    (
        WORKLOAD,
        Some(r#"{"name":"cali1","ipv4_nets":["10.0.0.1/33"]}"#),
        WORKLOAD,
        Some(Rule::Nets),
    ),
    (
        "/calico/v1/Ready",
        Some("true"),
        "/calico/v1/Ready=true",
        None,
    ),
    (CONFIG, Some("null"), CONFIG, None),
    (CONFIG, None, CONFIG, None),
    ("/calico/v2/x", Some("0.5"), "none", None),
    ("/calico/v1/config/", None, "none", None),
];

#[test]
fn each_line_gives_its_item(rt: HostRuntime) -> Result<(), Fail> {
    for (key, value, item, rule) in &CLEANED {
        let (text, broken) = cleaned(&rt, rt.alloc(), key, *value);
        assert_eq!(rt; text.as_str(), *item);
        assert_eq!(rt; broken, *rule);
    }
    let status = clean(rt.alloc(), &Line::Status(Status::InSync)).expect(&rt, "memory");
    assert!(rt; matches!(status.item, Some(Item::State(Status::InSync))));
    let blank = clean(rt.alloc(), &Line::Blank).expect(&rt, "memory");
    assert!(rt; matches!(blank.item, Some(Item::Mark)));
    Ok(())
}
