// Scripts with their reports.
use crate::scripts::worlds::Word;
use crate::scripts::worlds::Word::{Cut, Get, Hear, Join, Line, Step, Tick};

pub(crate) struct Row {
    pub script: &'static [Word],
    pub report: &'static str,
}

const READY: Word = Line(r#"{"key":"/calico/v1/Ready","value":true}"#);

const IN_SYNC: Word = Line(r#"{"status":"in-sync"}"#);

const A: Word = Line(r#"{"key":"/calico/v1/config/a","value":"1"}"#);

const B: Word = Line(r#"{"key":"/calico/v1/config/b","value":"1"}"#);

const C: Word = Line(r#"{"key":"/calico/v1/config/c","value":"1"}"#);

const NO_A: Word = Line(r#"{"key":"/calico/v1/config/a","value":null}"#);

const BLANK: Word = Line("");

pub(crate) const ROWS: [Row; 8] = [
    // two clients
    Row {
        script: &[
            Join(1),
            Hear(1),
            READY,
            BLANK,
            A,
            BLANK,
            Join(2),
            Hear(2),
            IN_SYNC,
            Step(1),
            Step(1),
            Step(1),
            Step(2),
            Get(1, 100000),
            Get(2, 100000),
        ],
        report: r#"client 1 open
client 1 heard 1
client 1 joined 0
crumb 1 wait-for-ready 1
crumb 2 wait-for-ready 2
client 2 open
client 2 heard 1
client 2 joined 2
crumb 3 in-sync 2
client 1 step 1
client 1 step 2
client 1 step 3
client 2 step 3
client 1 at 0 wait-for-ready 0
client 1 at 1 wait-for-ready 1
{"key":"/calico/v1/Ready","value":"true"}
client 1 at 2 wait-for-ready 2
{"key":"/calico/v1/Ready","value":"true"}
{"key":"/calico/v1/config/a","value":"\"1\""}
client 1 at 3 in-sync 2
{"key":"/calico/v1/Ready","value":"true"}
{"key":"/calico/v1/config/a","value":"\"1\""}
client 2 at 2 wait-for-ready 2
{"key":"/calico/v1/Ready","value":"true"}
{"key":"/calico/v1/config/a","value":"\"1\""}
client 2 at 3 in-sync 2
{"key":"/calico/v1/Ready","value":"true"}
{"key":"/calico/v1/config/a","value":"\"1\""}
end 3
"#,
    },
    // a client returns
    Row {
        script: &[
            A,
            IN_SYNC,
            Join(1),
            Hear(1),
            Get(1, 100000),
            NO_A,
            BLANK,
            Step(1),
            Get(1, 2),
            Cut(1),
            Join(1),
            Hear(1),
            Get(1, 36),
            Get(1, 100000),
        ],
        report: r#"crumb 1 in-sync 1
client 1 open
client 1 heard 1
client 1 joined 1
client 1 at 1 in-sync 1
{"key":"/calico/v1/config/a","value":"\"1\""}
crumb 2 in-sync 0
client 1 step 2
client 1 still 1 in-sync 1
{"key":"/calico/v1/config/a","value":"\"1\""}
client 1 cut
client 1 open
client 1 heard 1
client 1 joined 2
client 1 still 1 in-sync 1
{"key":"/calico/v1/config/a","value":"\"1\""}
client 1 at 2 in-sync 0
end 2
"#,
    },
    // answers
    Row {
        script: &[
            Join(1),
            Step(1),
            Hear(1),
            Step(1),
            A,
            BLANK,
            Step(1),
            Step(1),
            Step(3),
            Join(1),
        ],
        report: r#"client 1 open
client 1 waiting
client 1 heard 1
client 1 joined 0
client 1 pending 0
crumb 1 wait-for-ready 1
client 1 step 1
client 1 pending 1
client 3 absent
client 1 present
end 1
"#,
    },
    // groups
    Row {
        script: &[
            Join(1),
            Hear(1),
            A,
            BLANK,
            B,
            BLANK,
            C,
            BLANK,
            Tick(100),
            Step(1),
            Step(1),
            Step(1),
            Step(1),
            Get(1, 100000),
        ],
        report: r#"client 1 open
client 1 heard 1
client 1 joined 0
crumb 1 wait-for-ready 1
crumb 2 wait-for-ready 2
crumb 3 wait-for-ready 3
client 1 step 1
client 1 step 2
client 1 step 3
client 1 pending 3
client 1 at 0 wait-for-ready 0
client 1 at 3 wait-for-ready 3
{"key":"/calico/v1/config/a","value":"\"1\""}
{"key":"/calico/v1/config/b","value":"\"1\""}
{"key":"/calico/v1/config/c","value":"\"1\""}
end 3
"#,
    },
    // slow at the limit
    Row {
        script: &[
            Join(1),
            Hear(1),
            A,
            BLANK,
            Tick(50000),
            Get(1, 100000),
            Hear(1),
            Tick(50000),
            Get(1, 100000),
            Hear(1),
            Tick(50000),
            Get(1, 100000),
            Hear(1),
            Tick(50000),
            Get(1, 100000),
            Hear(1),
            Tick(50000),
            Get(1, 100000),
            Hear(1),
            Tick(50000),
            Get(1, 100000),
            Hear(1),
            Step(1),
        ],
        report: r#"client 1 open
client 1 heard 1
client 1 joined 0
crumb 1 wait-for-ready 1
client 1 at 0 wait-for-ready 0
client 1 heard 1
client 1 still 0 wait-for-ready 0
client 1 heard 1
client 1 still 0 wait-for-ready 0
client 1 heard 1
client 1 still 0 wait-for-ready 0
client 1 heard 1
client 1 still 0 wait-for-ready 0
client 1 heard 1
client 1 still 0 wait-for-ready 0
client 1 heard 1
client 1 step 1
end 1
"#,
    },
    // too slow
    Row {
        script: &[
            Join(1),
            Hear(1),
            A,
            BLANK,
            Tick(50000),
            Get(1, 100000),
            Hear(1),
            Tick(50000),
            Get(1, 100000),
            Hear(1),
            Tick(50000),
            Get(1, 100000),
            Hear(1),
            Tick(50000),
            Get(1, 100000),
            Hear(1),
            Tick(50000),
            Get(1, 100000),
            Hear(1),
            Tick(50000),
            Get(1, 100000),
            Hear(1),
            Tick(1),
            Step(1),
        ],
        report: r#"client 1 open
client 1 heard 1
client 1 joined 0
crumb 1 wait-for-ready 1
client 1 at 0 wait-for-ready 0
client 1 heard 1
client 1 still 0 wait-for-ready 0
client 1 heard 1
client 1 still 0 wait-for-ready 0
client 1 heard 1
client 1 still 0 wait-for-ready 0
client 1 heard 1
client 1 still 0 wait-for-ready 0
client 1 heard 1
client 1 still 0 wait-for-ready 0
client 1 heard 1
client 1 dropped too-slow 0 300001
end 1
"#,
    },
    // no hello
    Row {
        script: &[Join(1), Tick(10000), Tick(1)],
        report: r#"client 1 open
client 1 dropped no-hello 0 10001
end 0
"#,
    },
    // no pong
    Row {
        script: &[Join(1), Hear(1), Tick(60000), Tick(1)],
        report: r#"client 1 open
client 1 heard 1
client 1 joined 0
client 1 dropped no-pong 0 60001
end 0
"#,
    },
];
