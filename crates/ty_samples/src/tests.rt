// What no clause says: that each of these calls is answered where there is memory, and how.
use crate::served::{greeted, looked, queued, stepped};
use crate::values::{copied, cut, drained, listed, mapped, numbered, printed, wanted_of};
use std::alloc::Global;
use std::sync::Wait;
use std::test::Fail;
use ty_base::NoMemory;

// What is called.
#[derive(Clone, Copy)]
enum Call {
    // A text is made, its bytes are read, and the text that was read is copied.
    Text,
    // A number is printed behind nothing.
    Number,
    // A delta is put into a list without any.
    Push,
    // A key with a part that is escaped is printed.
    Key,
    // A key's new value takes its place in a buffer, which is drained.
    Drain,
    // A key that isn't there is removed from a map, which is copied and walked.
    Map,
    // The snapshot of breadcrumb 0 is cut into messages.
    Cut,
    // A share of a new account is looked at.
    Look,
    // A copy of the first spot makes a step in a new account.
    Step,
    // A client queues its hello.
    Hello,
    // A server greets a client, lets it join, and takes a turn.
    Serve,
    // Words ask for a server.
    Words,
}

const CALLS: [(Call, &[u8]); 12] = [
    (Call::Text, b"a"),
    (Call::Number, b"10"),
    (Call::Push, b"1"),
    (Call::Key, b"/calico/v1/host/a%2fb/bird_ip"),
    (Call::Drain, b"a=\"2\" b=\"1\" no status"),
    (Call::Map, b"a=a b=b and copied a=a b=b "),
    (Call::Cut, b"0 deltas in 0 messages"),
    (Call::Look, b"0 entries, open"),
    (Call::Step, b"Empty"),
    (
        Call::Hello,
        b"\x00\x00\x00,{\"host\":\"n1\",\"m\":\"client_hello\",\"version\":1}",
    ),
    (Call::Serve, b"Ready Idle"),
    (Call::Words, b"Listen at x with 8"),
];

// What a call comes to.
fn told<R: Wait>(rt: &R, alloc: Global, call: Call) -> Result<Vec<u8>, NoMemory> {
    match call {
        Call::Text => copied(alloc),
        Call::Number => numbered(alloc),
        Call::Push => listed(alloc),
        Call::Key => printed(alloc),
        Call::Drain => drained(alloc),
        Call::Map => mapped(alloc),
        Call::Cut => cut(alloc),
        Call::Look => looked(alloc),
        Call::Step => stepped(alloc),
        Call::Hello => queued(alloc),
        Call::Serve => greeted(rt, alloc),
        Call::Words => wanted_of(alloc),
    }
}

#[test]
fn each_call_is_answered_where_there_is_memory(rt: HostRuntime) -> Result<(), Fail> {
    for (call, wanted) in CALLS {
        let answer = told(&rt, rt.alloc(), call)?;
        assert!(rt; answer.as_slice() == wanted);
    }
    Ok(())
}
