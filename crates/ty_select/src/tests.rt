// Texts that are read, what they print, and the faults of others.
use crate::{SelectFault, Selector, Wanted};
use std::alloc::Global;
use std::test::Fail;

// Whether a text reads as a selector that prints so.
fn prints(alloc: Global, text: &[u8], wanted: &str) -> Result<bool, Fail> {
    let Ok(selector) = Selector::read(alloc, text) else {
        return Ok(false);
    };
    let mut out = Vec::new(alloc);
    selector.print(alloc, &mut out)?;
    Ok(out.as_slice() == wanted.as_bytes())
}

// Whether a text has this fault.
fn has_fault(alloc: Global, text: &[u8], wanted: SelectFault) -> bool {
    match Selector::read(alloc, text) {
        Ok(_selector) => false,
        Err(fault) => fault == wanted,
    }
}

// One text so many times, and then another, and a third so many times.
fn nested(alloc: Global, count: u32, open: &str, held: &str, close: &str) -> Result<Vec<u8>, Fail> {
    let mut text = Vec::new(alloc);
    for _ in 0..count {
        text.extend_from_slice(open.as_bytes())?;
    }
    text.extend_from_slice(held.as_bytes())?;
    for _ in 0..count {
        text.extend_from_slice(close.as_bytes())?;
    }
    Ok(text)
}

#[test]
fn texts_are_read_and_printed(rt: HostRuntime) -> Result<(), Fail> {
    let rows = [
        (
            "a == 'x' && b != \"y\" || has(c)",
            "((a == 'x' && b != 'y') || has(c))",
        ),
        ("", "all()"),
        (" \t", "all()"),
        ("all( )\t", "all()"),
        ("global()", "global()"),
        ("all == 'x'", "all == 'x'"),
        ("has\t!=\"it's\"", "has != \"it's\""),
        ("a in{'v','w'}", "a in {'v', 'w'}"),
        ("not not in { }", "not not in {}"),
        ("a contains 'say \"x\"'", "a contains 'say \"x\"'"),
        ("a.b/c-d_E9 starts  with 'é'", "a.b/c-d_E9 starts with 'é'"),
        ("a ends with ''", "a ends with ''"),
        ("!a == 'x' && !!has(b)", "(!a == 'x' && !!has(b))"),
        ("((has(a) && (has(b))))", "(has(a) && has(b))"),
        ("has(a)||has(b)||has(c)", "(has(a) || has(b) || has(c))"),
    ];
    for (text, wanted) in rows {
        assert!(rt; prints(rt.alloc(), text.as_bytes(), wanted)?, "{text}");
    }
    Ok(())
}

#[test]
fn each_fault_is_told_with_its_place(rt: HostRuntime) -> Result<(), Fail> {
    let rows = [
        ("a = 'x'", 2, Wanted::Operator),
        ("foo(", 3, Wanted::Operator),
        ("has(", 4, Wanted::Label),
        ("a == 'x", 5, Wanted::Quoted),
        ("a starts with b", 14, Wanted::Quoted),
        ("a in {'x',}", 10, Wanted::Quoted),
        ("a == 'x' &&", 11, Wanted::Term),
        ("é == 'x'", 0, Wanted::Term),
        ("()", 1, Wanted::Term),
        ("has(a", 5, Wanted::Close),
        ("all(x)", 4, Wanted::Close),
        ("(has(a) has(b))", 8, Wanted::Close),
        ("a not b", 6, Wanted::In),
        ("a starts b", 9, Wanted::With),
        ("a ends 'b'", 7, Wanted::With),
        ("a in 'x'", 5, Wanted::Brace),
        ("a in {x}", 6, Wanted::QuotedOrBrace),
        ("a in {'x' 'y'}", 10, Wanted::CommaOrBrace),
        ("has(a) | has(b)", 7, Wanted::Joint),
        ("has(a))", 6, Wanted::Joint),
    ];
    for (text, at, wanted) in rows {
        let fault = SelectFault::Bad { at, wanted };
        assert!(rt; has_fault(rt.alloc(), text.as_bytes(), fault), "{text}");
    }
    let not_text = SelectFault::Bad {
        at: 5,
        wanted: Wanted::Quoted,
    };
    assert!(rt; has_fault(rt.alloc(), b"a == '\xff'".as_slice(), not_text));
    Ok(())
}

#[test]
fn words_have_512_bytes_at_most(rt: HostRuntime) -> Result<(), Fail> {
    let longest = nested(rt.alloc(), 256, "w", "", "w")?;
    let too_long = nested(rt.alloc(), 256, "w", "w", "w")?;
    let at_the_end = SelectFault::Bad {
        at: 512,
        wanted: Wanted::Operator,
    };
    let at_once = SelectFault::Bad {
        at: 0,
        wanted: Wanted::Term,
    };
    assert!(rt; has_fault(rt.alloc(), &longest, at_the_end));
    assert!(rt; has_fault(rt.alloc(), &too_long, at_once));
    Ok(())
}

#[test]
fn sixty_four_may_be_open(rt: HostRuntime) -> Result<(), Fail> {
    let too_deep = SelectFault::TooDeep { at: 64 };
    let grouped = nested(rt.alloc(), 64, "(", "all()", ")")?;
    assert!(rt; prints(rt.alloc(), &grouped, "all()")?);
    let negated = nested(rt.alloc(), 64, "!", "all()", "")?;
    let Ok(selector) = Selector::read(rt.alloc(), &negated) else {
        return Err(Fail::from("64 are not read"));
    };
    assert_eq!(rt; selector.depth(), 64);
    let group_more = nested(rt.alloc(), 65, "(", "all()", ")")?;
    assert!(rt; has_fault(rt.alloc(), &group_more, too_deep));
    let negation_more = nested(rt.alloc(), 65, "!", "all()", "")?;
    assert!(rt; has_fault(rt.alloc(), &negation_more, too_deep));
    Ok(())
}

#[test]
fn operands_are_read_without_recursion(rt: HostRuntime) -> Result<(), Fail> {
    let text = nested(rt.alloc(), 100_000, "has(a) && ", "all()", "")?;
    let Ok(selector) = Selector::read(rt.alloc(), &text) else {
        return Err(Fail::from("100000 marks are not read"));
    };
    assert_eq!(rt; selector.depth(), 1);
    Ok(())
}
