// Worked rows, and what want of memory would hide.
use std::alloc::Global;
use std::test::Fail;
use ty_base::{Item, NoMemory, Status, Text, read_status};
use ty_dedupe::{Buffer, Drained};

// An item as a word: `a=1` puts, `a-` removes, a status is its text, and any other word is a blank line.
fn item(alloc: Global, word: &str) -> Result<Item, NoMemory> {
    if let Some((key, value)) = word.split_once('=') {
        return Ok(Item::Put {
            key: Text::of(alloc, key)?,
            value: Text::of(alloc, value)?,
        });
    }
    if let Some(status) = read_status(word.as_bytes()) {
        return Ok(Item::State(status));
    }
    match word.split_once('-') {
        Some((key, _)) => Ok(Item::Del {
            key: Text::of(alloc, key)?,
        }),
        None => Ok(Item::Mark),
    }
}

// What a buffer gives after the items of a script.
fn drained(alloc: Global, buffer: &mut Buffer, script: &str) -> Result<Drained, NoMemory> {
    for word in script.split_whitespace() {
        buffer.put(alloc, &item(alloc, word)?)?;
    }
    buffer.drain(alloc)
}

// The pairs as a text, `a=1 b- `.
fn told(alloc: Global, drained: &Drained) -> Result<String, NoMemory> {
    let mut out = String::new(alloc);
    for (key, value) in drained.pairs.as_slice() {
        out.push_str(key.as_str())?;
        match value {
            Some(value) => {
                out.push_str("=")?;
                out.push_str(value.as_str())?;
            }
            None => out.push_str("-")?,
        }
        out.push_str(" ")?;
    }
    Ok(out)
}

#[test]
fn keeps_the_last_item_about_each_key_at_its_first_place(rt: HostRuntime) -> Result<(), Fail> {
    let alloc = rt.alloc();
    let mut buffer = Buffer::new(alloc);
    for (script, pairs, status) in [
        ("a=1 b=1 a=2", "a=2 b=1 ", None),
        (
            "resync a=1 . b- a- b=3 in-sync .",
            "a- b=3 ",
            Some(Status::InSync),
        ),
        ("", "", None),
    ] {
        let got = drained(alloc, &mut buffer, script)?;
        assert_eq!(rt; told(alloc, &got)?.as_str(), pairs);
        assert_eq!(rt; got.status, status);
        assert_eq!(rt; got.pairs.is_empty(), script.is_empty());
        assert_eq!(rt; got.pairs.into_vec().is_empty(), script.is_empty());
    }
    Ok(())
}
