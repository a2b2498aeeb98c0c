// Worked batches, and what want of memory would hide.
use crate::batches::is_batch;
use std::alloc::Global;
use std::test::Fail;
use ty_base::{
    Deltas, INPUT_BYTES, Item, Kind, NoMemory, Text, print_u64, read_status, status_text,
};
use ty_crumb::{Crumb, Made, next_crumb, snapshot};
use ty_map::fresh_nodes;

// An item as a word: `a=1` puts, `a-` removes, a status is its text, and any other word is a blank line.
fn item(alloc: Global, word: &str) -> Result<Item, NoMemory> {
    if let Some((key, value)) = word.split_once('=') {
        return Ok(Item::Put {
            key: Text::of(alloc, key)?,
            value: Text::of(alloc, value)?,
        });
    }
    if let Some(status) = read_status(word.as_bytes()) {
        return Ok(Item::State(status));
    }
    match word.split_once('-') {
        Some((key, _)) => Ok(Item::Del {
            key: Text::of(alloc, key)?,
        }),
        None => Ok(Item::Mark),
    }
}

fn items(alloc: Global, script: &str) -> Result<Vec<Item>, NoMemory> {
    let mut items = Vec::new(alloc);
    for word in script.split_whitespace() {
        items.push(item(alloc, word)?)?;
    }
    Ok(items)
}

// The next breadcrumb, where the script is a batch.
fn next(alloc: Global, last: &Crumb, script: &str, cut: u64) -> Result<Option<Made>, NoMemory> {
    let items = items(alloc, script)?;
    if !is_batch(&items) || cut < last.cut || last.number >= INPUT_BYTES as u64 {
        return Ok(None);
    }
    Ok(Some(next_crumb(alloc, last, &items, cut, 7)?))
}

fn tell_number(number: u64, out: &mut Vec<u8>) -> Result<(), NoMemory> {
    print_u64(number, out)?;
    out.extend_from_slice(b" ")?;
    Ok(())
}

// The deltas as a text: `+a=1 `, `*a=2 `, `-a `.
fn tell_deltas(deltas: &Deltas, out: &mut Vec<u8>) -> Result<(), NoMemory> {
    for delta in deltas.as_slice() {
        out.push(match delta.kind {
            Kind::New => b'+',
            Kind::Updated => b'*',
            Kind::Deleted => b'-',
        })?;
        out.extend_from_slice(delta.key.bytes())?;
        if let Some(value) = &delta.value {
            out.push(b'=')?;
            out.extend_from_slice(value.bytes())?;
        }
        out.push(b' ')?;
    }
    Ok(())
}

// The breadcrumb as a text: its number, cut, time and status, its deltas, and after a `|` its snapshot.
fn tell(alloc: Global, crumb: &Crumb, out: &mut Vec<u8>) -> Result<(), NoMemory> {
    tell_number(crumb.number, out)?;
    tell_number(crumb.cut, out)?;
    tell_number(crumb.at, out)?;
    out.extend_from_slice(status_text(crumb.status).as_bytes())?;
    out.push(b' ')?;
    tell_deltas(&crumb.deltas, out)?;
    out.push(b'|')?;
    out.push(b' ')?;
    tell_deltas(&snapshot(alloc, crumb)?, out)
}

struct Step {
    script: &'static str,
    cut: u64,
    told: &'static str,
}

const STEPS: [Step; 9] = [
    Step {
        script: "b=1 a=1 b=2 .",
        cut: 4,
        told: "1 4 7 wait-for-ready +b=2 +a=1 | +a=1 +b=2 ",
    },
    Step {
        script: "a=1 .",
        cut: 6,
        told: "=",
    },
    Step {
        script: "c=1 in-sync",
        cut: 8,
        told: "2 8 7 in-sync +c=1 | +a=1 +b=2 +c=1 ",
    },
    Step {
        script: "in-sync",
        cut: 9,
        told: "=",
    },
    Step {
        script: "d=1 d- x- .",
        cut: 13,
        told: "=",
    },
    Step {
        script: "resync",
        cut: 14,
        told: "3 14 7 resync | +a=1 +b=2 +c=1 ",
    },
    Step {
        script: "c=2 a- b=9 b=2 c=3",
        cut: 19,
        told: "4 19 7 resync *c=3 -a | +b=2 +c=3 ",
    },
    Step {
        script: ".",
        cut: 20,
        told: "=",
    },
    Step {
        script: "c- b- in-sync",
        cut: 23,
        told: "5 23 7 in-sync -c -b | ",
    },
];

#[test]
fn batches_make_their_breadcrumbs(rt: HostRuntime) -> Result<(), Fail> {
    let alloc = rt.alloc();
    let mut crumb = Crumb::first(alloc, 3);
    let mut out = Vec::new(alloc);
    tell(alloc, &crumb, &mut out)?;
    assert!(rt; out.as_slice() == b"0 0 3 wait-for-ready | ".as_slice());
    for step in &STEPS {
        out.clear();
        match next(alloc, &crumb, step.script, step.cut)? {
            None => out.extend_from_slice(b"no batch")?,
            Some(Made::Unchanged) => out.extend_from_slice(b"=")?,
            Some(Made::Crumb(made)) => {
                tell(alloc, &made, &mut out)?;
                crumb = made;
            }
        }
        assert!(rt; out.as_slice() == step.told.as_bytes(), "{}", step.script);
    }
    Ok(())
}

#[test]
fn an_old_breadcrumb_stays_as_it_was(rt: HostRuntime) -> Result<(), Fail> {
    let alloc = rt.alloc();
    let first = Crumb::first(alloc, 0);
    let mut out = Vec::new(alloc);
    if let Some(Made::Crumb(one)) = next(alloc, &first, "a=1 b=1 .", 3)? {
        if let Some(Made::Crumb(two)) = next(alloc, &one, "a- b=2 .", 6)? {
            tell(alloc, &one, &mut out)?;
            out.push(b'\n')?;
            tell(alloc, &two, &mut out)?;
        }
    }
    let one = "1 3 7 wait-for-ready +a=1 +b=1 | +a=1 +b=1 \n";
    let two = "2 6 7 wait-for-ready -a *b=2 | +b=2 ";
    assert!(rt; out.starts_with(one.as_bytes()));
    assert!(rt; out.ends_with(two.as_bytes()));
    assert_eq!(rt; out.len(), one.len() + two.len());
    Ok(())
}

// A batch that puts a hundred keys behind so many others: `k0001=1 k0002=1 ` and so on.
fn hundred(alloc: Global, others: u32) -> Result<String, NoMemory> {
    let mut script = String::new(alloc);
    for i in 1..101u32 {
        let n = others.saturating_add(i);
        let word = format!(in alloc; "k{n:04}=1 ")?;
        script.push_str(word.as_str())?;
    }
    Ok(script)
}

#[test]
fn a_batch_makes_few_nodes(rt: HostRuntime) -> Result<(), Fail> {
    let alloc = rt.alloc();
    let mut crumb = Crumb::first(alloc, 0);
    for i in 0..10u32 {
        let script = hundred(alloc, i.saturating_mul(100))?;
        let cut = crumb.cut.saturating_add(100);
        if let Some(Made::Crumb(made)) = next(alloc, &crumb, script.as_str(), cut)? {
            crumb = made;
        }
    }
    assert_eq!(rt; crumb.pairs.len(), 1000);
    assert!(rt; crumb.pairs.height() <= 19);
    let cut = crumb.cut.saturating_add(1);
    if let Some(Made::Crumb(made)) = next(alloc, &crumb, "k1001=1", cut)? {
        assert_eq!(rt; made.pairs.len(), 1001);
        assert!(rt; fresh_nodes(&crumb.pairs, &made.pairs) <= 60);
        crumb = made;
    }
    assert_eq!(rt; crumb.number, 11);
    Ok(())
}
