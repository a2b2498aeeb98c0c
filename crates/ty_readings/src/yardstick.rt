use std::alloc::Global;
use std::test::Fail;
use ty_base::{Deltas, Entry, Item, Kind, Status, Text, print_u64, status_text};
use ty_plain::{book, changes, closings, cuts};

// An item, in words.
#[derive(Clone, Copy)]
enum Word {
    Put(&'static str, &'static str),
    Del(&'static str),
    InSync,
    Mark,
}

fn item(alloc: Global, word: Word) -> Result<Item, Fail> {
    Ok(match word {
        Word::Put(key, value) => Item::Put {
            key: Text::of(alloc, key)?,
            value: Text::of(alloc, value)?,
        },
        Word::Del(key) => Item::Del {
            key: Text::of(alloc, key)?,
        },
        Word::InSync => Item::State(Status::InSync),
        Word::Mark => Item::Mark,
    })
}

fn items(alloc: Global, words: &[Word]) -> Result<Vec<Item>, Fail> {
    let mut items = Vec::new(alloc);
    for word in words {
        items.push(item(alloc, *word)?)?;
    }
    Ok(items)
}

fn kind_text(kind: Kind) -> &'static str {
    match kind {
        Kind::New => " new ",
        Kind::Updated => " updated ",
        Kind::Deleted => " deleted ",
    }
}

fn tell_deltas(deltas: &Deltas, out: &mut Vec<u8>) -> Result<(), Fail> {
    for delta in deltas.as_slice() {
        out.extend_from_slice(kind_text(delta.kind).as_bytes())?;
        out.extend_from_slice(delta.key.bytes())?;
        if let Some(value) = &delta.value {
            out.push(b'=')?;
            out.extend_from_slice(value.bytes())?;
        }
    }
    Ok(())
}

// A book as text, an entry a line.
fn told(alloc: Global, book: &[Entry]) -> Result<Vec<u8>, Fail> {
    let mut out = Vec::new(alloc);
    for entry in book {
        print_u64(entry.cut, &mut out)?;
        out.push(b' ')?;
        out.extend_from_slice(status_text(entry.status).as_bytes())?;
        tell_deltas(&entry.deltas, &mut out)?;
        out.push(b'\n')?;
    }
    Ok(out)
}

struct Case {
    words: &'static [Word],
    ended: bool,
    told: &'static str,
}

const CASES: [Case; 7] = [
    Case {
        words: &[],
        ended: true,
        told: "",
    },
    Case {
        words: &[Word::Put("r", "true"), Word::InSync],
        ended: false,
        told: "2 in-sync new r=true\n",
    },
    Case {
        words: &[
            Word::Put("r", "true"),
            Word::Mark,
            Word::Put("r", "true"),
            Word::Mark,
        ],
        ended: true,
        told: "2 wait-for-ready new r=true\n",
    },
    Case {
        words: &[
            Word::Put("a", "1"),
            Word::Put("b", "1"),
            Word::Put("a", "2"),
        ],
        ended: true,
        told: "3 wait-for-ready new a=2 new b=1\n",
    },
    Case {
        words: &[
            Word::Put("a", "1"),
            Word::Put("b", "1"),
            Word::Put("a", "2"),
        ],
        ended: false,
        told: "",
    },
    Case {
        words: &[
            Word::Put("a", "1"),
            Word::Del("a"),
            Word::Mark,
            Word::Put("b", "1"),
            Word::Mark,
        ],
        ended: true,
        told: "5 wait-for-ready new b=1\n",
    },
    Case {
        words: &[
            Word::Put("a", "1"),
            Word::Mark,
            Word::Put("b", "1"),
            Word::Put("a", "2"),
            Word::Mark,
            Word::Del("a"),
            Word::InSync,
        ],
        ended: true,
        told: "2 wait-for-ready new a=1\n5 wait-for-ready new b=1 updated a=2\n7 in-sync deleted a\n",
    },
];

#[test]
fn items_have_their_book(rt: HostRuntime) -> Result<(), Fail> {
    for case in &CASES {
        let items = items(rt.alloc(), case.words)?;
        let book = book(rt.alloc(), &items, case.ended)?;
        let told = told(rt.alloc(), &book)?;
        assert!(rt; told.as_slice() == case.told.as_bytes(), "{}", case.told);
    }
    Ok(())
}

// So many updates of different keys.
fn updates(alloc: Global, count: u64) -> Result<Vec<Item>, Fail> {
    let mut items = Vec::new(alloc);
    for k in 0..count {
        items.push(Item::Put {
            key: Text::from_string(format!(in alloc; "k{k}")?),
            value: Text::of(alloc, "1")?,
        })?;
    }
    Ok(items)
}

#[test]
fn the_101st_update_is_in_a_batch_of_its_own(rt: HostRuntime) -> Result<(), Fail> {
    let alloc = rt.alloc();
    let items = updates(alloc, 101)?;
    assert!(rt; closings(alloc, &items, true)?.as_slice() == [100, 101].as_slice());
    assert!(rt; cuts(alloc, &items, false)?.as_slice() == [100].as_slice());
    let book = book(alloc, &items, true)?;
    assert!(rt; book.len() == 2);
    assert!(rt; book[0].deltas.len() == 100 && book[1].deltas.len() == 1);
    assert!(rt; changes(alloc, &[], &items, &items)?.len() == 101);
    Ok(())
}
