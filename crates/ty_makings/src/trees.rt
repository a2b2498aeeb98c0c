// What no clause says: that calls succeed where there is memory, and what they cost then.
use std::alloc::Global;
use std::test::Fail;
use ty_base::Text;
use ty_map::{Pairs, fresh_nodes};

fn text(alloc: Global, n: u32) -> Result<Text, Fail> {
    Ok(Text::from_string(format!(in alloc; "k{n}")?))
}

// The pairs as a text, `k1=k1 `.
fn told(alloc: Global, map: &Pairs) -> Result<String, Fail> {
    let mut out = String::new(alloc);
    for (key, value) in map.walk(alloc)? {
        out.push_str(key.as_str())?;
        out.push_str("=")?;
        out.push_str(value.as_str())?;
        out.push_str(" ")?;
    }
    Ok(out)
}

// A map with so many keys more, each its own value.
fn filled(alloc: Global, map: Pairs, count: u32) -> Result<Pairs, Fail> {
    let mut map = map;
    for n in 0..count {
        let key = text(alloc, n)?;
        map = map.put(alloc, &key, &key)?;
    }
    Ok(map)
}

// The map with another value at every third key, and without the ones behind these.
fn thinned(alloc: Global, map: Pairs, count: u32) -> Result<Pairs, Fail> {
    let mut map = map;
    for n in 0..count {
        let key = text(alloc, n)?;
        (map, _) = map.put_in(alloc, &key, &text(alloc, n / 3)?)?;
        if n % 3 == 1 {
            (map, _) = map.remove_in(alloc, &key)?;
        }
    }
    Ok(map)
}

#[test]
fn a_map_that_is_given_up_leaves_its_copies_alone(rt: HostRuntime) -> Result<(), Fail> {
    let alloc = rt.alloc();
    let old = filled(alloc, Pairs::empty(), 4)?;
    let new = thinned(alloc, old.copy()?, 4)?;
    let (before, after) = (told(alloc, &old)?, told(alloc, &new)?);
    assert_eq!(rt; before.as_str(), "k0=k0 k1=k1 k2=k2 k3=k3 ");
    assert_eq!(rt; after.as_str(), "k0=k0 k2=k0 k3=k1 ");
    Ok(())
}

#[test]
fn few_nodes_are_new_in_a_map_of_a_thousand(rt: HostRuntime) -> Result<(), Fail> {
    let alloc = rt.alloc();
    let map = filled(alloc, Pairs::empty(), 1000)?;
    let new = map.remove(alloc, &text(alloc, 7)?)?;
    assert!(rt; map.height() <= 14);
    assert_eq!(rt; new.len(), 999);
    assert!(rt; fresh_nodes(&map, &new) <= 45);
    Ok(())
}
