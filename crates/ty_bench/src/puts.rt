// Many puts into a map.
use std::alloc::Global;
use std::collections::BTreeMap;
use ty_base::{NoMemory, Text};
use ty_map::Pairs;

/// So many keys.
pub(crate) fn all_keys(alloc: Global, count: u64) -> Result<Vec<Text>, NoMemory> {
    let mut all = Vec::new(alloc);
    for i in 0..count {
        all.push(Text::from_string(format!(in alloc; "/calico/v1/config/k{i}")?))?;
    }
    Ok(all)
}

// The key of a put, all over the list.
fn key_of(all: &[Text], put: u64) -> Option<&Text> {
    let at = put.wrapping_mul(7919) % (all.len() as u64).max(1);
    all.get(at as usize)
}

/// The number of pairs after so many puts into the held map, of which an old one is kept for each `batch` puts, or none
/// where that is 0.
pub(crate) fn into_pairs(
    alloc: Global,
    count: u64,
    keys: &[Text],
    batch: u64,
) -> Result<usize, NoMemory> {
    let value = Text::of(alloc, "\"value\"")?;
    let mut pairs = Pairs::empty();
    let mut old = Pairs::empty();
    for put in 0..count {
        if batch > 0 && put % batch == 0 {
            old = pairs.copy()?;
        }
        if let Some(key) = key_of(keys, put) {
            (pairs, _) = pairs.put_in(alloc, key, &value)?;
        }
    }
    Ok(pairs.len().max(old.len()))
}

/// The number of pairs after so many puts into std's map.
pub(crate) fn into_btree(alloc: Global, count: u64, keys: &[Text]) -> Result<usize, NoMemory> {
    let mut map = BTreeMap::new(alloc);
    for put in 0..count {
        if let Some(key) = key_of(keys, put) {
            let key = String::from_str(alloc, key.as_str())?;
            let value = String::from_str(alloc, "\"value\"")?;
            map.insert(key, value)?;
        }
    }
    Ok(map.len())
}
