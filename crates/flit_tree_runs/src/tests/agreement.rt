use flit_model::{Call, Entry, Reply};
use flit_recover::Recovered;
use std::alloc::Global;
use std::collections::BTreeMap;
use std::process::Abort;
use std::test::Fail;

/// The map that one worker has once it has made these calls; each has the reply that the map gives.
fn map_after(
    rt: &impl Abort,
    alloc: Global,
    history: &[Entry],
) -> Result<BTreeMap<u32, u32>, Fail> {
    let mut map = BTreeMap::new(alloc);
    for entry in history {
        let reply = match entry.call {
            Call::Insert(key, value) => {
                if map.contains_key(&key) {
                    Reply::No
                } else {
                    map.insert(key, value)?;
                    Reply::Yes
                }
            }
            Call::Remove(key) => match map.remove(&key) {
                Some(_) => Reply::Yes,
                None => Reply::No,
            },
            Call::Contains(key) => {
                if map.contains_key(&key) {
                    Reply::Yes
                } else {
                    Reply::No
                }
            }
            Call::Get(key) => match map.get(&key) {
                Some(value) => Reply::Found { value: *value },
                None => Reply::No,
            },
        };
        assert_eq!(rt; reply, entry.reply);
    }
    Ok(map)
}

/// These calls leave the map that was found.
pub fn leads_to(
    rt: &impl Abort,
    alloc: Global,
    history: &[Entry],
    found: &Recovered,
) -> Result<(), Fail> {
    let map = map_after(rt, alloc, history)?;
    assert_eq!(rt; map.len(), found.keys.len());
    assert_eq!(rt; found.values.len(), found.keys.len());
    for (key, value) in found.keys.iter().zip(&found.values) {
        assert_eq!(rt; map.get(key), Some(value));
    }
    Ok(())
}
