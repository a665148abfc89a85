ghost use Rattle.std.specs.Prelude.{◌≡◌, IfOk, OnOk, Some, None, if◌then◌else◌};
ghost use Rattle.std.specs.List.{position_from};
ghost use Rattle.indexmap.specs.IndexMap.{get};
ghost use Rattle.std.specs.Option.{option_or};

use fixed_words::NoMemory;
use indexmap::IndexMap;
use std::alloc::Global;
use std::hash::Hash;

/// Adds a key with its place, if it is not there already.
fn note<K: Eq + Hash + Copy + Drop>(
    table: &mut IndexMap<K, usize>,
    key: K,
    place: usize,
) -> Result<(), NoMemory>
    ensures { OnOk result ((asked : K) → get K.eq table.new asked ≡ option_or (get K.eq table.old asked) (if K.eq asked key then Some place else None)) }
{
    if table.get(&key).is_some() {
        return Ok(());
    }
    table.insert(key, place)?;
    Ok(())
}

/// For each key the place of the first key that is equal to it.
pub(crate) fn numbered<K: Eq + Hash + Copy + Drop>(
    alloc: Global,
    keys: &[K],
) -> Result<IndexMap<K, usize>, NoMemory>
    ensures { IfOk result (λ table. (key : K) → get K.eq table key ≡ position_from (K.eq key) 0 keys.now) }
{
    let mut table = IndexMap::with_capacity(alloc, keys.len())?;
    for (place, key) in keys.iter().enumerate() {
        note(&mut table, *key, place)?;
    }
    Ok(table)
}
