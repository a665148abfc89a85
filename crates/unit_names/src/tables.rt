//! Tables of names: the first declaration of each name, found without a search through a list.
ghost use Rattle.std.specs.Prelude.{◌≡◌, ℕ, List, Some, None, IfOk, map, bytes_eq, if◌then◌else◌};
ghost use Rattle.std.specs.Option.{option_or};
ghost use Rattle.unit_names.specs.Found.{as_named, found_in, FindsDeclared};

use fixed_words::{NoMemory, Ty};
use std::alloc::Global;
use std::collections::BTreeMap;

/// The first declaration of a name in a list: its place, counted from 0, its type, and whether it is an event
/// port.
#[derive(Clone, Copy, Debug, PartialEq, Eq)]
pub struct Declared {
    pub place: usize,
    pub ty: Ty,
    pub is_event: bool,
}

/// A declaration from which a table is made.
#[derive(Clone, Copy)]
pub(crate) struct Entry<'a> {
    pub name: &'a [u8],
    pub ty: Ty,
    pub is_event: bool,
}

/// Declarations by name.
pub(crate) type Table<'a> = BTreeMap<&'a [u8], Declared>;

/// Places by name.
pub(crate) type Places<'a> = BTreeMap<&'a [u8], usize>;

/// The value of a name in a table.
pub(crate) fn find<V: Copy>(table: &BTreeMap<&[u8], V>, name: &[u8]) -> Option<V>
    ensures { result ≡ found_in table.now name.now }
{
    table.get(name).copied()
}

/// Adds a name to a table, if it is not there already.
pub(crate) fn note<'a, V: Drop>(
    table: &mut BTreeMap<&'a [u8], V>,
    name: &'a [u8],
    value: V,
) -> Result<(), NoMemory>
    ensures { IfOk result (λ _. (q : List ℕ) →
        found_in table.new q ≡ option_or (found_in table.old q) (if bytes_eq q name.now then Some value else None)) }
{
    if table.get(name).is_none() {
        table.insert(name, value)?;
    }
    Ok(())
}

/// Makes the table of these declarations.
pub(crate) fn table_of<'a>(alloc: Global, entries: &[Entry<'a>]) -> Result<Table<'a>, NoMemory>
    ensures { IfOk result (FindsDeclared (map as_named entries.now)) }
{
    let mut table = BTreeMap::new(alloc);
    for (place, entry) in entries.iter().enumerate() {
        note(
            &mut table,
            entry.name,
            Declared {
                place,
                ty: entry.ty,
                is_event: entry.is_event,
            },
        )?;
    }
    Ok(table)
}
