//! Look-ups that are needed while inputs of groups are visited. No proof depends on them: each caller tests the
//! results.
use crate::ends::End;
use fixed_words::{List, NoMemory};
use nest_names::{GroupScope, NestNames, Places, copied_scope, inside, note, noted};
use nest_text::Bind;
use std::alloc::Global;
use std::collections::BTreeMap;
use unit_tree::PortName;

/// Places of lines by their inner ports.
type Lines<'n> = BTreeMap<(&'n [u8], &'n [u8]), usize>;

/// The most scopes that can be equal: each has a component of its own.
const MOST_TWINS: usize = 64;

/// The look-ups for a group.
#[derive(Drop)]
struct GroupGuide<'n> {
    /// The place of its first scope in the list of all scopes.
    first: Option<usize>,
    /// How many scopes there are in that scope, with itself.
    size: usize,
    /// For the name of each instance, how many places later the scope inside it is.
    offsets: Places<'n>,
    /// The first `in` line for each inner port.
    lines: Lines<'n>,
    /// The places of its known inputs, by their names.
    known: Places<'n>,
    /// Its inputs that were tried and are not known.
    unknown: Places<'n>,
}

/// Look-ups that are needed while inputs are visited.
#[derive(Drop)]
pub struct Guide<'n> {
    groups: Vec<GroupGuide<'n>>,
    /// For each scope how many `in` lines the scopes before it have.
    starts: Vec<u32>,
    /// For each scope the last one before it that is equal.
    twins: Vec<Option<usize>>,
    /// For each `in` line of each scope, the place at which the list that is being made may have its inner input.
    places: Vec<u32>,
    /// The place of the scope from which the list that is being made is counted.
    base: usize,
}

/// The number at a place, or 0 where there is none.
fn number_at(numbers: &[u32], place: usize) -> usize {
    match numbers.get(place) {
        Some(number) => *number as usize,
        None => 0,
    }
}

fn put_number(numbers: &mut [u32], place: usize, number: usize) {
    let Ok(number) = u32::try_from(number) else {
        return;
    };
    if let Some(one) = numbers.get_mut(place) {
        *one = number;
    }
}

/// Returns `count` numbers, each 0.
fn zeros(alloc: Global, count: usize) -> Result<Vec<u32>, NoMemory> {
    let mut numbers = Vec::with_capacity(alloc, count)?;
    for _ in 0..count {
        numbers.push(0)?;
    }
    Ok(numbers)
}

/// How many `in` lines a scope has.
fn lines_in(names: &NestNames<'_>, group: Option<usize>) -> usize {
    match group {
        Some(place) => names.ins(place).len(),
        None => 0,
    }
}

fn lines_of<'n>(alloc: Global, binds: &'n [Bind]) -> Result<Lines<'n>, NoMemory> {
    let mut lines = BTreeMap::new(alloc);
    for (place, bind) in binds.iter().enumerate() {
        let inner = (bind.inner.instance.as_slice(), bind.inner.port.as_slice());
        if lines.get(&inner).is_none() {
            lines.insert(inner, place)?;
        }
    }
    Ok(lines)
}

impl<'n> GroupGuide<'n> {
    fn new(alloc: Global, binds: &'n [Bind]) -> Result<GroupGuide<'n>, NoMemory> {
        let lines = lines_of(alloc, binds)?;
        Ok(GroupGuide {
            first: None,
            size: 0,
            offsets: BTreeMap::new(alloc),
            lines,
            known: BTreeMap::new(alloc),
            unknown: BTreeMap::new(alloc),
        })
    }
}

impl<'n> Guide<'n> {
    fn new(alloc: Global, names: &NestNames<'n>) -> Result<Guide<'n>, NoMemory> {
        let mut groups = Vec::new(alloc);
        for place in 0..names.groups().len() {
            let group = GroupGuide::new(alloc, names.ins(place))?;
            groups.push(group)?;
        }
        Ok(Guide {
            groups,
            starts: Vec::new(alloc),
            twins: Vec::new(alloc),
            places: Vec::new(alloc),
            base: 0,
        })
    }

    /// Records the next of all scopes.
    fn note_scope(&mut self, group: Option<usize>, scope: usize) {
        if let Some(group) = group {
            if let Some(one) = self.groups.get_mut(group) {
                if one.first.is_none() {
                    one.first = Some(scope);
                }
            }
        }
    }

    /// Records where the `in` lines of each scope begin, and makes room for one number for each line.
    fn note_lines(
        &mut self,
        alloc: Global,
        names: &NestNames<'n>,
        scopes: &[GroupScope],
    ) -> Result<(), NoMemory> {
        let mut lines: usize = 0;
        for scope in scopes {
            self.starts.push(u32::try_from(lines).unwrap_or(u32::MAX))?;
            lines = lines.saturating_add(lines_in(names, scope.group));
        }
        self.places = zeros(alloc, lines)?;
        Ok(())
    }

    /// Records how many scopes there are in a scope of a group, with itself.
    fn note_size(&mut self, group: Option<usize>, size: usize) {
        if let Some(group) = group {
            if let Some(one) = self.groups.get_mut(group) {
                one.size = size;
            }
        }
    }

    /// Records how many places later the scope inside an instance of a group is.
    fn note_offset(
        &mut self,
        group: Option<usize>,
        name: &'n [u8],
        offset: usize,
    ) -> Result<(), NoMemory> {
        if let Some(group) = group {
            if let Some(one) = self.groups.get_mut(group) {
                note(&mut one.offsets, name, offset)?;
            }
        }
        Ok(())
    }

    /// Records for each scope the last one before it that is equal.
    fn note_twins(&mut self, alloc: Global, scopes: &[GroupScope]) -> Result<(), NoMemory> {
        let mut last = BTreeMap::new(alloc);
        for (place, scope) in scopes.iter().enumerate() {
            let one = (scope.prefix.as_slice(), scope.group.unwrap_or(usize::MAX));
            self.twins.push(last.get(&one).copied())?;
            drop(last.insert(one, place)?);
        }
        Ok(())
    }

    /// The offset of the last scope that is equal to the one at an offset, is before it, and is also inside the group's
    /// first scope. Offsets are counted from that first scope.
    fn twin_before(&self, group: usize, offset: usize) -> Option<usize> {
        let first = self.groups.get(group)?.first?;
        let place = first.checked_add(offset)?;
        let twin = (*self.twins.get(place)?)?;
        twin.checked_sub(first)
    }

    /// The offset of the first scope that is equal to the one at an offset and is also inside the group's first scope.
    /// Offsets are counted from that first scope.
    pub(crate) fn first_twin(&self, group: usize, offset: usize) -> usize {
        let mut first = offset;
        for _ in 0..MOST_TWINS {
            let Some(before) = self.twin_before(group, first) else {
                return first;
            };
            first = before;
        }
        first
    }

    /// How many scopes there are in a scope of a group, with itself.
    pub(crate) fn size(&self, group: usize) -> usize {
        match self.groups.get(group) {
            Some(one) => one.size,
            None => 0,
        }
    }

    /// Records the place of an input of a group among those that are known.
    pub(crate) fn note_known(
        &mut self,
        group: usize,
        port: &'n [u8],
        place: usize,
    ) -> Result<(), NoMemory> {
        if let Some(one) = self.groups.get_mut(group) {
            note(&mut one.known, port, place)?;
        }
        Ok(())
    }

    /// Records that an input of a group was tried and is not known.
    pub(crate) fn note_unknown(&mut self, group: usize, port: &'n [u8]) -> Result<(), NoMemory> {
        if let Some(one) = self.groups.get_mut(group) {
            note(&mut one.unknown, port, 0)?;
        }
        Ok(())
    }

    /// The place of an input of a group among those that are known.
    pub(crate) fn known(&self, group: usize, port: &[u8]) -> Option<usize> {
        noted(&self.groups.get(group)?.known, port)
    }

    /// Whether an input of a group was tried and is not known.
    fn is_unknown(&self, group: usize, port: &[u8]) -> bool {
        match self.groups.get(group) {
            Some(one) => noted(&one.unknown, port).is_some(),
            None => false,
        }
    }

    /// Whether an input of a group is known, or was tried in vain.
    pub(crate) fn is_settled(&self, group: usize, port: &[u8]) -> bool {
        self.known(group, port).is_some() || self.is_unknown(group, port)
    }

    /// How many places later the scope inside an instance of a group is.
    pub(crate) fn offset(&self, group: usize, name: &[u8]) -> Option<u32> {
        u32::try_from(noted(&self.groups.get(group)?.offsets, name)?).ok()
    }

    /// The first `in` line of a group with an inner port.
    pub(crate) fn line(&self, group: usize, inner: &'n PortName) -> Option<usize> {
        let inner = (inner.instance.as_slice(), inner.port.as_slice());
        self.groups.get(group)?.lines.get(&inner).copied()
    }

    /// Begins a list that is counted from a scope.
    pub(crate) fn begin(&mut self, base: usize) {
        self.base = base;
    }

    /// Begins a list that is counted from the first scope of a group.
    pub(crate) fn begin_group(&mut self, group: usize) {
        self.base = match self.groups.get(group) {
            Some(one) => one.first.unwrap_or(0),
            None => 0,
        };
    }

    /// The number of an `in` line among those of all scopes.
    fn number(&self, end: End) -> usize {
        let scope = self.base.wrapping_add(end.scope as usize);
        number_at(self.starts.as_slice(), scope).wrapping_add(end.line as usize)
    }

    /// The place at which the list that is being made may have an input.
    pub(crate) fn place_of(&self, end: End) -> usize {
        number_at(self.places.as_slice(), self.number(end))
    }

    /// Records the place at which the list that is being made has an input.
    pub(crate) fn note_place(&mut self, end: End, place: usize) {
        let number = self.number(end);
        put_number(self.places.as_mut_slice(), number, place);
    }
}

/// Appends a scope and all scopes inside it, in the order of instances, each before those inside it.
fn put_scopes<'n>(
    alloc: Global,
    names: &NestNames<'n>,
    depth: usize,
    scope: &GroupScope,
    guide: &mut Guide<'n>,
    scopes: &mut List<GroupScope>,
) -> Result<(), NoMemory> {
    let own = scopes.len();
    guide.note_scope(scope.group, own);
    scopes.push(copied_scope(alloc, scope)?)?;
    if depth == 0 {
        return Ok(());
    }
    for instance in names.instances(scope.group) {
        let Some(place) = names.group_place(instance.unit.as_slice()) else {
            continue;
        };
        let inner = inside(alloc, scope, &instance.name, place)?;
        guide.note_offset(
            scope.group,
            instance.name.as_slice(),
            scopes.len().saturating_sub(own),
        )?;
        put_scopes(alloc, names, depth - 1, &inner, guide, scopes)?;
    }
    guide.note_size(scope.group, scopes.len().saturating_sub(own));
    Ok(())
}

/// All scopes of a nest, nested at most `levels` levels deep, with a guide to them.
pub(crate) fn guided_scopes<'n>(
    alloc: Global,
    names: &NestNames<'n>,
    levels: usize,
    top: &GroupScope,
) -> Result<(List<GroupScope>, Guide<'n>), NoMemory> {
    let mut guide = Guide::new(alloc, names)?;
    let mut scopes = List::new(alloc);
    put_scopes(alloc, names, levels, top, &mut guide, &mut scopes)?;
    guide.note_lines(alloc, names, scopes.as_slice())?;
    guide.note_twins(alloc, scopes.as_slice())?;
    Ok((scopes, guide))
}
