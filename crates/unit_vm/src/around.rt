ghost use Rattle.std.specs.Prelude.{◌≡◌, ◌↔◌, ◌+◌, ◌<◌, ◌^◌, IsTrue, IfOk, IfSome, IfNone};
ghost use Rattle.unit_vm.specs.Tables.{row_behind, CanCount, IsCounted, HasLoops, IsLoopTable, same_innermost, stays, JumpsStay};

use crate::instruction::{Flow, Instruction};
use fixed_words::{List, NoMemory};
use model_rules::GREATEST_COST;
use std::alloc::Global;

/// What is known of the loops around a place.
#[derive(Clone, Copy)]
pub(crate) struct Around {
    /// The place at which the innermost loop begins.
    pub(crate) innermost: Option<u32>,
    /// How many loops there are.
    pub(crate) depth: u32,
    /// The product of their counts.
    pub(crate) turns: u32,
}

/// The loops of a part: a row for each place, the part's cost, and the greatest number of loops around a place.
#[derive(Drop)]
pub(crate) struct LoopTable {
    pub(crate) rows: List<Around>,
    pub(crate) cost: u32,
    pub(crate) deepest: u32,
}

/// Returns the row after an instruction. A `next` leaves its loop: the row after it is that at the beginning of the loop. `None` where
/// it closes no loop.
fn behind(flow: Flow, place: u32, here: Around, rows: &[Around]) -> Option<Around>
    requires depth { here.depth + 1 < 2 ^ 32 }
    requires turns { CanCount flow here }
    ensures { result ≡ row_behind flow place here rows.now }
{
    match flow {
        Flow::Open(count) => Some(Around {
            innermost: Some(place),
            depth: here.depth + 1,
            turns: here.turns * count,
        }),
        Flow::Back(distance) => match here.innermost {
            Some(begin) => {
                if u64::from(begin) + 1 + u64::from(distance) == u64::from(place) {
                    rows.get(begin as usize).copied()
                } else {
                    None
                }
            }
            None => None,
        },
        _ => Some(here),
    }
}

/// Returns the loops of a part, or `None` where they do not nest or the part costs too much.
pub(crate) fn loop_table(alloc: Global, code: &[Instruction]) -> Result<Option<LoopTable>, NoMemory>
    requires { IsCounted code.now }
    ensures some { IfOk result (λ found. IfSome found (λ table. IsLoopTable code.now table)) }
    ensures none { IfOk result (λ found. IfNone found (HasLoops code.now → ⊥)) }
{
    let mut rows = List::new(alloc);
    let mut here = Around {
        innermost: None,
        depth: 0,
        turns: 1,
    };
    let mut cost = 0;
    let mut deepest = 0;
    for place in 0..code.len() {
        cost += here.turns;
        if cost > GREATEST_COST {
            return Ok(None);
        }
        deepest = here.depth.max(deepest);
        rows.push(here)?;
        let flow = code[place].flow();
        match behind(flow, place as u32, here, rows.as_slice()) {
            Some(next) => here = next,
            None => return Ok(None),
        }
    }
    if here.depth > 0 {
        return Ok(None);
    }
    Ok(Some(LoopTable {
        rows,
        cost,
        deepest,
    }))
}

fn same_innermost(one: Option<u32>, other: Option<u32>) -> bool
    ensures { result ≡ same_innermost one other }
{
    match (one, other) {
        (None, None) => true,
        (Some(one), Some(other)) => one == other,
        _ => false,
    }
}

/// Returns whether a jump at a place stays in the part and in the loops around it. True of every other instruction.
fn stays(flow: Flow, place: usize, rows: &[Around]) -> bool
    requires { place < 2 ^ 62 }
    ensures { result ≡ stays flow place rows.now }
{
    match flow {
        Flow::Ahead(distance) | Flow::Branch(distance) => match (
            rows.get(place),
            rows.get(place + distance as usize),
        ) {
            (Some(here), Some(there)) => same_innermost(here.innermost, there.innermost),
            _ => false,
        },
        _ => true,
    }
}

/// Returns whether all jumps of a part stay in it and in the loops around them.
pub(crate) fn jumps_stay(code: &[Instruction], table: &LoopTable) -> bool
    requires { IsLoopTable code.now table.now }
    ensures { IsTrue result ↔ JumpsStay code.now }
{
    for place in 0..code.len() {
        if !stays(code[place].flow(), place, table.rows.as_slice()) {
            return false;
        }
    }
    true
}
