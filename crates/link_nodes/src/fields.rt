ghost use Rattle.std.specs.Prelude.{◌≡◌};
ghost use Rattle.link_nodes.specs.Decoding.{fault_tagged, seen_told, asked_told, said_told, fact_told, HasLengths};
ghost use Rattle.link_nodes.specs.Wire.{tag_of, fields_of};

use fixed_words::Fault;
use link_core::{Asked, Fact, Said, Seen};

/// The fields of an encoding.
#[derive(Clone, Copy, Debug, PartialEq, Eq)]
pub(crate) struct Fields {
    pub(crate) kind: u8,
    pub(crate) row: u64,
    pub(crate) place: u32,
    pub(crate) tag: u8,
    pub(crate) number: i64,
}

/// Returns the tag of a fault.
fn tag(fault: Fault) -> u8
    ensures { result ≡ tag_of fault }
{
    match fault {
        Fault::Overflow => 1,
        Fault::Range => 2,
        Fault::ZeroDivisor => 3,
        Fault::Accept => 4,
        Fault::Max => 5,
    }
}

/// Returns the fault of a tag.
fn fault(tag: u8) -> Fault
    ensures { result ≡ fault_tagged tag }
{
    match tag {
        1 => Fault::Overflow,
        2 => Fault::Range,
        3 => Fault::ZeroDivisor,
        4 => Fault::Accept,
        _ => Fault::Max,
    }
}

/// Returns the fields of a fact.
pub(crate) fn fields_of(fact: Fact) -> Fields
    requires { HasLengths fact }
    ensures { result ≡ fields_of fact }
{
    match fact {
        Fact::Word { row, place, seen } => {
            let (tag, number) = match seen {
                Seen::Is(word) => (0, word),
                Seen::Fault(fault) => (tag(fault), 0),
                Seen::Undefined => (6, 0),
            };
            Fields {
                kind: 1,
                row,
                place,
                tag,
                number,
            }
        }
        Fact::Limit {
            row,
            instance,
            asked,
        } => {
            let (tag, number) = match asked {
                Asked::Free => (7, 0),
                Asked::Max(local) => (0, local as i64),
                Asked::Fault(fault) => (tag(fault), 0),
            };
            Fields {
                kind: 2,
                row,
                place: instance,
                tag,
                number,
            }
        }
        Fact::Reply {
            row,
            instance,
            redo,
            said,
        } => {
            let (tag, number) = match said {
                Said::Accepted(accepted) => (0, accepted as i64),
                Said::Fault(fault) => (tag(fault), 0),
            };
            Fields {
                kind: if redo { 4 } else { 3 },
                row,
                place: instance,
                tag,
                number,
            }
        }
    }
}

/// Returns what fields may say of an output.
fn seen(tag: u8, number: i64) -> Seen
    ensures { result ≡ seen_told tag number }
{
    match tag {
        0 => Seen::Is(number),
        6 => Seen::Undefined,
        _ => Seen::Fault(fault(tag)),
    }
}

/// Returns what fields may say of a `max`.
fn asked(tag: u8, number: i64) -> Asked
    ensures { result ≡ asked_told tag number }
{
    match tag {
        0 => Asked::Max(number.unsigned_abs()),
        7 => Asked::Free,
        _ => Asked::Fault(fault(tag)),
    }
}

/// Returns what fields may say of a step.
fn said(tag: u8, number: i64) -> Said
    ensures { result ≡ said_told tag number }
{
    match tag {
        0 => Said::Accepted(number.unsigned_abs()),
        _ => Said::Fault(fault(tag)),
    }
}

/// Returns a fact for any fields, valid or not.
pub(crate) fn fact_of(fields: Fields) -> Fact
    ensures { result ≡ fact_told fields }
{
    match fields.kind {
        1 => Fact::Word {
            row: fields.row,
            place: fields.place,
            seen: seen(fields.tag, fields.number),
        },
        2 => Fact::Limit {
            row: fields.row,
            instance: fields.place,
            asked: asked(fields.tag, fields.number),
        },
        kind => Fact::Reply {
            row: fields.row,
            instance: fields.place,
            redo: kind != 3,
            said: said(fields.tag, fields.number),
        },
    }
}
