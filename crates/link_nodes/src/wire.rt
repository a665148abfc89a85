ghost use Rattle.link_laws.specs.Lengths.{is_short};
ghost use Rattle.link_laws.specs.declared.fact.Fact.{Fact};
ghost use Rattle.std.specs.Prelude.{◌≡◌, true, length, IfSome, IfNone, Some, None};
ghost use Rattle.link_nodes.specs.Decoding.{decoded, is_written, read, told_if};
ghost use Rattle.link_nodes.specs.Wire.{encoding, written, HasTypes};

use crate::fields::{Fields, fact_of, fields_of};
use link_core::{Asked, Fact, Said};
use model_rules::MOST_ROWS;

/// Writes fields.
fn write(fields: Fields) -> [u8; 22]
    ensures { result ≡ written fields }
{
    let row = fields.row.to_be_bytes();
    let place = fields.place.to_be_bytes();
    let number = fields.number.to_be_bytes();
    [
        fields.kind,
        row[0],
        row[1],
        row[2],
        row[3],
        row[4],
        row[5],
        row[6],
        row[7],
        place[0],
        place[1],
        place[2],
        place[3],
        fields.tag,
        number[0],
        number[1],
        number[2],
        number[3],
        number[4],
        number[5],
        number[6],
        number[7],
    ]
}

/// Reads fields, valid or not. Returns `None` exactly where there aren't 22 bytes.
fn read(bytes: &[u8]) -> Option<Fields>
    ensures some { IfSome result (λ fields. fields ≡ read bytes.now) }
    ensures long { IfSome result (λ fields. length bytes.now ≡ 22) }
    ensures none { IfNone result (length bytes.now ≡ 22 → ⊥) }
{
    let [
        kind,
        r0,
        r1,
        r2,
        r3,
        r4,
        r5,
        r6,
        r7,
        p0,
        p1,
        p2,
        p3,
        tag,
        n0,
        n1,
        n2,
        n3,
        n4,
        n5,
        n6,
        n7,
    ] = *bytes
    else {
        return None;
    };
    Some(Fields {
        kind,
        row: u64::from_be_bytes([r0, r1, r2, r3, r4, r5, r6, r7]),
        place: u32::from_be_bytes([p0, p1, p2, p3]),
        tag,
        number: i64::from_be_bytes([n0, n1, n2, n3, n4, n5, n6, n7]),
    })
}

/// Returns whether a fact can be encoded: its row is below 100,000, and a length is at most the greatest word.
fn is_short(fact: Fact) -> bool
    ensures { result ≡ is_short fact }
{
    const MOST_LENGTH: u64 = 1 << 63;
    match fact {
        Fact::Limit {
            row,
            asked: Asked::Max(length),
            ..
        } => row < u64::from(MOST_ROWS) && length < MOST_LENGTH,
        Fact::Reply {
            row,
            said: Said::Accepted(length),
            ..
        } => row < u64::from(MOST_ROWS) && length < MOST_LENGTH,
        Fact::Word { row, .. } | Fact::Limit { row, .. } | Fact::Reply { row, .. } => row
            < u64::from(MOST_ROWS),
    }
}

/// Encodes a fact that is short, as each listed fact of a node is. Takes no memory.
pub fn encode(fact: &Fact) -> [u8; 22]
    requires { is_short fact.now ≡ true }
    ensures { result ≡ encoding fact.now }
{
    write(fields_of(*fact))
}

/// Returns whether bytes are those of a fact.
fn is_written(bytes: &[u8], fact: Fact) -> bool
    ensures { result ≡ is_written bytes.now fact }
{
    is_short(fact) && bytes == encode(&fact).as_slice()
}

/// Returns the fact, if `told`.
fn told_if(told: bool, fact: Fact) -> Option<Fact>
    ensures { result ≡ told_if told fact }
{
    if told { Some(fact) } else { None }
}

/// Reads any bytes as a fact, writes it again, and compares.
#[tactic(auto, using(crate::proofs::WireLaws::no_length))]
fn decode_all(bytes: &[u8]) -> Option<Fact>
    ensures { result ≡ decoded bytes.now }
{
    match read(bytes) {
        Some(fields) => told_if(is_written(bytes, fact_of(fields)), fact_of(fields)),
        None => None,
    }
}

/// Decodes a fact. Returns `None` exactly where the bytes are no encoding. Takes no memory.
pub fn decode(bytes: &[u8]) -> Option<Fact>
    ensures written { IfSome result (λ fact. bytes.now ≡ encoding fact) }
    ensures short { IfSome result (λ fact. is_short fact ≡ true) }
    ensures back { (fact : Fact) → HasTypes fact → is_short fact ≡ true → bytes.now ≡ encoding fact → result ≡ Some fact }
{
    decode_all(bytes)
}
