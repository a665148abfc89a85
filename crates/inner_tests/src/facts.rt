//! Bytes near those of facts.
use fixed_words::Fault;
use link_core::{Asked, Fact, Said, Seen};
use link_nodes::decode;
use std::test::Fail;

/// The row and the place of the facts below.
const ROW: u64 = 1;

const PLACE: u32 = 2;

/// Returns a fact of the output there; further functions one of the `max` and of a reply of the instance with that number.
const fn word(seen: Seen) -> Option<Fact> {
    Some(Fact::Word {
        row: ROW,
        place: PLACE,
        seen,
    })
}

const fn limit(asked: Asked) -> Option<Fact> {
    Some(Fact::Limit {
        row: ROW,
        instance: PLACE,
        asked,
    })
}

const fn reply(redo: bool, said: Said) -> Option<Fact> {
    Some(Fact::Reply {
        row: ROW,
        instance: PLACE,
        redo,
        said,
    })
}

/// Returns bytes with this kind, this tag and this number, of that row and place.
const fn bytes_of(kind: u8, tag: u8, number: u8) -> [u8; 22] {
    let (row, place) = (ROW as u8, PLACE as u8);
    [
        kind, 0, 0, 0, 0, 0, 0, 0, row, 0, 0, 0, place, tag, 0, 0, 0, 0, 0, 0, 0, number,
    ]
}

#[test]
fn each_kind_has_its_tags(rt: HostRuntime) -> Result<(), Fail> {
    let told = [
        (0, 0, 3, None),
        (1, 0, 3, word(Seen::Is(3))),
        (1, 2, 0, word(Seen::Fault(Fault::Range))),
        (1, 4, 0, word(Seen::Fault(Fault::Accept))),
        (1, 5, 0, word(Seen::Fault(Fault::Max))),
        (1, 6, 0, word(Seen::Undefined)),
        (1, 6, 1, None),
        (1, 7, 0, None),
        (1, 8, 0, None),
        (2, 0, 3, limit(Asked::Max(3))),
        (2, 1, 0, limit(Asked::Fault(Fault::Overflow))),
        (2, 6, 0, None),
        (2, 7, 0, limit(Asked::Free)),
        (2, 7, 1, None),
        (3, 0, 3, reply(false, Said::Accepted(3))),
        (3, 6, 0, None),
        (3, 7, 0, None),
        (4, 3, 0, reply(true, Said::Fault(Fault::ZeroDivisor))),
        (4, 3, 1, None),
        (5, 0, 3, None),
    ];
    for (kind, tag, number, fact) in &told {
        let bytes = bytes_of(*kind, *tag, *number);
        assert!(rt; decode(&bytes) == *fact);
        assert!(rt; decode(&bytes[..21]).is_none());
    }
    Ok(())
}

#[test]
fn rows_and_lengths_have_ends(rt: HostRuntime) -> Result<(), Fail> {
    let mut below = bytes_of(1, 6, 0);
    // 99,999 and 100,000
    [below[6], below[7], below[8]] = [0x01, 0x86, 0x9f];
    assert_eq!(rt; decode(&below).map(|fact| fact.row()), Some(99_999));
    let mut past = below;
    past[8] = 0xa0;
    assert!(rt; decode(&past).is_none());
    let mut lowest = bytes_of(1, 0, 0);
    lowest[14] = 0x80;
    assert!(rt; decode(&lowest) == word(Seen::Is(i64::MIN)));
    // A length must not be negative.
    lowest[0] = 2;
    assert!(rt; decode(&lowest).is_none());
    Ok(())
}
