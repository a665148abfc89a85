//! Words that are valid code, and words that are not.
use fixed_words::{List, NoMemory};
use std::alloc::Global;
use std::test::Fail;
use unit_vm::{CodeFacts, check_code};

/// The words of a step, and the facts of code with one state and this step; none where it is not valid code.
type Case = (&'static [i64], Option<CodeFacts>);

const fn facts(stack: u32, loops: u32, cost: u32) -> Option<CodeFacts> {
    Some(CodeFacts {
        stack,
        loops,
        cost,
        slots: 3,
    })
}

/// Returns the facts of code with one state, no output and this step, or `None` where it is not valid code.
fn facts_of(alloc: Global, step: &[i64]) -> Result<Option<CodeFacts>, NoMemory> {
    let mut words = List::from_slice(alloc, &[0, 1, 0, 0, 0, 0, 7])?;
    for word in step {
        words.push(*word)?;
    }
    check_code(alloc, words.as_slice())
}

#[test]
fn words_are_code_or_none(rt: HostRuntime) -> Result<(), Fail> {
    let cases: [Case; 16] = [
        (&[1, 2, 2, 6, 33, 0], facts(1, 0, 3)),
        // Two clamps in each other.
        (
            &[0, 1, 0, 0, 0, 1, 0, 0, 0, 9, 12, 0, 12, 0, 2, 6, 33, 0],
            facts(5, 0, 9),
        ),
        (&[28, 3, 0, 5, 2, 6, 29, 2, 33, 0], facts(1, 1, 11)),
        // A loop of four turns in a loop of three.
        (
            &[28, 3, 28, 4, 1, 0, 0, 1, 3, 0, 2, 6, 29, 4, 29, 6, 33, 0],
            facts(2, 2, 68),
        ),
        // An instruction that doesn't exist, and a slot that doesn't exist.
        (&[99, 0, 33, 0], None),
        (&[1, 9, 2, 6, 33, 0], None),
        // No instruction, and no end.
        (&[], None),
        (&[0, 4, 30, 0], None),
        // A jump out of the part, a place that no path reaches, and an operand that is missing.
        (&[26, 5, 33, 0], None),
        (&[26, 2, 0, 1, 33, 0], None),
        (&[3, 0, 33, 0], None),
        // Two paths to a place, with different heights.
        (&[0, 0, 27, 2, 0, 1, 33, 0], None),
        // A jump into a loop, a loop that is not closed, and an end without a loop.
        (&[0, 0, 27, 2, 28, 3, 0, 5, 2, 6, 29, 2, 33, 0], None),
        (&[28, 3, 33, 0], None),
        (&[29, 1, 33, 0], None),
        // A million turns.
        (
            &[28, 1_000, 28, 1_000, 0, 5, 2, 6, 29, 2, 29, 4, 33, 0],
            None,
        ),
    ];
    for (step, wanted) in cases {
        assert_eq!(rt; facts_of(rt.alloc(), step)?, wanted, "{step:?}");
    }
    Ok(())
}
