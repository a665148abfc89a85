//! A text, read and judged by all rules; and a system, judged by the rules on systems.
ghost use Rattle.std.specs.Prelude.{◌≡◌, ◌≤◌, length, IfOk};
ghost use Rattle.text_accept.specs.Accepting.{AnswersAcceptance, AnswersSystem, IsAtSource, IsLineOfCycle};
ghost use Rattle.text_accept.specs.Marks.{IsWithoutMark};
ghost use Rattle.unit_tree.specs.Canonical.{canonical_forms};
ghost use Rattle.unit_tree.specs.Printable.{IsRanged};
ghost use Rattle.wire_graph.specs.Faults.{IsRightFault};
ghost use Rattle.wire_graph.specs.declared.fault.OrderFault.TheVariants.{Loop};

use fixed_words::{List, NoMemory};
use model_rules::Rule;
use std::alloc::Global;
use unit_check::{CheckFault, check, line_of_output};
use unit_text::{ReadText, TextFault, read_system};
use unit_tree::{Checked, Order, System};
use wire_graph::{OrderFault, order, output_names};

/// A text that keeps all rules: its system, the number of the line of the text that each of its canonical lines came
/// from, and an order of its outputs with the routes of all ports.
#[derive(Debug, Drop)]
pub struct AcceptedText {
    pub checked: Checked,
    pub lines: List<u32>,
    pub order: Order,
}

/// The refusal at the line that a canonical line came from, which counts from 1.
fn at_source(lines: &[u32], item: u32, rule: u8) -> TextFault
    requires first { 1 ≤ item }
    requires last { item ≤ length lines.now }
    ensures { IsAtSource lines.now item rule result }
{
    TextFault::Line {
        line: lines[item as usize - 1],
        rule,
    }
}

/// The name of the port that a port of the plain form was made from: without the final `?`.
fn without_mark(name: &[u8]) -> &[u8]
    ensures { IsWithoutMark name.now result.now }
{
    match name.split_last() {
        Some((b'?', front)) => front,
        _ => name,
    }
}

/// The canonical line of the first output without an order, from its numbers in the plain form.
fn line_of_cycle(
    alloc: Global,
    checked: &Checked,
    instance: u32,
    output: u32,
) -> Result<u32, NoMemory>
    requires fault { IsRightFault checked.now (Loop instance output) }
    ensures { IfOk result (IsLineOfCycle checked.now) }
{
    let _ = checked.system();
    let (instance, output) = output_names(alloc, checked, instance, output)?;
    let line = line_of_output(alloc, checked.source(), instance, without_mark(output))?;
    Ok(line.unwrap())
}

/// Judges whether the outputs of a checked system have an order.
fn accept_checked(
    alloc: Global,
    checked: Checked,
    lines: List<u32>,
) -> Result<AcceptedText, TextFault>
    requires { length lines ≡ length (canonical_forms checked) }
    ensures { AnswersSystem checked lines result }
{
    let _ = checked.system();
    match order(alloc, &checked) {
        Ok(order) => Ok(AcceptedText {
            checked,
            lines,
            order,
        }),
        Err(OrderFault::Loop { instance, output }) => {
            match line_of_cycle(alloc, &checked, instance, output) {
                Ok(item) => Err(at_source(lines.as_slice(), item, Rule::OutputsHaveOrder.number())),
                Err(_) => Err(TextFault::NoMemory),
            }
        }
        Err(OrderFault::NoMemory) => Err(TextFault::NoMemory),
    }
}

/// Judges a system by all rules on systems, in either version of the language, and whether its outputs have an order.
/// Each of its canonical lines came from one of the `lines` of a text, at which it is refused.
///
/// A refusal names the least rule that is broken, at the first canonical line that breaks it. The order of outputs is
/// judged last.
pub fn accept_system(
    alloc: Global,
    system: System,
    lines: List<u32>,
) -> Result<AcceptedText, TextFault>
    requires ranged { IsRanged system }
    requires one_for_one { length lines ≡ length (canonical_forms system) }
    ensures { AnswersSystem system lines result }
{
    match check(alloc, system) {
        Ok(checked) => accept_checked(alloc, checked, lines),
        Err(CheckFault::Line { item, rule }) => Err(at_source(lines.as_slice(), item, rule)),
        Err(CheckFault::NoMemory) => Err(TextFault::NoMemory),
    }
}

/// Reads a text, and judges its system, in either version of the language, and whether its outputs have an order.
///
/// A text that breaks a rule is refused by the first stage that finds one, at its line and by the rule: on the text and
/// its lines, on the system, and last on the order of its outputs.
pub fn accept_text(alloc: Global, text: &[u8]) -> Result<AcceptedText, TextFault>
    ensures { AnswersAcceptance text.now result }
{
    let ReadText { system, lines } = read_system(alloc, text)?;
    accept_system(alloc, system, lines)
}
