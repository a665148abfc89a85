//! The command `bench`, in three steps: the plan of the generated system, its run, whose rows are dropped, and the figures of its trace.
ghost use Rattle.std.specs.Prelude.{◌≡◌, ℕ, List, ◌++◌, codes, IfOk, OnOk};
ghost use Rattle.cosim_call.specs.Coming.{Makes};
ghost use Rattle.cosim_answers.specs.Answer.{Answers};
ghost use Rattle.cosim_answers.specs.Figures.{figure_line, figures_text, ticks_text};
ghost use Rattle.command_line.specs.Generations.{system_asked};
ghost use Rattle.command_line.specs.declared.commands.Command.TheVariants.{Bench};

use crate::commands::run::{Ahead, run_crewed, run_plan};
use command_line::Generation;
use cosim_call::{Stopped, append_all};
use cosim_io::NullSink;
use itoa::Buffer;
use std::alloc::{AllocError, Global};
use std::sync::{Arc, Wait};
use std::thread::Threads;
use trace_core::Plan;
use trace_plan::PlanFault;
use trace_rows::Report;
use unit_check::{CheckFault, check};
use unit_tree::{Checked, Point};
use work_crew::{Gate, Policy};

/// How the generated system is run with workers.
const AHEAD: Ahead = Ahead {
    workers: 4,
    window: 4,
    policy: Policy::Hold,
};

/// Returns the generated system, judged: no rule refuses it.
fn judged(alloc: Global, asked: &Generation) -> Result<Checked, AllocError>
    ensures { IfOk result (λ checked. checked ≡ system_asked asked.now) }
{
    // Called for its clauses, which state that there is such a system.
    let _ = asked.instances();
    match check(alloc, asked.system(alloc)?) {
        Ok(checked) => Ok(checked),
        Err(CheckFault::Line { .. }) => unreachable!(),
        Err(CheckFault::NoMemory) => Err(AllocError),
    }
}

/// Returns the plan of the generated system, whose outputs have an order.
fn plan_of(alloc: Global, asked: &Generation) -> Result<Plan, AllocError>
    ensures { IfOk result (λ plan. plan.system ≡ system_asked asked.now) }
{
    let _ = asked.instances();
    match Plan::new(alloc, judged(alloc, asked)?) {
        Ok(plan) => Ok(plan),
        Err(PlanFault::Loop { .. }) => unreachable!(),
        Err(PlanFault::NoMemory) => Err(AllocError),
    }
}

/// Adds the line of a figure.
fn put_figure(text: &mut Vec<u8>, name: &[u8], figure: &[u8]) -> Result<(), AllocError>
    ensures { OnOk result (text.new.items ≡ text.old.items ++ figure_line name.now figure.now) }
{
    append_all(text, &[name, b" ", figure, b"\n"])
}

/// Adds the line of a point, its time in ticks.
fn put_point(text: &mut Vec<u8>, point: Point) -> Result<(), AllocError>
    ensures { OnOk result (text.new.items ≡ text.old.items ++ figure_line (codes "last") (ticks_text point)) }
{
    let (mut time, mut index) = (Buffer::new(), Buffer::new());
    append_all(
        text,
        &[
            b"last ",
            time.format(point.t).as_bytes(),
            b",",
            index.format(point.n).as_bytes(),
            b"\n",
        ],
    )
}

/// Returns the figures of a trace, from the report of a run of so many components.
fn figures(alloc: Global, instances: u32, report: Report) -> Result<Vec<u8>, AllocError>
    ensures { IfOk result (λ text. text.items ≡ figures_text instances report.rows report.last report.sum) }
{
    let mut number = Buffer::new();
    let mut text = Vec::new(alloc);
    put_figure(&mut text, b"instances", number.format(instances).as_bytes())?;
    put_figure(&mut text, b"rows", number.format(report.rows).as_bytes())?;
    put_point(&mut text, report.last)?;
    put_figure(&mut text, b"sum", number.format(report.sum).as_bytes())?;
    Ok(text)
}

/// Returns what is written, for any input: the figures of the trace of the generated system, which is run in the calling thread.
pub(crate) fn make(alloc: Global, asked: &Generation) -> Result<Vec<u8>, Stopped>
    ensures { (text : List ℕ) → Makes (Answers (Bench asked.now) text) result }
{
    let plan = Arc::new(alloc, plan_of(alloc, asked)?)?;
    let report = run_plan(alloc, &plan, &mut NullSink)?;
    Ok(figures(alloc, asked.instances(), report)?)
}

/// The same, where the system is run with workers.
pub(crate) fn make_crewed<R: Threads + Wait + Copy + Send + Drop + 'static, G: Gate>(
    rt: R,
    alloc: Global,
    asked: &Generation,
    gate: &G,
) -> Result<Vec<u8>, Stopped>
    ensures { (text : List ℕ) → Makes (Answers (Bench asked.now) text) result }
{
    let plan = Arc::new(alloc, plan_of(alloc, asked)?)?;
    let report = run_crewed(rt, alloc, &plan, AHEAD, &mut NullSink, gate)?;
    Ok(figures(alloc, asked.instances(), report)?)
}
