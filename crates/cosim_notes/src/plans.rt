//! Texts that are accepted, their plans, and the status of how a run of a plan ended.
ghost use Rattle.std.specs.Prelude.{◌≡◌, IfErr, IfOk};
ghost use Rattle.cosim_answers.specs.Accepted.{planned, status_of};
ghost use Rattle.cosim_answers.specs.Serving.{Accepts, IsAccepted, IsUnaccepted};
ghost use Rattle.unit_tree.specs.Compositions.{run_of};
ghost use Rattle.unit_tree.specs.Routes.{IsOrderOf};

use cosim_call::{Status, Stopped};
use fixed_words::NoMemory;
use std::alloc::Global;
use std::sync::Arc;
use text_accept::{AcceptedText, accept_text};
use trace_core::Plan;
use unit_text::TextFault;
use unit_tree::Ending;

/// Judges a text by all rules.
pub fn accept(alloc: Global, text: &[u8]) -> Result<AcceptedText, Stopped>
    ensures { Accepts text.now result }
{
    match accept_text(alloc, text) {
        Ok(read) => Ok(read),
        Err(TextFault::Line { line, rule }) => Err(Stopped::Refused { line, rule }),
        Err(TextFault::NoMemory) => Err(Stopped::NoMemory),
    }
}

/// Returns the plan of an accepted system.
pub fn make_plan(alloc: Global, read: AcceptedText) -> Result<Arc<Plan>, NoMemory>
    requires { IsOrderOf (run_of read.checked) read.order }
    ensures { IfOk result (λ plan. plan.value ≡ planned read.checked) }
{
    let plan = Plan::ordered(alloc, read.checked, read.order)?;
    // Called for its clauses, which state that the plan's run is that of its system's plain form.
    let _ = plan.checked();
    Ok(Arc::new(alloc, plan)?)
}

/// Returns the plan of the system of a text, or the text's refusal.
pub fn plan_of(alloc: Global, text: &[u8]) -> Result<Arc<Plan>, Stopped>
    ensures planned { IfOk result (λ plan. IsAccepted text.now plan.value.system) }
    ensures whole { IfOk result (λ plan. plan.value ≡ planned plan.value.system) }
    ensures refused { IfErr result (IsUnaccepted text.now) }
{
    let read = accept(alloc, text)?;
    Ok(make_plan(alloc, read)?)
}

/// Returns the status of how a run ended.
pub fn status_of(ending: Ending) -> Status
    ensures { result ≡ status_of ending }
{
    match ending {
        Ending::Completed => Status::Done,
        Ending::RowBudget => Status::RowBudget,
        Ending::ZeroBudget => Status::ZeroBudget,
        Ending::UnitFault { .. } => Status::UnitFault,
        Ending::StepRefused { .. } => Status::StepRefused,
    }
}
