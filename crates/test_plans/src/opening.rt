//! Plans of systems, from texts.
use std::alloc::Global;
use std::sync::Arc;
use std::test::Fail;
use trace_core::Plan;
use trace_plan::PlanFault;
use unit_check::check;
use unit_text::read_system;

/// Returns the plan of the system of a text that breaks no rule, or perhaps only that of cycles.
pub fn perhaps_plan(alloc: Global, text: &str) -> Result<Result<Plan, PlanFault>, Fail> {
    let read = read_system(alloc, text.as_bytes())?;
    let checked = check(alloc, read.system)?;
    Ok(Plan::new(alloc, checked))
}

/// Returns the plan of the system of a text that breaks no rule.
pub fn plan_of(alloc: Global, text: &str) -> Result<Arc<Plan>, Fail> {
    Ok(Arc::new(alloc, perhaps_plan(alloc, text)??)?)
}
