ghost use Rattle.std.specs.Prelude.{◌≡◌, ◌<◌, ◌≤◌, ◌^◌, length, IfOk, IfErr};
ghost use Rattle.model_rules.specs.Limits.{sample_limit};
ghost use Rattle.trace_csv.specs.Columns.{columns_of};
ghost use Rattle.trace_plan.specs.Faults.{IsRightPlanFault};
ghost use Rattle.trace_plan.specs.Laws.{HasTitles, HasRows};
ghost use Rattle.trace_plan.specs.Plans.{IsBounded, ForMember, HaveImages, lowest_words, highest_words, limited_in};
ghost use Rattle.unit_exec.specs.Images.{IsImageOf};
ghost use Rattle.unit_tree.specs.Compositions.{run_of};
ghost use Rattle.unit_tree.specs.Routes.{IsOrderOf};
ghost use Rattle.unit_tree.specs.WellFormed.{resolution_of};

use crate::columns::columns;
use crate::fault::PlanFault;
use crate::fitting::{Fitted, all_fitted, factors, limited};
use crate::numbers::{Numbers, numbers_of};
use crate::ordering::order_of;
use fixed_words::NoMemory;
use std::alloc::Global;
use std::marker::Model;
use std::sync::Arc;
use unit_exec::Image;
use unit_tree::{Checked, Column, Order};

/// A system that can be run, with all that its run needs.
#[derive(Drop)]
pub struct Plan {
    checked: Checked,
    order: Order,
    fitted: Vec<Fitted>,
    /// The factor of each instance. They are also kept here, in one list, since a run reads all of them at each row.
    factors: Vec<u64>,
    /// The instances that set a limit to steps.
    limited: Vec<u32>,
    columns: Vec<Column>,
    numbers: Numbers,
}

impl Model for Plan {
    ghost use Rattle.std.specs.Coded.{codes};
    ghost use Rattle.trace_plan.specs.Plans.{Planned};
    ghost use Rattle.unit_tree.specs.contracts.expr.Expr as expr;
    ghost use Rattle.unit_tree.specs.contracts.line.Line as line;

    ghost Value = { Planned };

    ghost coded = { Prim.hlevel (codes, expr.the_row.coded, line.the_row.coded) };

    ghost use Rattle.trace_plan.specs.Keeps.{planned, IsPlan};

    ghost view = { planned };

    ghost invariant = { IsPlan };
}

impl Plan {
    /// Returns the plan of a system.
    ///
    /// # Errors
    ///
    /// [`PlanFault::Loop`] where some output has no order, since it is on a cycle of needs or needs one that is: it names the
    /// first such output. The call may fail for lack of memory at any time.
    pub fn new(alloc: Global, checked: Checked) -> Result<Plan, PlanFault>
        ensures plan { IfOk result (λ plan. plan.system ≡ checked) }
        ensures fault { IfErr result (IsRightPlanFault checked) }
    {
        let order = order_of(alloc, &checked)?;
        Ok(Plan::ordered(alloc, checked, order)?)
    }

    /// Returns the plan of a system by an order of its outputs that the caller has. It may fail for lack of memory at any time.
    pub fn ordered(alloc: Global, checked: Checked, order: Order) -> Result<Plan, NoMemory>
        requires { IsOrderOf (run_of checked) order }
        ensures { IfOk result (λ plan. plan.system ≡ checked) }
    {
        let fitted = all_fitted(alloc, &checked)?;
        let factors = factors(alloc, &fitted)?;
        let limited = limited(alloc, &fitted)?;
        let columns = columns(alloc, &checked)?;
        let numbers = numbers_of(&checked);
        Ok(Plan {
            checked,
            order,
            fitted,
            factors,
            limited,
            columns,
            numbers,
        })
    }

    /// Returns the system.
    pub fn checked(&self) -> &Checked
        ensures system { result.now ≡ self.now.system }
        ensures run { self.now.run ≡ run_of self.now.system }
    {
        &self.checked
    }

    /// Returns an order of its outputs, with the routes of all ports.
    pub fn order(&self) -> &Order
        ensures { IsOrderOf self.now.run result.now }
    {
        &self.order
    }

    /// Returns how many instances there are: from 1 to 64. Each has an image.
    pub fn instances(&self) -> u32
        ensures count { result ≡ length self.now.run.members }
        ensures bounded { IsBounded self.now.run }
        ensures images { HaveImages self.now.run }
    {
        self.fitted.len() as u32
    }

    /// Returns the image of an instance.
    pub fn image(&self, instance: u32) -> &Arc<Image>
        requires there { instance < length self.now.run.members }
        ensures { ForMember self.now.run instance (λ member. IsImageOf member.component result.now.value) }
    {
        &self.fitted[instance as usize].image
    }

    /// Returns how many ticks of the system one local tick of an instance is.
    pub fn factor(&self, instance: u32) -> u64
        requires there { instance < length self.now.run.members }
        ensures factor { ForMember self.now.run instance (λ member. result ≡ member.factor) }
        ensures least { 1 ≤ result }
        ensures coarsest { result ≤ 10 ^ 9 }
    {
        self.factors[instance as usize]
    }

    /// Returns the instances whose units set a limit to their steps by `max`, in their order.
    pub fn limited(&self) -> &[u32]
        ensures { result.now ≡ limited_in self.now.run }
    {
        &self.limited
    }

    /// Returns the lowest and the highest words of the types of an instance's inputs, in their order.
    pub fn input_ends(&self, instance: u32) -> (&[i64], &[i64])
        requires there { instance < length self.now.run.members }
        ensures low { ForMember self.now.run instance (λ member. result.0.now ≡ lowest_words member) }
        ensures high { ForMember self.now.run instance (λ member. result.1.now ≡ highest_words member) }
    {
        let fitted = &self.fitted[instance as usize];
        (&fitted.low, &fitted.high)
    }

    /// Returns the columns of the trace, at most 2,048. Each is an output of the system. Where ports are right and all have words, it
    /// has a word of its type. So the header and the rows can be printed.
    pub fn columns(&self) -> &[Column]
        ensures columns { result.now ≡ columns_of self.now.system }
        ensures few { length result.now ≤ sample_limit }
        ensures titles { HasTitles self.now.system }
        ensures rows { HasRows self.now.system }
    {
        // Called for its clauses, which state that the system is judged.
        let _ = self.checked.system();
        &self.columns
    }

    /// Returns the resolution of the system: a tick is ten to the power of minus this many seconds.
    pub fn resolution(&self) -> u8
        ensures value { result ≡ resolution_of self.now.system }
        ensures most { result ≤ 9 }
    {
        self.numbers.resolution
    }

    /// Returns the stop: where the run ends, in ticks.
    pub fn stop(&self) -> u64
        ensures value { result ≡ self.now.run.stop }
        ensures bounded { IsBounded self.now.run }
    {
        self.numbers.stop
    }

    /// Returns the longest step, in ticks.
    pub fn longest(&self) -> u64
        ensures value { result ≡ self.now.run.longest }
        ensures bounded { IsBounded self.now.run }
    {
        self.numbers.longest
    }

    /// Returns how many steps of length zero may follow each other.
    pub fn zero_budget(&self) -> u64
        ensures value { result ≡ self.now.run.zero_budget }
        ensures bounded { IsBounded self.now.run }
    {
        self.numbers.zero_budget
    }

    /// Returns the greatest number of rows of the trace.
    pub fn row_limit(&self) -> u64
        ensures value { result ≡ self.now.run.row_budget }
        ensures bounded { IsBounded self.now.run }
    {
        self.numbers.row_limit
    }
}
