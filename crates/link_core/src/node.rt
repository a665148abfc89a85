//! A node.
ghost use Rattle.std.specs.List.{AllByRecursion};
ghost use Rattle.std.specs.Prelude.{◌≡◌, ◌≤◌, true, length, Some, None, IfOk, OnErr, IfSome, IfNone};
ghost use Rattle.link_laws.specs.Keeping.{IsHonest, KeepsTo};
ghost use Rattle.link_laws.specs.Lengths.{is_short};
ghost use Rattle.link_laws.specs.Making.{rule_of};
ghost use Rattle.link_core.specs.NodeStates.{IsSameNode};
ghost use Rattle.link_laws.specs.Nodes.{keeping, opened, restarted, taken, worked};
ghost use Rattle.unit_tree.specs.Successor.{first_position};

use crate::course::{Kept, NodePosition};
use crate::keeping::{keep_states, restore_states};
use crate::lengths::read_plan;
use crate::notes::Notes;
use crate::opening::{course_of, notes_of, states_of, units_of};
use crate::taking::{drops, learn_fact};
use crate::working::{judged, work_on};
use fixed_words::{List, NoMemory};
use link_laws::{Fact, Taken};
use std::alloc::{AllocError, Global};
use std::marker::Model;
use std::sync::Arc;
use super_time::Point;
use trace_plan::Plan;
use trace_units::Units;
use unit_tree::Ending;

/// A row of the trace: a point, and the words of all outputs there by their places.
#[derive(Clone, Copy, Debug)]
pub struct NodeRow<'a> {
    pub point: Point,
    pub words: &'a [i64],
}

/// One of the two nodes that run a system together: it owns some of the instances, and learns facts of the others.
///
/// Its units of the other's instances stay at their start and make no steps. Their inputs are set like all others.
#[derive(Drop)]
pub struct Node {
    plan: Arc<Plan>,
    owners: List<u8>,
    me: u8,
    units: Units,
    notes: Notes,
    course: NodePosition,
    kept: Kept,
    /// Memory for the states before a trial.
    before: Vec<Vec<i64>>,
}

impl Model for Node {
    ghost use Rattle.std.specs.Coded.{codes};
    ghost use Rattle.link_core.specs.NodeStates.{NodeState};
    ghost use Rattle.unit_tree.specs.contracts.expr.Expr as expr;
    ghost use Rattle.unit_tree.specs.contracts.line.Line as line;

    ghost Value = { NodeState };

    ghost coded = { Prim.hlevel (codes, expr.the_row.coded, line.the_row.coded) };

    ghost use Rattle.link_core.specs.Inner.{node_state, IsNode};

    ghost view = { node_state };

    ghost invariant = { IsNode };
}

impl Node {
    /// Opens node 0 or 1 at the start of a plan. `owners` has, for each instance, the number of the node that owns it.
    ///
    /// # Errors
    ///
    /// [`NoMemory`], also where there are more outputs than the numbers of facts allow.
    pub fn open(alloc: Global, plan: Arc<Plan>, owners: List<u8>, me: u8) -> Result<Node, NoMemory>
        requires owners { length owners ≡ length plan.value.run.members }
        requires one_or_other { AllByRecursion (λ owner. owner ≤ 1) owners }
        requires me { me ≤ 1 }
        ensures { IfOk result (λ node. node ≡ record {
          plan = plan.value;
          owners = owners;
          me = me;
          progress = opened (rule_of plan.value.run owners) me (first_position plan.value.run);
        }) }
    {
        judged(&plan);
        // Called for its clause, which states that the numbers of a plan are words.
        read_plan(&plan);
        let places = plan.order().routes().outputs.len();
        if places as u64 > 4_294_967_296 {
            return Err(AllocError);
        }
        let instances = plan.instances() as usize;
        let shared = Arc::clone(&plan)?;
        let units = units_of(alloc, &plan, shared)?;
        // Called for its clauses, which state how long the lists of the units are.
        let _ = units.count();
        let notes = notes_of(alloc, places, instances)?;
        let course = course_of(alloc, places)?;
        let before = states_of(alloc, &units)?;
        let kept = Kept {
            point: Point { t: 0, n: 0 },
            number: 0,
            states: states_of(alloc, &units)?,
        };
        Ok(Node {
            plan,
            owners,
            me,
            units,
            notes,
            course,
            kept,
            before,
        })
    }

    /// Makes all facts of its own for the row that the known ones allow and that it hasn't made since it came there, and lists them:
    /// words, limits, replies, and those of a redo. Where no fact of the row is then missing, it goes on to the next row, or the trace
    /// ends there.
    ///
    /// # Errors
    ///
    /// [`NoMemory`]: nothing changed.
    pub fn work(&mut self) -> Result<Taken, NoMemory>
        ensures worked { IfOk result (λ answer. (self.new.progress, answer)
            ≡ worked (rule_of self.old.plan.run self.old.owners) self.old.me self.old.progress) }
        ensures same { IsSameNode self.old self.new }
        ensures refused { OnErr result (self.new ≡ self.old) }
    {
        if self.course.ended.is_some() {
            return Ok(Taken::Ended);
        }
        self.notes.reserve()?;
        judged(&self.plan);
        Ok(work_on(
            &self.plan,
            &mut self.units,
            &mut self.before,
            &mut self.notes,
            &mut self.course,
            self.owners.as_slice(),
            self.me,
        ))
    }

    /// Takes a fact. It is dropped where the node has ended, the fact is of another row, its item isn't one of an instance that the other
    /// node owns, or the item is known. Otherwise it is known from now on, and the node works.
    ///
    /// # Errors
    ///
    /// [`NoMemory`]: nothing changed.
    pub fn take(&mut self, fact: &Fact) -> Result<Taken, NoMemory>
        requires honest { IsHonest self.old.plan.run fact.now }
        ensures taken { IfOk result (λ answer. (self.new.progress, answer)
            ≡ taken (rule_of self.old.plan.run self.old.owners) self.old.me self.old.progress fact.now) }
        ensures same { IsSameNode self.old self.new }
        ensures refused { OnErr result (self.new ≡ self.old) }
    {
        let owners = self.owners.as_slice();
        if drops(
            &self.plan,
            &self.notes,
            &self.course,
            owners,
            self.me,
            *fact,
        ) {
            return Ok(Taken::Dropped);
        }
        self.notes.reserve()?;
        judged(&self.plan);
        learn_fact(&self.plan, &mut self.units, &mut self.notes, *fact);
        Ok(work_on(
            &self.plan,
            &mut self.units,
            &mut self.before,
            &mut self.notes,
            &mut self.course,
            self.owners.as_slice(),
            self.me,
        ))
    }

    /// Saves the present position.
    pub fn keep(&mut self)
        ensures kept { self.new.progress ≡ keeping self.old.progress }
        ensures same { IsSameNode self.old self.new }
    {
        // Called for its clauses, which state how long the lists of the units are.
        let _ = self.units.count();
        keep_states(&self.units, &mut self.kept.states);
        self.kept.point = self.course.point;
        self.kept.number = self.course.number;
    }

    /// Starts again from the position that was saved last, or from the first one. It forgets what it knows of the row, and an end that it
    /// reached.
    pub fn restart(&mut self)
        ensures restarted { self.new.progress ≡ restarted (rule_of self.old.plan.run self.old.owners) self.old.progress }
        ensures same { IsSameNode self.old self.new }
    {
        judged(&self.plan);
        restore_states(&mut self.units, &self.kept.states);
        self.notes.clear();
        self.course.point = self.kept.point;
        self.course.number = self.kept.number;
        self.course.ended = None;
        self.course.shown.there = false;
    }

    /// Returns all facts that it ever made, in their order.
    pub fn facts(&self) -> &[Fact]
        ensures facts { result.now ≡ self.now.progress.facts }
        ensures honest { AllByRecursion (IsHonest self.now.plan.run) result.now }
        ensures short { AllByRecursion (λ fact. is_short fact ≡ true) result.now }
    {
        judged(&self.plan);
        &self.notes.facts
    }

    /// Returns the number of its row, from 0.
    pub fn number(&self) -> u64
        ensures number { result ≡ self.now.progress.at.number }
        ensures keeps { KeepsTo self.now.plan.run (rule_of self.now.plan.run self.now.owners) self.now.me self.now.progress }
    {
        self.course.number
    }

    /// Returns its point.
    pub fn point(&self) -> Point
        ensures { result ≡ self.now.progress.at.point }
    {
        self.course.point
    }

    /// Returns how the trace ended there, where the node has ended.
    pub fn ended(&self) -> Option<Ending>
        ensures { result ≡ self.now.progress.ended }
    {
        self.course.ended
    }

    /// Returns the row that it came to last since it started, or at which it ended. There is none where an output has a fault.
    pub fn row(&self) -> Option<NodeRow<'_>>
        ensures some { IfSome result (λ row. self.now.progress.row ≡ Some (record { point = row.point; words = row.words.now })) }
        ensures none { IfNone result (self.now.progress.row ≡ None) }
    {
        if !self.course.shown.there {
            return None;
        }
        Some(NodeRow {
            point: self.course.shown.point,
            words: &self.course.shown.words,
        })
    }
}
