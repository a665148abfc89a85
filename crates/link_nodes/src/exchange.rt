//! Both nodes of a plan, and the exchange between them in a round.
ghost use Rattle.std.specs.Prelude.{◌≡◌, ◌∷◌, ◌&&◌, ◌==◌, [], List, Option, is_some, ℕ};
ghost use Rattle.link_laws.specs.Keeping.{PairKeepsTo};
ghost use Rattle.link_laws.specs.Pairs.{after_events};
ghost use Rattle.link_laws.specs.declared.pair_event.PairEvent.TheVariants.{Work};
ghost use Rattle.link_nodes.specs.Exchanges.{ExchangeComes, IsExchange, exchange_rule, pair_of};
ghost use Rattle.link_nodes.specs.Rounds.{after_round, closing_events, to_first, to_second};
ghost use Rattle.link_nodes.specs.ShownRows.{IsJudged};

use crate::arriving::{take_all, take_all_shown, work_shown};
use crate::row_room::{RowPrinter, judged};
use crate::spans::Spans;
use crate::transit::{Round, send};
use cosim_io::Sink;
use link_core::{Fact, Node};
use std::sync::Arc;
use trace_plan::Plan;
use trace_rows::CrewFault;

/// Both nodes of a plan, the facts on their way, and what rows are written with.
#[derive(Drop)]
pub(crate) struct Exchange {
    pub(crate) plan: Arc<Plan>,
    pub(crate) first: Node,
    pub(crate) second: Node,
    /// The spans of the facts of each node.
    pub(crate) first_spans: Spans,
    pub(crate) second_spans: Spans,
    pub(crate) transit: Vec<Fact>,
    pub(crate) room: RowPrinter,
}

impl Exchange {
    /// Lets both nodes work.
    fn work<O: Sink>(&mut self, out: &mut O) -> Result<(), CrewFault>
        requires { IsExchange self.old }
        ensures { ExchangeComes self.old (after_events (exchange_rule self.old) (pair_of self.old) (Work 0 ∷ Work 1 ∷ [])) self.new
            (O.held out.old) (O.held out.new) (O.faults out.old) (O.faults out.new) result }
    {
        work_shown(&mut self.room, &self.plan, &mut self.first, out)?;
        self.second.work()?;
        Ok(())
    }

    /// Lets facts of node 1 arrive at node 0. Where node 0 has ended it would drop all, so none are sent.
    fn tell_first<O: Sink>(&mut self, round: Round, out: &mut O) -> Result<(), CrewFault>
        requires { IsExchange self.old }
        ensures { ExchangeComes self.old (to_first (exchange_rule self.old) round.seed round.number (pair_of self.old)) self.new
            (O.held out.old) (O.held out.new) (O.faults out.old) (O.faults out.new) result }
    {
        if self.first.ended().is_some() {
            return Ok(());
        }
        let row = self.first.number();
        let facts = self.second.facts();
        self.second_spans.note(facts)?;
        let span = self.second_spans.span(row);
        send(facts, span, round, row, &mut self.transit)?;
        take_all_shown(
            &mut self.room,
            &self.plan,
            &mut self.first,
            &mut self.transit,
            out,
        )
    }

    /// Lets facts of node 0 arrive at node 1, in the same way.
    fn tell_second(&mut self, round: Round) -> Result<(), CrewFault>
        requires { IsExchange self.old }
        ensures { (held : Option (List ℕ)) (faults : ℕ)
            → ExchangeComes self.old (to_second (exchange_rule self.old) round.seed round.number (pair_of self.old)) self.new held held faults faults
            result }
    {
        if self.second.ended().is_some() {
            return Ok(());
        }
        let row = self.second.number();
        let facts = self.first.facts();
        self.first_spans.note(facts)?;
        let span = self.first_spans.span(row);
        send(facts, span, round, row, &mut self.transit)?;
        take_all(&self.plan, &mut self.second, &mut self.transit)?;
        Ok(())
    }

    /// Saves the position of node 1, or starts it again, in the rounds that do so.
    fn keep(&mut self, number: u64)
        requires { IsExchange self.old }
        ensures exchange { IsExchange self.new }
        ensures plan { self.new.plan.value ≡ self.old.plan.value }
        ensures pair { pair_of self.new ≡ after_events (exchange_rule self.old) (pair_of self.old) (closing_events number) }
    {
        if number % 5 == 0 {
            self.second.keep();
        }
        if number % 8 == 0 {
            self.second.restart();
        }
    }

    /// Returns whether node 0 has ended and node 1 is at its row.
    pub(crate) fn is_at_end(&self) -> bool
        requires { IsExchange self.now }
        ensures at_end { result ≡ (is_some self.now.first.progress.ended
            && (self.now.second.progress.at.number == self.now.first.progress.at.number)) }
        ensures keeps { PairKeepsTo self.now.plan.value.run (exchange_rule self.now) (pair_of self.now) }
        ensures judged { IsJudged self.now.plan.value }
    {
        judged(&self.plan);
        let first = self.first.number();
        let second = self.second.number();
        self.first.ended().is_some() && second == first
    }

    /// Makes a round.
    pub(crate) fn round<O: Sink>(&mut self, round: Round, out: &mut O) -> Result<(), CrewFault>
        requires { IsExchange self.old }
        ensures { ExchangeComes self.old (after_round (exchange_rule self.old) round.seed round.number (pair_of self.old)) self.new
            (O.held out.old) (O.held out.new) (O.faults out.old) (O.faults out.new) result }
    {
        self.work(out)?;
        self.tell_first(round, out)?;
        self.tell_second(round)?;
        self.keep(round.number);
        Ok(())
    }
}
