ghost use Rattle.std.specs.Prelude.{◌≡◌, ◌≤◌, ◌<◌, ◌++◌, ◌∷◌, [], length, true, false, slice_get, Some, IfOk, OnErr, OnOk, IsTrue, ◌≢◌, ◌↔◌, vec_len};
ghost use Rattle.std.specs.Vec.{vec_capacity};
ghost use Rattle.spec_core.specs.Events.{Happens, HasNoTicket, HasTicket};
ghost use Rattle.spec_core.specs.Keeping.{CanPost, HasFirstIn, MovesFirst, IsReplyToPublish, PostsFrom, TakesInto, reply_of_post, reply_of_take, tickets_of};
ghost use Rattle.spec_core.specs.Draining.{IsHandDrained};
ghost use Rattle.spec_core.specs.Tickets.{IsDrained};
ghost use Rattle.spec_core.specs.Worlds.{IsOpenedWorld, IsWorld};
ghost use Rattle.spec_core.specs.declared.event.Event.TheVariants as event;
ghost use Rattle.trace_core.specs.Runs.{AreCellsFull, is_ended};
ghost use Rattle.model_rules.specs.Limits.{window_limit, worker_limit};

use crate::event::{Event, Reply};
use crate::opening::{hands_of, lanes_of, units_of};
use fixed_words::NoMemory;
use guess_board::{Lane, LaneFault, Policy, Ticket, work_off};
use lane_outlook::{cut_window, outlook, publish_from};
use std::alloc::{AllocError, Global};
use std::marker::Model;
use std::sync::Arc;
use trace_core::{Phase, Plan, Run};
use unit_exec::Unit;

/// A run with the lanes of its instances, and the tickets in the hands of workers.
#[derive(Drop)]
pub struct World {
    plan: Arc<Plan>,
    run: Run,
    window: u32,
    policy: Policy,
    lanes: Vec<Lane>,
    /// The units that make the answers to tickets, one for each lane.
    units: Vec<Unit>,
    hands: Vec<Vec<Ticket>>,
}

impl Model for World {
    ghost use Rattle.std.specs.Coded.{codes};
    ghost use Rattle.spec_core.specs.Worlds.{WorldState};
    ghost use Rattle.unit_tree.specs.contracts.expr.Expr as expr;
    ghost use Rattle.unit_tree.specs.contracts.line.Line as line;

    ghost Value = { WorldState };

    ghost coded = { Prim.hlevel (codes, expr.the_row.coded, line.the_row.coded) };

    ghost use Rattle.spec_core.specs.Keeping.{world_state, IsKept};

    ghost view = { world_state };

    ghost invariant = { IsKept };
}

/// Returns whether a run has ended.
fn has_ended(run: &Run) -> bool
    ensures { result ≡ is_ended run.now.phase }
{
    matches!(run.phase(), Phase::Ended(_))
}

/// Returns whether all steps of the phase are made.
fn are_steps_there(run: &Run, instances: u32) -> bool
    requires { length run.now.cells ≤ instances }
    ensures { IsTrue result ↔ AreCellsFull run.now.cells }
{
    for instance in 0..instances {
        if run.is_wanted(instance) {
            return false;
        }
    }
    true
}

/// Appends a ticket to a hand that has space for it.
fn put_last(hand: &mut Vec<Ticket>, ticket: Ticket)
    requires { vec_len hand.old < vec_capacity hand.old }
    ensures { hand.new.items ≡ hand.old.items ++ ticket ∷ [] }
{
    let _ = hand.push(ticket);
}

/// Takes a ticket of a lane into a hand. Returns whether there was one.
fn take_into(alloc: Global, lane: &mut Lane, hand: &mut Vec<Ticket>) -> Result<bool, NoMemory>
    ensures taken { IfOk result (TakesInto lane.old hand.old.items lane.new hand.new.items) }
    ensures kept_lane { OnErr result (lane.new ≡ lane.old) }
    ensures kept_hand { OnErr result (hand.new.items ≡ hand.old.items) }
{
    hand.reserve(1)?;
    let Some(ticket) = lane.take(alloc)? else {
        return Ok(false);
    };
    put_last(hand, ticket);
    Ok(true)
}

/// Returns the reply to a take, by whether there was a ticket.
fn taken_or_refused(taken: Result<bool, NoMemory>) -> Result<Reply, NoMemory>
    ensures { result ≡ reply_of_take taken }
{
    match taken {
        Ok(true) => Ok(Reply::Taken),
        Ok(false) => Ok(Reply::Refused),
        Err(fault) => Err(fault),
    }
}

/// Returns the reply to a publish, which is refused where the lane is full.
fn published_or_refused(kept: Result<u32, LaneFault>) -> Result<Reply, NoMemory>
    ensures { IsReplyToPublish kept result }
{
    match kept {
        Ok(kept) => Ok(Reply::Published { kept }),
        Err(LaneFault::Full) => Ok(Reply::Refused),
        Err(LaneFault::NoMemory) => Err(AllocError),
    }
}

/// Moves the first ticket of a hand to the end of another one.
fn move_first(hands: &mut Vec<Vec<Ticket>>, to: usize, from: usize) -> Result<(), NoMemory>
    requires apart { to ≢ from }
    requires there { to < vec_len hands.old }
    requires some { HasFirstIn hands.old.items from }
    ensures moved { OnOk result (MovesFirst (tickets_of hands.old.items) to from (tickets_of hands.new.items)) }
    ensures kept { OnErr result (tickets_of hands.new.items ≡ tickets_of hands.old.items) }
{
    hands[to].reserve(1)?;
    let ticket = hands[from].remove(0);
    put_last(&mut hands[to], ticket);
    Ok(())
}

/// Posts the answers to the first ticket of a hand, made by a unit. `cells` is the greatest number of cells to answer.
fn post_from(
    alloc: Global,
    cells: u32,
    lane: &mut Lane,
    unit: &mut Unit,
    hand: &mut Vec<Ticket>,
) -> Result<u32, NoMemory>
    requires { CanPost lane.old unit.old hand.old.items }
    ensures posted { IfOk result (PostsFrom cells lane.old hand.old.items lane.new hand.new.items) }
    ensures kept_lane { OnErr result (lane.new ≡ lane.old) }
    ensures kept_hand { OnErr result (hand.new.items ≡ hand.old.items) }
    ensures image { unit.new.image ≡ unit.old.image }
{
    let mut answers = Vec::new(alloc);
    work_off(alloc, unit, lane.image(), &hand[0], cells, &mut answers)?;
    let ticket = hand.remove(0);
    match lane.post(ticket, answers) {
        Ok(appended) => Ok(appended),
        Err(_) => unreachable!(),
    }
}

/// Returns the reply to a post.
fn posted(appended: Result<u32, NoMemory>) -> Result<Reply, NoMemory>
    ensures { result ≡ reply_of_post appended }
{
    match appended {
        Ok(appended) => Ok(Reply::Posted { appended }),
        Err(fault) => Err(fault),
    }
}

impl World {
    /// Opens the world of a plan at its start, with so many workers: the run and the lanes of all instances are opened, and all
    /// hands are empty. Lines are guessed by the policy for `window` rows. They are shorter where there would be no memory for the
    /// answers of a long run of many instances.
    ///
    /// # Errors
    ///
    /// [`NoMemory`].
    pub fn open(
        alloc: Global,
        plan: Arc<Plan>,
        workers: u32,
        window: u32,
        policy: Policy,
    ) -> Result<World, NoMemory>
        requires workers { workers ≤ worker_limit }
        requires window { window ≤ window_limit }
        ensures opened { IfOk result (IsOpenedWorld plan.value workers window policy) }
        ensures kept { IfOk result IsWorld }
    {
        let run = Run::open(alloc, Arc::clone(&plan)?)?;
        let lanes = lanes_of(alloc, &plan)?;
        let units = units_of(alloc, &lanes)?;
        let hands = hands_of(alloc, workers)?;
        let window = cut_window(&plan, window);
        Ok(World {
            plan,
            run,
            window,
            policy,
            lanes,
            units,
            hands,
        })
    }

    /// Returns whether there is such a worker and it has a ticket.
    fn has_ticket(&self, worker: usize) -> bool
        ensures there { result ≡ true → HasTicket self.now worker }
        ensures not_there { result ≡ false → HasNoTicket self.now worker }
    {
        match self.hands.get(worker) {
            Some(hand) => !hand.is_empty(),
            None => false,
        }
    }

    /// Returns the run.
    pub fn run(&self) -> &Run
        ensures { result.now ≡ self.now.run }
    {
        &self.run
    }

    /// Returns the lane of an instance.
    pub fn lane(&self, instance: u32) -> &Lane
        requires { instance < length self.now.lanes }
        ensures { slice_get self.now.lanes instance ≡ Some result.now }
    {
        &self.lanes[instance as usize]
    }

    /// States the invariant of every world.
    pub fn facts(&self)
        ensures { IsWorld self.now }
    {
        let _ = &self.window;
    }

    /// Publishes the lane of an instance with the guesses at the run's stand.
    fn publish(&mut self, alloc: Global, instance: u32) -> Result<Reply, NoMemory>
        ensures happens { IfOk result (λ reply. Happens self.old (event.Publish instance) reply self.new) }
        ensures kept { OnErr result (self.new ≡ self.old) }
    {
        let place = instance as usize;
        if place >= self.lanes.len() {
            return Ok(Reply::Refused);
        }
        if has_ended(&self.run) {
            return Ok(Reply::Refused);
        }
        let seen = outlook(&self.plan, &self.run, instance);
        let state = self.run.state(instance);
        let lane = &mut self.lanes[place];
        let kept = publish_from(alloc, self.policy, self.window, seen, state, lane);
        self.lanes[place].facts();
        published_or_refused(kept)
    }

    /// A worker takes a ticket of an instance.
    fn take(&mut self, alloc: Global, worker: u32, instance: u32) -> Result<Reply, NoMemory>
        ensures happens { IfOk result (λ reply. Happens self.old (event.Take worker instance) reply self.new) }
        ensures kept { OnErr result (self.new ≡ self.old) }
    {
        let (at, place) = (worker as usize, instance as usize);
        if at >= self.hands.len() {
            return Ok(Reply::Refused);
        }
        if place >= self.lanes.len() {
            return Ok(Reply::Refused);
        }
        let taken = take_into(alloc, &mut self.lanes[place], &mut self.hands[at]);
        self.lanes[place].facts();
        taken_or_refused(taken)
    }

    /// A worker steals the first ticket of another one.
    fn steal(&mut self, worker: u32, from: u32) -> Result<Reply, NoMemory>
        ensures happens { IfOk result (λ reply. Happens self.old (event.Steal worker from) reply self.new) }
        ensures kept { OnErr result (self.new ≡ self.old) }
    {
        let (at, other) = (worker as usize, from as usize);
        if at == other {
            return Ok(Reply::Refused);
        }
        if at >= self.hands.len() {
            return Ok(Reply::Refused);
        }
        if !self.has_ticket(other) {
            return Ok(Reply::Refused);
        }
        move_first(&mut self.hands, at, other)?;
        Ok(Reply::Stolen)
    }

    /// A worker posts the answers to the first of its tickets, of at most so many cells.
    fn post(&mut self, alloc: Global, worker: u32, cells: u32) -> Result<Reply, NoMemory>
        ensures happens { IfOk result (λ reply. Happens self.old (event.Post worker cells) reply self.new) }
        ensures kept { OnErr result (self.new ≡ self.old) }
    {
        let at = worker as usize;
        if !self.has_ticket(at) {
            return Ok(Reply::Refused);
        }
        let place = self.hands[at][0].instance() as usize;
        let (lane, unit) = (&mut self.lanes[place], &mut self.units[place]);
        let appended = post_from(alloc, cells, lane, unit, &mut self.hands[at]);
        self.lanes[place].facts();
        posted(appended)
    }

    /// A worker gives back the first of its tickets.
    fn give_back(&mut self, worker: usize) -> Reply
        ensures { Happens self.old (event.Back worker) result self.new }
    {
        if !self.has_ticket(worker) {
            return Reply::Refused;
        }
        let ticket = self.hands[worker].remove(0);
        let place = ticket.instance() as usize;
        match self.lanes[place].back(ticket) {
            Ok(()) => {
                self.lanes[place].facts();
                Reply::Back
            }
            Err(_) => unreachable!(),
        }
    }

    /// The run looks for the required step of an instance.
    fn find(&mut self, instance: u32) -> Reply
        ensures { Happens self.old (event.Find instance) result self.new }
    {
        let Some(want) = self.run.wants(instance) else {
            return Reply::Refused;
        };
        let Some(one) = self.lanes[instance as usize].find(want) else {
            return Reply::Missed;
        };
        if !self.run.accept(instance, one) {
            unreachable!()
        }
        // Called for its clauses, which state the invariant of a run.
        let _ = self.run.phase();
        Reply::Found
    }

    /// The run makes the required step of an instance.
    fn compute(&mut self, instance: u32) -> Reply
        ensures { Happens self.old (event.Compute instance) result self.new }
    {
        if !self.run.is_wanted(instance) {
            return Reply::Refused;
        }
        self.run.compute(instance);
        // Called for its clauses, which state the invariant of a run.
        let _ = self.run.phase();
        Reply::Computed
    }

    /// The run settles.
    fn settle(&mut self) -> Reply
        ensures { Happens self.old event.Settle result self.new }
    {
        if has_ended(&self.run) {
            return Reply::Refused;
        }
        if !are_steps_there(&self.run, self.plan.instances()) {
            return Reply::Refused;
        }
        Reply::Settled(self.run.settle())
    }

    /// Applies an event, and returns its reply. A refused event changes nothing.
    ///
    /// # Errors
    ///
    /// [`NoMemory`]. The world is as before.
    pub fn apply(&mut self, alloc: Global, event: &Event) -> Result<Reply, NoMemory>
        ensures happens { IfOk result (λ reply. Happens self.old event.now reply self.new) }
        ensures kept { OnErr result (self.new ≡ self.old) }
    {
        match *event {
            Event::Publish { instance } => self.publish(alloc, instance),
            Event::Take { worker, instance } => self.take(alloc, worker, instance),
            Event::Steal { worker, from } => self.steal(worker, from),
            Event::Post { worker, cells } => self.post(alloc, worker, cells),
            Event::Back { worker } => Ok(self.give_back(worker as usize)),
            Event::Find { instance } => Ok(self.find(instance)),
            Event::Compute { instance } => Ok(self.compute(instance)),
            Event::Settle => Ok(self.settle()),
        }
    }

    /// A worker gives back all its tickets. Returns how many these were.
    fn drain_hand(&mut self, worker: usize) -> u64
        requires { worker < length self.old.hands }
        ensures { IsHandDrained self.old worker self.new result }
    {
        let tickets = self.hands[worker].len();
        for _ in 0..tickets {
            self.give_back(worker);
        }
        tickets as u64
    }

    /// All workers give back all their tickets, hand by hand from the first. Returns how many these were. The run and all answers
    /// stay.
    pub fn drain(&mut self) -> u64
        ensures { IsDrained self.old self.new result }
    {
        let mut count = 0;
        for worker in 0..self.hands.len() {
            count += self.drain_hand(worker);
        }
        self.facts();
        count
    }
}
