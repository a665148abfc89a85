//! The lanes of a run, which its threads share.
ghost use Rattle.std.specs.Prelude.{◌≡◌, ◌+◌, ◌^◌, ◌≤◌, vec_len};
ghost use Rattle.model_rules.specs.Limits.{instance_limit};

use crate::offer::Offer;
use fixed_words::NoMemory;
use guess_board::{Lane, LaneCounts, Ticket};
use std::alloc::Global;
use std::sync::{Arc, Mutex, Wait};
use trace_core::Plan;
use unit_answers::Proven;

/// A lane for each instance, under a lock of its own. No thread holds two locks.
///
/// A lock's lane has the invariant of every lane. No clause says of which instance it is, so its user has to test that.
///
/// A lane makes tickets only while it is offered. The run withdraws a lane whose required step it makes itself, so that no worker
/// makes that step too. Whether a lane is offered changes how much work is done twice, and nothing else.
#[derive(Drop)]
pub struct Desk {
    lanes: Vec<Mutex<Lane>>,
    /// One for each lane.
    offers: Vec<Offer>,
    ghost few: { vec_len lanes ≤ instance_limit },
}

/// How many tickets were made, and how they ended.
#[derive(Clone, Copy)]
pub struct TicketSums {
    pub tickets: u64,
    pub posted: u64,
    pub back: u64,
    /// Those that were neither posted nor given back.
    pub lapsed: u64,
}

/// Adds the counts of a lane. Its other tickets lapsed.
fn add(sums: TicketSums, counts: LaneCounts) -> TicketSums
    requires tickets { counts.tickets ≤ 2 ^ 32 }
    requires ended { counts.posted + counts.back ≤ counts.tickets }
    requires few { sums.tickets ≤ 2 ^ 62 }
    requires told { sums.tickets ≡ sums.posted + sums.back + sums.lapsed }
    ensures told { result.tickets ≡ result.posted + result.back + result.lapsed }
    ensures few { result.tickets ≤ sums.tickets + 2 ^ 32 }
{
    TicketSums {
        tickets: sums.tickets + counts.tickets,
        posted: sums.posted + counts.posted,
        back: sums.back + counts.back,
        lapsed: sums.lapsed + (counts.tickets - counts.posted - counts.back),
    }
}

/// Returns the offers of so many lanes, which are withdrawn.
fn no_offers(alloc: Global, instances: u32) -> Result<Vec<Offer>, NoMemory> {
    let mut offers = Vec::with_capacity(alloc, instances as usize)?;
    for _ in 0..instances {
        offers.push(Offer::new())?;
    }
    Ok(offers)
}

impl Desk {
    /// Opens the lanes of a plan. None is offered.
    pub fn open(alloc: Global, plan: &Plan) -> Result<Desk, NoMemory> {
        let mut lanes = Vec::new(alloc);
        for instance in 0..plan.instances() {
            let image = Arc::clone(plan.image(instance))?;
            lanes.push(Mutex::new(Lane::open(alloc, image, instance)?))?;
        }
        let offers = no_offers(alloc, plan.instances())?;
        Ok(Desk { lanes, offers })
    }

    /// Returns how many lanes there are.
    pub fn len(&self) -> usize
        ensures { result ≤ instance_limit }
    {
        self.lanes.len()
    }

    /// Returns the lock of an instance's lane, or `None` where there is no such instance.
    pub fn lane(&self, instance: u32) -> Option<&Mutex<Lane>> {
        self.lanes.get(instance as usize)
    }

    /// Returns the offer of an instance's lane, or `None` where there is no such instance.
    fn offer_of(&self, instance: u32) -> Option<&Offer> {
        self.offers.get(instance as usize)
    }

    /// Offers the lane of an instance, whose lock the caller has left.
    pub fn offer(&self, instance: u32) {
        if let Some(offer) = self.offer_of(instance) {
            offer.make();
        }
    }

    /// Withdraws the lane of an instance. A ticket that it made before can still be posted.
    pub fn withdraw(&self, instance: u32) {
        if let Some(offer) = self.offer_of(instance) {
            offer.withdraw();
        }
    }

    /// Returns whether the lane of an instance is offered at this moment.
    pub fn is_offered(&self, instance: u32) -> bool {
        match self.offer_of(instance) {
            Some(offer) => offer.is_made(),
            None => false,
        }
    }

    /// Returns a ticket of an instance, if its lane is offered and makes one.
    pub fn take<R: Wait>(
        &self,
        rt: &R,
        alloc: Global,
        instance: u32,
    ) -> Result<Option<Ticket>, NoMemory> {
        let (Some(lane), Some(offer)) = (self.lane(instance), self.offer_of(instance)) else {
            return Ok(None);
        };
        if !offer.is_open() {
            return Ok(None);
        }
        let mut lane = lane.lock(rt);
        let made = lane.take(alloc);
        offer.take();
        made
    }

    /// Posts the answers to a ticket. A ticket that its lane refuses is dropped.
    pub fn post<R: Wait>(&self, rt: &R, ticket: Ticket, answers: Vec<Proven>) {
        let instance = ticket.instance();
        if let (Some(lane), Some(offer)) = (self.lane(instance), self.offer_of(instance)) {
            let mut lane = lane.lock(rt);
            let _ = lane.post(ticket, answers);
            offer.renew();
        }
    }

    /// Gives a ticket back.
    pub fn back<R: Wait>(&self, rt: &R, ticket: Ticket) {
        let instance = ticket.instance();
        if let (Some(lane), Some(offer)) = (self.lane(instance), self.offer_of(instance)) {
            let mut lane = lane.lock(rt);
            let _ = lane.back(ticket);
            offer.renew();
        }
    }

    /// Returns the sums over all lanes, one after the other.
    pub fn sums<R: Wait>(&self, rt: &R) -> TicketSums
        ensures { result.tickets ≡ result.posted + result.back + result.lapsed }
    {
        let mut sums = TicketSums {
            tickets: 0,
            posted: 0,
            back: 0,
            lapsed: 0,
        };
        for place in 0..self.lanes.len() {
            sums = add(sums, self.lanes[place].lock(rt).counts());
        }
        sums
    }
}
