//! Lanes and their tickets: which answers are kept when a lane is published again, and what is cut, appended, found and refused.
use crate::answering::{answer_to, want_of};
use crate::fronts::{line, publish};
use crate::script::{numbers_of, words_of};
use fixed_words::NoMemory;
use guess_board::{Cell, Lane, Ticket};
use std::alloc::{AllocError, Global};
use std::sync::Arc;
use std::test::Fail;
use trace_core::{Plan, Run};
use unit_answers::{Answer, Proven};
use unit_exec::{Image, Want};

/// Two lanes of the first component of a plan, as those of the instances 0 and 1, and the tickets that they made.
#[derive(Drop)]
struct Desk {
    lanes: [Lane; 2],
    tickets: Vec<Ticket>,
}

impl Desk {
    /// Returns the lane with a number, 0 or 1.
    fn lane(&mut self, number: u32) -> &mut Lane {
        &mut self.lanes[number as usize % 2]
    }

    /// Removes and returns the ticket at a place among those that were taken.
    fn ticket(&mut self, place: u32) -> Result<Ticket, Fail> {
        let place = place as usize;
        if place >= self.tickets.len() {
            Err("there is no such ticket")?;
        }
        Ok(self.tickets.remove(place))
    }

    /// Adds a ticket after the others.
    fn keep(&mut self, ticket: Ticket) -> Result<(), NoMemory> {
        self.tickets.push(ticket).map_err(AllocError::from)
    }
}

/// Returns the state after an answer; after a fault, the one from which it was made.
fn state_after(alloc: Global, one: &Proven) -> Result<Vec<i64>, NoMemory> {
    match one.answer() {
        Answer::Moved { state, .. } => Ok(Vec::from_slice(alloc, state.as_slice())?),
        Answer::Failed { .. } => Ok(Vec::from_slice(alloc, one.key().state.as_slice())?),
    }
}

/// Appends the answer to a cell from a state, and returns the state after it.
fn put_answer(
    alloc: Global,
    image: &Arc<Image>,
    state: &[i64],
    cell: &Cell,
    answers: &mut Vec<Proven>,
) -> Result<Vec<i64>, Fail> {
    let want = Want {
        row: cell.row,
        image,
        state,
        inputs: cell.inputs.as_slice(),
        time: cell.time,
        step: cell.step,
    };
    let one = answer_to(alloc, want)?;
    let after = state_after(alloc, &one);
    answers.push(one)?;
    Ok(after?)
}

/// Appends the answers to the cells of a ticket, each from the state after the one before.
fn put_answers(
    alloc: Global,
    image: &Arc<Image>,
    ticket: &Ticket,
    answers: &mut Vec<Proven>,
) -> Result<(), Fail> {
    let mut state = Vec::from_slice(alloc, ticket.start())?;
    for cell in ticket.cells() {
        state = put_answer(alloc, image, &state, cell, answers)?;
    }
    Ok(())
}

/// Prints the rows of the cells of a ticket.
fn print_rows(rt: &HostRuntime, ticket: &Ticket) -> Result<(), Fail> {
    print!(rt; " rows")?;
    for cell in ticket.cells() {
        print!(rt; " {}", cell.row)?;
    }
    println!(rt; "")?;
    Ok(())
}

/// Takes a ticket, and prints the rows of its cells.
fn take(rt: &HostRuntime, desk: &mut Desk, number: u32) -> Result<(), Fail> {
    let Some(ticket) = desk.lane(number).take(rt.alloc())? else {
        println!(rt; " no ticket")?;
        return Ok(());
    };
    let printed = print_rows(rt, &ticket);
    let kept = desk.keep(ticket);
    printed?;
    Ok(kept?)
}

/// Adds a ticket that a lane returned, and prints that it is not of this lane.
fn keep_back(rt: &HostRuntime, desk: &mut Desk, back: Ticket) -> Result<(), Fail> {
    let kept = desk.keep(back);
    println!(rt; " not of this lane")?;
    Ok(kept?)
}

/// Posts the answers to all cells of a ticket, and prints how many were appended.
fn post(rt: &HostRuntime, desk: &mut Desk, number: u32, place: u32) -> Result<(), Fail> {
    let ticket = desk.ticket(place)?;
    let lane = desk.lane(number);
    let mut answers = Vec::new(rt.alloc());
    let put = put_answers(rt.alloc(), lane.image(), &ticket, &mut answers);
    match put {
        Ok(()) => match lane.post(ticket, answers) {
            Ok(appended) => println!(rt; " appended {appended}")?,
            Err(back) => keep_back(rt, desk, back)?,
        },
        Err(error) => {
            drop(ticket);
            drop(answers);
            Err(error)?
        }
    }
    Ok(())
}

/// Gives a ticket back.
fn give_back(rt: &HostRuntime, desk: &mut Desk, number: u32, place: u32) -> Result<(), Fail> {
    let ticket = desk.ticket(place)?;
    match desk.lane(number).back(ticket) {
        Ok(()) => println!(rt; " back")?,
        Err(back) => keep_back(rt, desk, back)?,
    }
    Ok(())
}

/// Returns whether the first answer of a lane is that of a step of 1.
fn finds(lane: &Lane, row: u32, state: u32, input: u32, time: u32) -> bool {
    let want = Want {
        row: u64::from(row),
        image: lane.image(),
        state: &[i64::from(state)],
        inputs: &[i64::from(input)],
        time: u64::from(time),
        step: 1,
    };
    lane.find(want).is_some()
}

/// Makes a call of the lane with a number.
fn ask(rt: &HostRuntime, desk: &mut Desk, name: &str, numbers: &[u32]) -> Result<(), Fail> {
    match (name, numbers) {
        ("publish", [number, row, state, input, rows @ ..]) => {
            let front = line(rt.alloc(), rows, i64::from(*input))?;
            let state = [i64::from(*state)];
            let kept = publish(
                rt.alloc(),
                desk.lane(*number),
                u64::from(*row),
                &state,
                front,
            )?;
            println!(rt; " kept {kept}")?
        }
        ("take", [number]) => take(rt, desk, *number)?,
        ("post", [number, place]) => post(rt, desk, *number, *place)?,
        ("back", [number, place]) => give_back(rt, desk, *number, *place)?,
        ("find", [number, row, state, input, time]) => {
            let found = finds(desk.lane(*number), *row, *state, *input, *time);
            println!(rt; " {found}")?
        }
        ("counts", [number]) => println!(rt; " {:?}", desk.lane(*number).counts())?,
        _ => Err("no such call of a lane")?,
    }
    Ok(())
}

/// Makes a call with these words: its name, the number of a lane, and further numbers.
fn make_call(rt: &HostRuntime, desk: &mut Desk, words: &[&str]) -> Result<(), Fail> {
    let [name, given @ ..] = words else {
        return Ok(());
    };
    let numbers = numbers_of(rt.alloc(), given)?;
    let made = ask(rt, desk, name, &numbers);
    drop(numbers);
    made
}

/// Prints and makes each call.
fn make_each(rt: &HostRuntime, desk: &mut Desk, calls: &str) -> Result<(), Fail> {
    for call in calls.lines() {
        print!(rt; "{call}:")?;
        let words = words_of(rt.alloc(), call)?;
        let made = make_call(rt, desk, &words);
        drop(words);
        made?;
    }
    Ok(())
}

/// Returns the image of the first component of a run.
fn first_image(run: &Run) -> Result<Arc<Image>, Fail> {
    Ok(Arc::clone(want_of(run, 0)?.image)?)
}

/// Returns the image of the first component of a plan.
fn image_of(alloc: Global, plan: Arc<Plan>) -> Result<Arc<Image>, Fail> {
    let run = Run::open(alloc, plan)?;
    let image = first_image(&run);
    drop(run);
    image
}

/// Returns two lanes with an image, as those of the instances 0 and 1.
fn lanes_of(alloc: Global, image: Arc<Image>) -> Result<[Lane; 2], NoMemory> {
    let first = Lane::open(alloc, Arc::clone(&image)?, 0)?;
    match Lane::open(alloc, image, 1) {
        Ok(second) => Ok([first, second]),
        Err(error) => {
            drop(first);
            Err(error)
        }
    }
}

/// Makes calls of two lanes of the first component of a plan.
pub(crate) fn make_calls(rt: &HostRuntime, plan: Arc<Plan>, calls: &str) -> Result<(), Fail> {
    let image = image_of(rt.alloc(), plan)?;
    let mut desk = Desk {
        lanes: lanes_of(rt.alloc(), image)?,
        tickets: Vec::new(rt.alloc()),
    };
    let made = make_each(rt, &mut desk, calls);
    drop(desk);
    made
}
