ghost use Rattle.std.specs.Prelude.{◌≡◌, ◌+◌, ◌≤◌, ◌<◌, ◌^◌, length, Some, IfOk, slice_set};
ghost use Rattle.code_units.specs.Calls.{output_by, greatest_step_by};
ghost use Rattle.unit_exec.specs.Running.{opened, Steps};

use crate::calls::{given, put, run_on, take_first};
use crate::image::Image;
use fixed_words::{Fault, NoMemory};
use std::alloc::Global;
use std::marker::Model;
use std::sync::Arc;
use unit_vm::{Entry, Frame};

/// A unit that runs: its image, its state, and the words of its inputs.
///
/// [`Unit::get`], [`Unit::max_step`] and [`Unit::do_step`] return the results of runs of the image's code. The runs are made in
/// one frame, which is made with the unit. Only [`Unit::new`] takes memory.
#[derive(Drop)]
pub struct Unit {
    image: Arc<Image>,
    state: Vec<i64>,
    inputs: Vec<i64>,
    frame: Frame,
}

impl Model for Unit {
    ghost use Rattle.unit_exec.specs.Running.{Running, HasFrameFor};

    ghost Value = { Running };

    ghost view = { λ u. record { image = u.image.value; state = u.state.items; inputs = u.inputs.items } };

    ghost invariant = { λ u. HasFrameFor u.image.value u.frame u.state.items u.inputs.items };
}

impl Unit {
    /// Returns a unit at its start: with the start words of its states and inputs.
    pub fn new(alloc: Global, image: Arc<Image>) -> Result<Unit, NoMemory>
        ensures { IfOk result (λ unit. unit ≡ opened image.value) }
    {
        let frame = Frame::new(alloc, image.code().facts())?;
        let state = Vec::from_slice(alloc, image.start())?;
        let inputs = Vec::from_slice(alloc, image.start_inputs())?;
        Ok(Unit {
            image,
            state,
            inputs,
            frame,
        })
    }

    /// Returns the state. Takes no memory.
    pub fn state(&self) -> &[i64]
        ensures value { result.now ≡ self.now.state }
        ensures each { length self.now.state ≡ self.now.image.program.sizes.states }
    {
        self.state.as_slice()
    }

    /// Returns the words of the inputs. Takes no memory.
    pub fn inputs(&self) -> &[i64]
        ensures value { result.now ≡ self.now.inputs }
        ensures each { length self.now.inputs ≡ self.now.image.program.sizes.inputs }
    {
        self.inputs.as_slice()
    }

    /// Sets the word of an input.
    pub fn set(&mut self, input: u32, word: i64)
        requires { input < length self.old.inputs }
        ensures { self.new ≡ record self.old { inputs = slice_set self.old.inputs input word } }
    {
        self.inputs[input as usize] = word;
    }

    /// Returns the word of an output, or its fault. State and inputs stay.
    pub fn get(&mut self, output: u32) -> Result<i64, Fault>
        requires { output < length self.old.image.program.outputs }
        ensures gives { output_by self.old.image.program self.old.state self.old.inputs output ≡ Some result }
        ensures kept { self.new ≡ self.old }
    {
        let image: &Image = &self.image;
        if let Some((slot, ty)) = image.shown(output) {
            return given(ty, self.state[slot as usize]);
        }
        run_on(
            image.code(),
            Entry::Output(output),
            &mut self.frame,
            self.state.as_slice(),
            self.inputs.as_slice(),
            0,
            0,
        )?;
        Ok(self.frame.result())
    }

    /// Returns the limit of the unit at the local time `t`, in local ticks, or the fault of its `max`. `None` where the unit has no
    /// `max`. State and inputs stay.
    pub fn max_step(&mut self, t: u64) -> Result<Option<u64>, Fault>
        requires { t ≤ 10 ^ 15 }
        ensures gives { greatest_step_by self.old.image.program self.old.state self.old.inputs t ≡ Some result }
        ensures kept { self.new ≡ self.old }
    {
        let image: &Image = &self.image;
        if let Some(limit) = image.steady_limit() {
            return Ok(Some(limit));
        }
        if image.code().program().limit.is_none() {
            return Ok(None);
        }
        run_on(
            image.code(),
            Entry::Limit,
            &mut self.frame,
            self.state.as_slice(),
            self.inputs.as_slice(),
            t,
            0,
        )?;
        Ok(Some(self.frame.result().unsigned_abs()))
    }

    /// Steps from the local time `t` by `h` local ticks. Returns the accepted length, in local ticks. After a fault the state is as
    /// before. The inputs stay.
    pub fn do_step(&mut self, t: u64, h: u64) -> Result<u64, Fault>
        requires { t + h ≤ 10 ^ 15 }
        ensures steps { Steps self.old t h result self.new }
        ensures each_state { length self.new.state ≡ length self.old.state }
    {
        let image: &Image = &self.image;
        let ended = run_on(
            image.code(),
            Entry::Step,
            &mut self.frame,
            self.state.as_slice(),
            self.inputs.as_slice(),
            t,
            h,
        );
        ended?;
        take_first(self.state.as_mut_slice(), self.frame.slots());
        Ok(self.frame.accepted())
    }

    /// Copies the state to `into`.
    pub fn save(&self, into: &mut [i64])
        requires { length into.old ≡ length self.now.state }
        ensures { into.new ≡ self.now.state }
    {
        put(into, 0, self.state.as_slice());
    }

    /// Sets the state to `from`.
    pub fn restore(&mut self, from: &[i64])
        requires { length from.now ≡ length self.old.state }
        ensures { self.new ≡ record self.old { state = from.now } }
    {
        put(self.state.as_mut_slice(), 0, from);
    }
}
