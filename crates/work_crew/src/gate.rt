//! Gates: how long a run waits for its workers.
ghost use Rattle.std.specs.Prelude.{◌≡◌, false};

/// A gate decides whether a run waits for the step of an instance that no worker has answered yet.
pub trait Gate {
    /// Returns whether to look once more for the step of an instance at a row. `turn` is how many looks failed before the last one,
    /// from 0 on. It isn't called for an instance whose lane is not published.
    fn again(&self, row: u64, instance: u32, turn: u64) -> bool;

    /// Returns whether the run is ever to wait. Then each lane is published in each phase, however light its steps are.
    fn waits(&self) -> bool {
        true
    }
}

/// Never waits: a step that nobody has answered yet is made at once.
#[derive(Clone, Copy, Debug, PartialEq, Eq)]
pub struct OpenGate;

impl Gate for OpenGate {
    fn again(&self, _row: u64, _instance: u32, _turn: u64) -> bool
        ensures { result ≡ false }
    {
        false
    }

    fn waits(&self) -> bool
        ensures { result ≡ false }
    {
        false
    }
}
