// Where bytes come from.
ghost use Rattle.std.specs.Prelude.{ℕ, List};
ghost use Rattle.std.specs.Io.{ReadsAtMost};
ghost use Rattle.std.specs.Io.KnownBytes.{ReadConsumes};
ghost use Rattle.std.specs.declared.option.Option.{Option};
ghost use Rattle.cosim_io.specs.Faults.{HasCause};

use thiserror::Error;

/// A read or a put failed, and the count of faults of the source or sink rose.
#[derive(Clone, Copy, Debug, PartialEq, Eq, Error)]
#[error("reading or writing failed")]
pub struct Failed;

/// A source of bytes.
pub trait Source {
    /// The bytes that are left, where they are known.
    ghost left: { Self → Option (List ℕ) };

    /// How often the source has failed. The count never falls, and stays at 2^64 - 1 once it reaches it.
    ghost faults: { Self → ℕ };

    /// Takes bytes that are left into the first places of `into`, and returns how many.
    ///
    /// `Ok(0)` for a nonempty `into` means the end of input. An empty `into` gives `Ok(0)`, if the read doesn't fail,
    /// and takes nothing. The places of `into` after the bytes that were taken may hold anything. After `Failed` all
    /// places of `into` may, and nothing was taken.
    fn read(&mut self, into: &mut [u8]) -> Result<usize, Failed>
        ensures within { ReadsAtMost result into.new }
        ensures taken { ReadConsumes (left self.old) (left self.new) result into.new }
        ensures cause { HasCause (faults self.old) (faults self.new) result };
}
