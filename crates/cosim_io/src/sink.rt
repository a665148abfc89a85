// Where bytes go.
ghost use Rattle.std.specs.Prelude.{ℕ, List, OnOk, OnErr};
ghost use Rattle.std.specs.Io.KnownBytes.{Appends};
ghost use Rattle.std.specs.declared.option.Option.{Option};
ghost use Rattle.cosim_io.specs.Faults.{HasCause};
ghost use Rattle.cosim_io.specs.Pieces.{AppendsPrefix};

use crate::Failed;

/// A sink of bytes.
pub trait Sink {
    /// The bytes that the sink holds, where they are known.
    ghost held: { Self → Option (List ℕ) };

    /// How often the sink has failed. The count never falls, and stays at 2^64 - 1 once it reaches
    /// it.
    ghost faults: { Self → ℕ };

    /// Appends the whole piece. On `Failed` it has appended a prefix of the piece.
    fn put(&mut self, piece: &[u8]) -> Result<(), Failed>
        ensures whole { OnOk result (Appends (held self.old) (held self.new) piece.now) }
        ensures front { OnErr result (AppendsPrefix (held self.old) (held self.new) piece.now) }
        ensures cause { HasCause (faults self.old) (faults self.new) result };
}
