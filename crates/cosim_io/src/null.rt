// A sink that keeps nothing.
ghost use Rattle.std.specs.Prelude.{◌≡◌, None, OnOk, OnErr, IsOk};
ghost use Rattle.std.specs.Io.KnownBytes.{Appends};
ghost use Rattle.cosim_io.specs.Faults.{HasCause};
ghost use Rattle.cosim_io.specs.Pieces.{AppendsPrefix};

use crate::{Failed, Sink};

/// A sink that accepts every piece and keeps none of it. The bytes that it holds are not known (`None`). It never fails
/// and takes no memory, so its count of faults is 0.
#[derive(Drop)]
pub struct NullSink;

impl Sink for NullSink {
    ghost held = { λ sink. None };

    ghost faults = { λ sink. 0 };

    fn put(&mut self, piece: &[u8]) -> Result<(), Failed>
        ensures whole { OnOk result (Appends None None piece.now) }
        ensures front { OnErr result (AppendsPrefix None None piece.now) }
        ensures cause { HasCause 0 0 result }

        // What it ensures in addition to every sink:
        ensures takes { IsOk result }
    {
        let _ = piece;
        Ok(())
    }
}
