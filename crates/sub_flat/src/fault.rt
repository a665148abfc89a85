ghost use Rattle.std.specs.Prelude.{◌≡◌};

use fixed_words::NoMemory;

/// Why a part of a nest was not made flat.
#[derive(Clone, Copy, Debug, PartialEq, Eq)]
pub enum Unflat {
    /// There are more instances or connections than allowed.
    TooLarge,
    NoMemory,
}

impl From<NoMemory> for Unflat {
    ghost use Rattle.sub_flat.specs.declared.fault.Unflat.TheVariants as unflat;

    ghost from_gives = { λ _ why. why ≡ unflat.NoMemory };

    fn from(_: NoMemory) -> Unflat {
        Unflat::NoMemory
    }
}
