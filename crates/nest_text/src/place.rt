//! Places of lines in a nested text.
ghost use Rattle.std.specs.Prelude.{◌≡◌};
ghost use Rattle.nest_text.specs.NestLines.{place_after, may_stand};

use crate::kind::LineKind;

/// The place of a line of a nested text: what comes before it.
#[derive(Clone, Copy, Debug, PartialEq, Eq)]
pub enum PartPlace {
    BeforeParts,
    /// In a group, outside the blocks of its instances.
    InGroup,
    /// In a group, after an `instance` line that has no `end` yet.
    InBlock,
    InMain,
}

impl PartPlace {
    /// Whether a line of the kind is allowed here.
    pub(crate) fn allows(self, kind: &LineKind) -> bool
        ensures { result ≡ may_stand self kind.now }
    {
        match (self, kind) {
            (PartPlace::InMain, LineKind::Main) => false,
            (PartPlace::InMain, _) => true,
            (_, LineKind::Blank | LineKind::Begins(_) | LineKind::Main) => true,
            (PartPlace::BeforeParts, _) => false,
            (_, LineKind::Other) => false,
            (PartPlace::InBlock, LineKind::In(_) | LineKind::Out(_)) => false,
            _ => true,
        }
    }

    /// The place after a line of the kind.
    pub(crate) fn after(self, kind: &LineKind) -> PartPlace
        ensures { result ≡ place_after self kind.now }
    {
        match (self, kind) {
            (PartPlace::InMain, _) | (_, LineKind::Main) => PartPlace::InMain,
            (_, LineKind::Begins(_)) => PartPlace::InGroup,
            (PartPlace::BeforeParts, _) => PartPlace::BeforeParts,
            (_, LineKind::Opens) => PartPlace::InBlock,
            (_, LineKind::Ends) => PartPlace::InGroup,
            (place, _) => place,
        }
    }
}
