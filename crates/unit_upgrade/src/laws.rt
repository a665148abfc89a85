//! Laws of upgrades.
ghost use Rattle.unit_upgrade.specs.Laws.{UpgradesArePrintable, UpgradesAreWellFormed, UpgradesHaveNoCycle, UpgradesAreOfVersion2, UpgradesAreTheirOwn, UpgradesRunTheSame};
ghost use Rattle.unit_upgrade.specs.Worked.{UpgradesAreWorked};

/// A law: the upgrade of a system that is printable and well-formed is well-formed, and printable where its text is short enough.
/// It has no cycle where the system has none. It is of version 2, and its own upgrade. It has the same rows, last point and end.
pub fn upgrades_are_right()
    ensures printable { UpgradesArePrintable }
    ensures well_formed { UpgradesAreWellFormed }
    ensures no_cycle { UpgradesHaveNoCycle }
    ensures version { UpgradesAreOfVersion2 }
    ensures own { UpgradesAreTheirOwn }
    ensures trace { UpgradesRunTheSame }
{}

/// A law: by the definition, some upgrades are those that were worked out by hand.
pub fn upgrades_are_worked()
    ensures { UpgradesAreWorked }
{}
