//! The upgrade of a system, whose length is counted first.
ghost use Rattle.std.specs.Prelude.{◌≡◌, ◌≤◌, length, IfOk, IfErr, OnOk};
ghost use Rattle.unit_tree.specs.Canonical.{canonical_text};
ghost use Rattle.unit_tree.specs.Compositions.{default_rows};
ghost use Rattle.unit_tree.specs.Printable.{IsPrintable};
ghost use Rattle.unit_tree.specs.WellFormed.{IsWellFormed};
ghost use Rattle.unit_upgrade.specs.Added.{lines_text, rows_added, zeros_added};
ghost use Rattle.unit_upgrade.specs.Upgrades.{IsRightFault, IsShortEnough, in_version_2, upgraded};

use crate::fault::UpgradeFault;
use fixed_words::NoMemory;
use itoa::Buffer;
use model_rules::{DEFAULT_ZERO_STEPS, LONGEST_TEXT, MOST_CELLS, MOST_ROWS};
use std::alloc::Global;
use unit_plain::copy_system;
use unit_print::print_system;
use unit_tree::System;

/// Returns the budget of rows of a system of version 1, where its text has none.
fn default_rows(system: &System) -> u32
    requires { 1 ≤ length system.now.instances }
    ensures { result ≡ default_rows 1 (length system.now.instances) }
{
    (MOST_ROWS as usize).min(MOST_CELLS as usize / system.instances.len()) as u32
}

/// Returns the bytes of the line that is added where there is no zero budget.
#[tactic(auto, using(crate::proofs::AddedLengths::zeros_length))]
fn zeros_length(system: &System) -> usize
    ensures { result ≡ length (lines_text (zeros_added system.now)) }
{
    match system.zero {
        Some(_) => 0,
        None => b"zero 100\n".len(),
    }
}

/// Returns the bytes of the line that is added where there is no budget of rows.
#[tactic(auto, using(crate::proofs::AddedLengths::rows_length))]
fn rows_length(system: &System) -> usize
    requires { 1 ≤ length system.now.instances }
    ensures { result ≡ length (lines_text (rows_added system.now)) }
{
    match system.rows {
        Some(_) => 0,
        None => {
            let mut digits = Buffer::new();
            b"rows \n".len() + digits.format(default_rows(system)).len()
        }
    }
}

/// Returns how many bytes the canonical text of a system of version 1 has in version 2: those that it has, and those of the added
/// lines. The text itself isn't made.
fn upgraded_length(alloc: Global, system: &System) -> Result<usize, NoMemory>
    requires printable { IsPrintable system.now }
    requires some_instance { 1 ≤ length system.now.instances }
    requires version { system.now.version ≡ 1 }
    ensures { IfOk result (λ bytes. bytes ≡ length (canonical_text (in_version_2 system.now))) }
{
    let mut text = Vec::new(alloc);
    print_system(alloc, system, &mut text)?;
    Ok(text.len() + zeros_length(system) + rows_length(system))
}

/// Returns a system of version 1 in version 2.
fn in_version_2(alloc: Global, system: &System) -> Result<System, NoMemory>
    requires { 1 ≤ length system.now.instances }
    ensures { IfOk result (λ made. made ≡ in_version_2 system.now) }
{
    let mut made = copy_system(alloc, system)?;
    made.version = 2;
    made.zero = Some(system.zero.unwrap_or(DEFAULT_ZERO_STEPS));
    made.rows = Some(system.rows.unwrap_or(default_rows(system)));
    Ok(made)
}

/// Returns the same system in version 2 of the language. A system of version 1 gets the version. Where it has no budget it gets
/// the default of version 1, so that its trace stays the same. A system of version 2 is copied.
///
/// Fails with [`UpgradeFault::TooLong`] exactly where the canonical text of the result has more bytes than a text may have, unless
/// memory is refused. The length is counted before anything of the result is made.
pub fn upgrade(alloc: Global, system: &System) -> Result<System, UpgradeFault>
    requires printable { IsPrintable system.now }
    requires well_formed { IsWellFormed system.now }
    ensures made { IfOk result (λ made. made ≡ upgraded system.now) }
    ensures fits { OnOk result (IsShortEnough (upgraded system.now)) }
    ensures fault { IfErr result (IsRightFault system.now) }
{
    if system.version != 1 {
        return Ok(copy_system(alloc, system)?);
    }
    if upgraded_length(alloc, system)? > LONGEST_TEXT {
        return Err(UpgradeFault::TooLong);
    }
    Ok(in_version_2(alloc, system)?)
}
