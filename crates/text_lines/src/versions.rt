//! Which forms only version 2 has.
ghost use Rattle.std.specs.Prelude.{◌≡◌};
ghost use Rattle.unit_tree.specs.LineForms.{is_of_version_2};

use unit_tree::{LineForm, speaks_of_events};

/// The version whose texts have the forms of both versions.
pub const VERSION_2: u8 = 2;

/// Whether only version 2 has the form.
pub fn is_of_version_2(form: &LineForm) -> bool
    ensures { result ≡ is_of_version_2 form.now }
{
    match form {
        LineForm::Header(version) => *version == VERSION_2,
        LineForm::EventInput(_) | LineForm::EventOutput(_) => true,
        LineForm::Output(output) => speaks_of_events(&output.value),
        LineForm::Max(value)
        | LineForm::Assign { value, .. }
        | LineForm::If(value)
        | LineForm::Accept(value) => speaks_of_events(value),
        _ => false,
    }
}
