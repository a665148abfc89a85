ghost use Rattle.std.specs.Prelude.{◌≡◌, [], Some, OnOk, OnErr, IsSome};
ghost use Rattle.std.specs.List.{AllByRecursion};
ghost use Rattle.std.specs.Option.{option_map};
ghost use Rattle.trace_csv.specs.Columns.{port_title, title_in, IsOutput};
ghost use Rattle.trace_csv.specs.TraceText.{header_line};

use crate::line::{end_line, new_line, put_field};
use csv::QuoteStyle;
use fixed_words::NoMemory;
use std::alloc::Global;
use unit_tree::{Checked, Column, Instance, Output, System};

/// Returns the output that a column shows, with its instance. `None` where there is no such output.
fn shown_by<'a>(system: &'a System, column: Column) -> Option<(&'a Instance, &'a Output)>
    ensures { option_map (λ shown. port_title shown.0.now shown.1.now) result ≡ title_in system.now column }
{
    let instance = system.instances.get(column.instance as usize)?;
    let unit = system.unit_of(instance)?;
    let output = unit.outputs.get(column.output as usize)?;
    Some((instance, output))
}

/// Replaces the contents of `title` by the title of a column.
fn write_title(system: &System, column: Column, title: &mut Vec<u8>) -> Result<(), NoMemory>
    requires { IsSome (title_in system.now column) }
    ensures { OnOk result (title_in system.now column ≡ Some title.new.items) }
{
    let Some((instance, output)) = shown_by(system, column) else {
        unreachable!()
    };
    title.clear();
    title.extend_from_slice(instance.name.as_slice())?;
    title.push(b'.')?;
    title.extend_from_slice(output.name.as_slice())
}

/// Replaces the contents of `out` by the header of a trace: one line with `time`, `index` and the columns as
/// `instance.output`. An event output has its own name.
///
/// Where memory is refused `out` is empty.
pub fn header_text(
    alloc: Global,
    checked: &Checked,
    columns: &[Column],
    out: &mut Vec<u8>,
) -> Result<(), NoMemory>
    requires { AllByRecursion (IsOutput checked.now) columns.now }
    ensures ok { OnOk result (out.new.items ≡ header_line checked.now columns.now) }
    ensures err { OnErr result (out.new.items ≡ []) }
{
    out.clear();
    let mut line = new_line(alloc, QuoteStyle::Never);
    put_field(&mut line, b"time")?;
    put_field(&mut line, b"index")?;
    let system = checked.system();
    let mut title = Vec::new(alloc);
    for column in columns {
        write_title(system, *column, &mut title)?;
        put_field(&mut line, title.as_slice())?;
    }
    end_line(&mut line)?;
    out.extend_from_slice(line.get_ref().as_slice())
}
