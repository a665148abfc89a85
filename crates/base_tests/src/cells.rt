//! The progress cell, in one thread and in two.
ghost use Rattle.std.specs.Prelude.{◌≡◌};
ghost use Rattle.front_cell.specs.Front.{opening};

use front_cell::{
    Front, FrontCell, Reader, Writer, reader_never_goes_back, writer_never_goes_back,
};
use std::sync::Wait;
use std::test::Fail;
use std::thread;

const ALL: u64 = 1000;

// The contents of a cell, for tests.
fn at(rows: u64, closed: bool) -> Front {
    Front { rows, closed }
}

#[test]
fn readers_see_what_the_writer_stores(rt: HostRuntime) -> Result<(), Fail> {
    let (cell, mut writer) = FrontCell::new(rt.alloc())?;
    let mut early = cell.split(&rt, &mut writer);
    assert_eq!(rt; cell.read(&rt, &mut early), at(0, false));
    cell.advance(&rt, &mut writer, 3);
    assert_eq!(rt; cell.read(&rt, &mut early), at(3, false));
    let mut late = cell.split(&rt, &mut writer);
    assert_eq!(rt; cell.read(&rt, &mut late), at(3, false));
    cell.advance(&rt, &mut writer, 3);
    cell.advance(&rt, &mut writer, u64::MAX);
    cell.close(&rt, &mut writer);
    assert_eq!(rt; cell.read(&rt, &mut early), at(u64::MAX, true));
    assert_eq!(rt; cell.read(&rt, &mut late), at(u64::MAX, true));
    cell.close(&rt, &mut writer);
    assert_eq!(rt; cell.read(&rt, &mut early), at(u64::MAX, true));
    cell.join(&rt, &mut writer, early);
    cell.join(&rt, &mut writer, late);
    let mut last = cell.split(&rt, &mut writer);
    assert_eq!(rt; cell.read(&rt, &mut last), at(u64::MAX, true));
    writer_never_goes_back();
    reader_never_goes_back();
    Ok(())
}

// Stores all numbers up to `ALL`, one after another, and closes the run.
fn write<R: Wait>(rt: &R, cell: &FrontCell, mut writer: Writer) -> Writer
    requires own { writer.cell ≡ cell.now }
    requires start { writer.front ≡ opening }
    ensures { result.cell ≡ cell.now }
{
    for rows in 0..ALL {
        cell.advance(rt, &mut writer, rows);
    }
    cell.close(rt, &mut writer);
    writer
}

// Reads until the run is closed. Returns the last number, and whether no number was less than the one before it.
fn watch<R: Wait>(rt: &R, cell: &FrontCell, mut reader: Reader) -> (Reader, u64, bool)
    requires { reader.cell ≡ cell.now }
    ensures { result.0.cell ≡ cell.now }
{
    let mut last = 0;
    let mut in_order = true;
    for _ in rt.forever() {
        let front = cell.read(rt, &mut reader);
        in_order = in_order && last <= front.rows;
        last = front.rows;
        if front.closed {
            return (reader, last, in_order);
        }
        thread::yield_now();
    }
    unreachable!()
}

#[test]
fn a_reader_beside_the_writer_never_goes_back(rt: HostRuntime) -> Result<(), Fail> {
    let (cell, mut writer) = FrontCell::new(rt.alloc())?;
    let reader = cell.split(&rt, &mut writer);
    let (mut writer, (reader, last, in_order)) = thread::join(
        &rt,
        || write(&rt, &cell, writer),
        || watch(&rt, &cell, reader),
    );
    assert_eq!(rt; (last, in_order), (ALL - 1, true));
    cell.join(&rt, &mut writer, reader);
    Ok(())
}
