//! The adapters over a reader and a writer of std that fail.

use cosim_io::{Failed, Sink, Source, StdSink, StdSource};
use std::cell::Cell;
use std::io::{self, ErrorKind, Read, Write};

/// What one call of the reader or writer below does.
#[derive(Clone, Copy, Debug, PartialEq, Eq)]
enum Step {
    /// Passes as many bytes as the call allows, but at most this many.
    Pass(usize),
    Fail(ErrorKind),
}

const INTERRUPTED: Step = Step::Fail(ErrorKind::Interrupted);

const BROKEN: Step = Step::Fail(ErrorKind::BrokenPipe);

/// A reader and writer that does one of its steps at each call, and passes no bytes after the last step. A flush fails
/// where its step is one that fails. It counts its calls.
#[derive(Drop)]
struct Scripted<'a> {
    steps: &'static [Step],
    calls: &'a Cell<usize>,
}

impl Scripted<'_> {
    fn next(&mut self) -> io::Result<usize> {
        let call = self.calls.get();
        self.calls.set(call.saturating_add(1));
        let step = self.steps.get(call).copied();
        match step.unwrap_or(Step::Pass(0)) {
            Step::Pass(most) => Ok(most),
            Step::Fail(kind) => Err(kind.into()),
        }
    }
}

impl Read for Scripted<'_> {
    fn read(&mut self, buf: &mut [u8]) -> io::Result<usize> {
        let count = self.next()?.min(buf.len());
        buf[..count].fill(b'x');
        Ok(count)
    }
}

impl Write for Scripted<'_> {
    fn write(&mut self, buf: &[u8]) -> io::Result<usize> {
        Ok(self.next()?.min(buf.len()))
    }

    fn flush(&mut self) -> io::Result<()> {
        self.next()?;
        Ok(())
    }
}

#[test]
fn each_failing_read_is_told_once_and_none_is_tried_again(rt: HostRuntime) {
    let calls = Cell::new(0);
    let mut source = StdSource::new(Scripted {
        steps: &[INTERRUPTED, Step::Pass(2), BROKEN, BROKEN],
        calls: &calls,
    });
    let mut into = [0; 4];
    let answers = [Err(Failed), Ok(2), Err(Failed), Err(Failed), Ok(0)];
    for (before, answer) in answers.into_iter().enumerate() {
        assert_eq!(rt; calls.get(), before);
        assert_eq!(rt; source.read(&mut into), answer);
    }
}

#[test]
fn each_failing_put_is_told_once_and_nothing_is_tried_again(rt: HostRuntime) {
    // The steps of a put of four bytes, its result, and the number of calls that it makes. The last call may be a
    // flush.
    let puts: [(&[Step], Result<(), Failed>, usize); 8] = [
        (&[Step::Pass(4), Step::Pass(0)], Ok(()), 2),
        (&[Step::Pass(1), Step::Pass(3)], Ok(()), 3),
        (&[INTERRUPTED, Step::Pass(4)], Err(Failed), 1),
        (&[BROKEN], Err(Failed), 1),
        (&[Step::Pass(3), BROKEN, Step::Pass(1)], Err(Failed), 2),
        (&[Step::Pass(0), Step::Pass(4)], Err(Failed), 1),
        (&[Step::Pass(4), BROKEN], Err(Failed), 2),
        (&[Step::Pass(4), INTERRUPTED, Step::Pass(0)], Err(Failed), 2),
    ];
    for (steps, answer, count) in puts {
        let calls = Cell::new(0);
        let mut sink = StdSink::new(Scripted {
            steps,
            calls: &calls,
        });
        assert_eq!(rt; sink.put(b"1,0\n"), answer, "by {steps:?}");
        assert_eq!(rt; calls.get(), count, "by {steps:?}");
    }
}

#[test]
fn a_sink_that_failed_goes_on_with_the_next_put(rt: HostRuntime) {
    let calls = Cell::new(0);
    let mut sink = StdSink::new(Scripted {
        steps: &[
            BROKEN,
            Step::Pass(2),
            Step::Pass(0),
            Step::Pass(0),
            Step::Pass(2),
            Step::Pass(0),
        ],
        calls: &calls,
    });
    for answer in [Err(Failed), Ok(()), Err(Failed), Ok(())] {
        assert_eq!(rt; sink.put(b"0\n"), answer);
    }
}
