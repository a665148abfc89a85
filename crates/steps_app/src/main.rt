//! The program `cosim-steps`: it reads a model text from standard input as `cosim run` does, and writes the log of its steps, or
//! with `--summary` their summary, to standard output as CSV, and its notes to standard error.
//!
//! [`main`] calls `cosim_steps` of `steps_command`, whose contract is a record of five clauses. The words of the command line are read
//! before it, and the status that it returns is that of the process.
#![tactic(auto)]

use cosim_call::{Status, tell, words};
use cosim_io::{StdSink, StdSource};
use std::io;
use std::process::ExitCode;
use steps_command::cosim_steps;

fn main(rt: HostRuntime) -> ExitCode {
    let mut source = StdSource::new(rt.stdin());
    let mut out = StdSink::new(rt.stdout());
    let mut notes = StdSink::new(rt.stderr());
    let status = match words(&rt) {
        Ok(words) => cosim_steps(rt.alloc(), &words, &mut source, &mut out, &mut notes),
        // Its only word is `--summary`, so words that aren't UTF-8 have no form.
        Err(error) if error.kind() == io::ErrorKind::InvalidData => {
            tell(&mut notes, b"cosim: usage\n", Status::Usage)
        }
        Err(_) => tell(&mut notes, b"cosim: no memory\n", Status::NoMemory),
    };
    ExitCode::from(status.code())
}
