//! The words of a command line.

use std::env::{self, Env, FillError};
use std::io;

/// The command line after the program's name. The name may be a path that is not valid text.
#[derive(Drop)]
struct AfterName<'r> {
    rt: &'r HostRuntime,
}

impl<'r> Env for AfterName<'r> {
    fn arg(&self, i: usize, buf: &mut [u8]) -> Result<usize, FillError> {
        match i.checked_add(1) {
            Some(next) => self.rt.arg(next, buf),
            None => Err(FillError::NotPresent),
        }
    }

    fn var(&self, name: &str, buf: &mut [u8]) -> Result<usize, FillError> {
        self.rt.var(name, buf)
    }

    fn var_at(&self, i: usize, buf: &mut [u8]) -> Result<usize, FillError> {
        self.rt.var_at(i, buf)
    }
}

/// Returns the words of the command line after the program's name.
///
/// # Errors
///
/// [`io::ErrorKind::InvalidData`] where a word is not valid text. Other errors come from lack of memory.
pub fn words(rt: &HostRuntime) -> io::Result<Vec<String>> {
    let line = (AfterName { rt }, rt.alloc());
    let mut words = Vec::new(rt.alloc());
    for word in env::args(&line)? {
        words.push(word)?;
    }
    Ok(words)
}
