//! The words of the command line.

use std::alloc::Global;
use std::env::{Env, FillError};
use std::{env, io};

/// The command line without the program's name, which may be any bytes.
#[derive(Drop)]
struct AfterName<'a, R> {
    whole: &'a R,
}

impl<R: Env> Env for AfterName<'_, R> {
    fn arg(&self, i: usize, buf: &mut [u8]) -> Result<usize, FillError> {
        match i.checked_add(1) {
            Some(place) => self.whole.arg(place, buf),
            None => Err(FillError::NotPresent),
        }
    }

    fn var(&self, name: &str, buf: &mut [u8]) -> Result<usize, FillError> {
        self.whole.var(name, buf)
    }

    fn var_at(&self, i: usize, buf: &mut [u8]) -> Result<usize, FillError> {
        self.whole.var_at(i, buf)
    }
}

/// The words behind the program's name. `OutOfMemory` where memory runs out, and else an error only
/// where a word isn't UTF-8.
pub(crate) fn words_in<R: Env>(alloc: Global, whole: &R) -> io::Result<Vec<String>> {
    let words = env::args(&(AfterName { whole }, alloc))?;
    Ok(words.collect::<Vec<String>>(alloc)?)
}
