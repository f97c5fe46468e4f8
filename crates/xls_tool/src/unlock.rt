//! Encrypted workbooks, and the passwords that are tried on them.

ghost use Rattle.std.specs.Prelude.{◌≡◌, [], Ok, map, IfErr, IfOk, MatchResult};
ghost use Rattle.std.specs.Cow.{cow_slice_items};
ghost use Rattle.xls_passwords.specs.Opening.{opened};
ghost use Rattle.xls_tool.specs.Unlocking.{IsLocked};
ghost use Rattle.xls_words.specs.Requests.{no_passwords};

use crate::file::read;
use crate::problem::Problem;
use std::alloc::{AllocError, Global};
use std::borrow::CowSlice;
use std::marker::Model;
use xls_files::{Host, Reason};
use xls_passwords::{file_pass, plain_stream};
use xls_words::Passwords;

/// Passwords, each by its units of UTF-16, which contracts see.
#[derive(Drop)]
pub struct PasswordList {
    units: Vec<Vec<u16>>,
}

impl Model for PasswordList {
    ghost use Rattle.std.specs.Prelude.{ℕ, List, map};

    ghost Value = { List (List ℕ) };

    ghost view = { λ list. map (λ password. password.items) list.units.items };
}

impl PasswordList {
    /// None.
    fn new(alloc: Global) -> PasswordList
        ensures { result ≡ [] }
    {
        PasswordList {
            units: Vec::new(alloc),
        }
    }

    /// One more.
    fn push(&mut self, alloc: Global, password: &str) -> Result<(), AllocError> {
        let units = password.encode_utf16().collect(alloc)?;
        self.units.push(units)?;
        Ok(())
    }

    /// The passwords as they are tried.
    fn slices(&self, alloc: Global) -> Result<Vec<&[u16]>, AllocError>
        ensures { IfOk result (λ slices. map (λ password. password.now) slices.items ≡ self.now) }
    {
        let mut slices = Vec::new(alloc);
        let all = self.units.as_slice();
        'passwords: for password in all {
            slices.push(password.as_slice())?;
        }
        Ok(slices)
    }
}

/// Adds the passwords of a list, one a line.
fn push_lines(list: &mut PasswordList, alloc: Global, text: &str) -> Result<(), AllocError> {
    for line in text.lines() {
        list.push(alloc, line)?;
    }
    Ok(())
}

/// That a list of passwords isn't UTF-8.
fn unreadable(alloc: Global) -> Result<Problem, AllocError> {
    let text = String::from_str(alloc, "it isn't UTF-8")?;
    Ok(Problem::Unread(Reason::Reported(text)))
}

/// Adds the passwords of a file.
fn push_file<H: Host>(
    alloc: Global,
    host: &mut H,
    list: &mut PasswordList,
    path: &str,
) -> Result<(), Problem>
    ensures { H.files host.new ≡ H.files host.old }
{
    let bytes = read(host, path)?;
    let Ok(text) = std::str::from_utf8(bytes.as_slice()) else {
        return Err(unreadable(alloc)?);
    };
    Ok(push_lines(list, alloc, text)?)
}

/// The passwords that words ask to be tried.
pub(crate) fn passwords_of<H: Host>(
    alloc: Global,
    host: &mut H,
    asked: Passwords<'_>,
) -> Result<PasswordList, Problem>
    ensures none { asked.entry ≡ no_passwords → MatchResult result (λ list. (list ≡ []) × (host.new ≡ host.old)) (λ _. ⊥) }
    ensures files { H.files host.new ≡ H.files host.old }
{
    let mut list = PasswordList::new(alloc);
    if let Some(password) = asked.given {
        list.push(alloc, password)?;
    }
    if let Some(path) = asked.list {
        push_file(alloc, host, &mut list, path)?;
    }
    Ok(list)
}

/// A workbook's stream, made plain by the first password that fits, where it is encrypted. Only an encrypted one is
/// copied.
pub(crate) fn plain_of<'s>(
    alloc: Global,
    stream: CowSlice<'s, u8>,
    passwords: &PasswordList,
) -> Result<CowSlice<'s, u8>, Problem>
    ensures ok { IfOk result (λ plain. opened (cow_slice_items stream.entry) passwords.now ≡ Ok (cow_slice_items plain)) }
    ensures err { IfErr result (IsLocked (cow_slice_items stream.entry) passwords.now) }
{
    if file_pass(stream.as_slice()).is_none() {
        return Ok(stream);
    }
    let slices = passwords.slices(alloc)?;
    let mut plain = Vec::from_slice(alloc, stream.as_slice())?;
    match plain_stream(plain.as_mut_slice(), slices.as_slice()) {
        Ok(_) => Ok(CowSlice::Owned(plain)),
        Err(refusal) => Err(Problem::Encrypted(refusal)),
    }
}
