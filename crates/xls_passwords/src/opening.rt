//! A stream and some passwords.

ghost use Rattle.std.specs.Prelude.{◌≡◌, ◌++◌, ◌∷◌, [], map, Ok, Err, IfOk, OnErr, MatchResult};
ghost use Rattle.std.specs.Option.{is_some};
ghost use Rattle.xls_passwords.specs.Records.{file_pass_of};
ghost use Rattle.xls_passwords.specs.Opening.{default_password, first_key, file_pass_body, opened};

use crate::passwords::Key;
use crate::plain::make_plain;
use crate::records::file_pass;
use crate::scheme::{FilePassFault, Scheme};
use std::error::Error;
use std::fmt;

/// Why a stream isn't made plain.
#[derive(Clone, Copy, Debug, PartialEq, Eq)]
pub enum Refusal {
    /// Its FilePass isn't read.
    FilePass(FilePassFault),
    /// No password was given, and the default one doesn't fit.
    PasswordWanted,
    /// None of the given passwords fits, nor the default one.
    NoneFits,
}

impl fmt::Display for Refusal {
    ghost use Rattle.std.specs.Prelude.{Some};
    ghost use Rattle.xls_passwords.specs.Opening.{refusal_text};

    ghost output = { λ refusal. Some (refusal_text refusal) };

    fn fmt<W: fmt::Write>(&self, f: &mut fmt::Formatter<W>) -> fmt::Result {
        match self {
            Refusal::FilePass(fault) => write!(f, "{fault}"),
            Refusal::PasswordWanted => write!(f, "its password is wanted: --password-file FILE"),
            Refusal::NoneFits => write!(f, "none of the passwords fits"),
        }
    }
}

impl Error for Refusal {}

// `VelvetSweatshop`, which Excel tries without asking.
const DEFAULT_PASSWORD: [u16; 15] = [
    0x56, 0x65, 0x6C, 0x76, 0x65, 0x74, 0x53, 0x77, 0x65, 0x61, 0x74, 0x73, 0x68, 0x6F, 0x70,
];

// The key of the first password that fits, the default one after the others.
fn key_among(scheme: &Scheme, passwords: &[&[u16]]) -> Option<Key>
    ensures { result ≡ first_key scheme.now (map (λ password. password.now) passwords.now ++ default_password ∷ []) }
{
    'passwords: for password in passwords {
        let key = scheme.key(password);
        if key.is_some() {
            return key;
        }
    }
    scheme.key(&DEFAULT_PASSWORD)
}

/// Makes a stream plain, in place, and answers whether it was encrypted. The passwords, in units of
/// 16 bits, are tried in order, and after them `VelvetSweatshop`. A stream that is refused stays as
/// it was. Takes no memory.
pub fn plain_stream(stream: &mut [u8], passwords: &[&[u16]]) -> Result<bool, Refusal>
    ensures exact { MatchResult result
        (λ _. opened stream.old (map (λ password. password.now) passwords.now) ≡ Ok stream.new)
        (λ refusal. opened stream.old (map (λ password. password.now) passwords.now) ≡ Err refusal) }
    ensures encrypted { IfOk result (λ encrypted. encrypted ≡ is_some (file_pass_of stream.old)) }
    ensures err { OnErr result (stream.new ≡ stream.old) }
{
    let Some(place) = file_pass(stream) else {
        return Ok(false);
    };
    let body = &stream[place.offset + 4..place.end];
    let scheme = match Scheme::read(body, place.is_biff8) {
        Ok(scheme) => scheme,
        Err(fault) => return Err(Refusal::FilePass(fault)),
    };
    let Some(key) = key_among(&scheme, passwords) else {
        return Err(if passwords.is_empty() {
            Refusal::PasswordWanted
        } else {
            Refusal::NoneFits
        });
    };
    make_plain(stream, place, key);
    Ok(true)
}
