//! What a FilePass record says of the encryption of its stream.

ghost use Rattle.std.specs.Prelude.{◌≡◌, ◌≤◌, ◌<◌, ◌+◌, ◌^◌, length};
ghost use Rattle.xls_passwords.specs.Schemes.{at_least, says, bytes_at, u16_at, u32_at, xor_at, rc4_of, is_key_size, key_bits_of, is_header, verifier_at, salt_at, header_at, crypto_api_of, versioned, type_1, typed, biff8_scheme, scheme_at, fault_text};

use std::error::Error;
use std::fmt;
use xls_bytes::{read_u16, read_u32};

/// Why a FilePass isn't read.
#[derive(Clone, Copy, Debug, PartialEq, Eq)]
pub enum FilePassFault {
    /// Its body is shorter than what it says needs.
    Length {
        /// How many bytes it needs.
        expected: usize,
        /// How many it has.
        found: usize,
    },
    /// It says an encryption that isn't read.
    Unread,
}

impl fmt::Display for FilePassFault {
    ghost use Rattle.std.specs.Prelude.{Some};
    ghost use Rattle.xls_passwords.specs.Schemes.{fault_text};

    ghost output = { λ fault. Some (fault_text fault) };

    fn fmt<W: fmt::Write>(&self, f: &mut fmt::Formatter<W>) -> fmt::Result {
        match self {
            FilePassFault::Length { expected, found } => write!(
                f,
                "Invalid FilePass length, expected at least {expected}, found {found}"
            ),
            FilePassFault::Unread => write!(f, "its encryption isn't read"),
        }
    }
}

impl Error for FilePassFault {}

/// How a stream is encrypted, and what its passwords are checked by.
#[derive(Clone, Copy, Debug, PartialEq, Eq)]
pub enum Scheme {
    /// XOR obfuscation, [MS-OFFCRYPTO] 2.3.7.
    Xor {
        /// The key of the password.
        key: u16,
        /// The verifier of the password.
        verifier: u16,
    },
    /// RC4 with keys of 40 bits, [MS-OFFCRYPTO] 2.3.6.
    Rc4 {
        salt: [u8; 16],
        /// The encrypted verifier.
        verifier: [u8; 16],
        /// The encrypted hash of the verifier.
        hash: [u8; 16],
    },
    /// RC4 CryptoAPI, [MS-OFFCRYPTO] 2.3.5.
    CryptoApi {
        /// How many bits keys have: a multiple of 8 from 40 to 128.
        key_bits: u32,
        salt: [u8; 16],
        /// The encrypted verifier.
        verifier: [u8; 16],
        /// The encrypted hash of the verifier.
        hash: [u8; 20],
    },
}

// So many bytes are there.
fn need(body: &[u8], expected: usize) -> Result<(), FilePassFault>
    ensures { result ≡ at_least expected body.now }
{
    if body.len() < expected {
        return Err(FilePassFault::Length {
            expected,
            found: body.len(),
        });
    }
    Ok(())
}

// The body says what is read.
fn want(read: bool) -> Result<(), FilePassFault>
    ensures { result ≡ says read }
{
    if read {
        Ok(())
    } else {
        Err(FilePassFault::Unread)
    }
}

// The 16 bytes at a place.
fn bytes_16(body: &[u8], at: usize) -> [u8; 16]
    requires { at + 16 ≤ length body.now }
    ensures { result ≡ bytes_at 16 at body.now }
{
    let mut bytes = [0; 16];
    bytes.copy_from_slice(&body[at..at + 16]);
    bytes
}

// The 20 bytes at a place.
fn bytes_20(body: &[u8], at: usize) -> [u8; 20]
    requires { at + 20 ≤ length body.now }
    ensures { result ≡ bytes_at 20 at body.now }
{
    let mut bytes = [0; 20];
    bytes.copy_from_slice(&body[at..at + 20]);
    bytes
}

// The number of 16 bits at a place.
fn u16_in(body: &[u8], at: usize) -> u16
    requires { at + 2 ≤ length body.now }
    ensures { result ≡ u16_at at body.now }
{
    read_u16(&body[at..])
}

// The number of 32 bits at a place.
fn u32_in(body: &[u8], at: usize) -> u32
    requires { at + 4 ≤ length body.now }
    ensures { result ≡ u32_at at body.now }
{
    read_u32(&body[at..])
}

fn xor_of(body: &[u8], at: usize) -> Result<Scheme, FilePassFault>
    requires { at ≤ 2 }
    ensures { result ≡ xor_at at body.now }
{
    need(body, at + 4)?;
    Ok(Scheme::Xor {
        key: u16_in(body, at),
        verifier: u16_in(body, at + 2),
    })
}

#[tactic(auto, unfolding(crate::specs::Schemes::rc4_of))]
fn rc4_in(body: &[u8]) -> Result<Scheme, FilePassFault>
    ensures { result ≡ rc4_of body.now }
{
    need(body, 54)?;
    Ok(Scheme::Rc4 {
        salt: bytes_16(body, 6),
        verifier: bytes_16(body, 22),
        hash: bytes_16(body, 38),
    })
}

fn key_bits(size: u32) -> u32
    ensures { result ≡ key_bits_of size }
{
    if size == 0 { 40 } else { size }
}

fn is_size(bits: u32) -> bool
    ensures { result ≡ is_key_size bits }
{
    bits >= 40 && bits <= 128 && bits % 8 == 0
}

// The header at a place says RC4 and SHA-1, or leaves them open, and a size of keys that is read.
fn is_read(body: &[u8], at: usize) -> bool
    requires { at + 20 ≤ length body.now }
    ensures { result ≡ is_header at body.now }
{
    let algorithm = u32_in(body, at + 8);
    let hash = u32_in(body, at + 12);
    (algorithm == 0x6801 || algorithm == 0)
        && (hash == 0x8004 || hash == 0)
        && is_size(key_bits(u32_in(body, at + 16)))
}

// What stands after a header and the size of its salt.
#[tactic(auto, unfolding(crate::specs::Schemes::verifier_at))]
fn verifier_in(body: &[u8], header_size: usize) -> Result<Scheme, FilePassFault>
    requires fits { header_size < 2 ^ 32 }
    ensures exact { result ≡ verifier_at header_size body.now }
{
    need(body, 74 + header_size)?;
    want(u32_in(body, 50 + header_size) == 20)?;
    Ok(Scheme::CryptoApi {
        key_bits: key_bits(u32_in(body, 30)),
        salt: bytes_16(body, 18 + header_size),
        verifier: bytes_16(body, 34 + header_size),
        hash: bytes_20(body, 54 + header_size),
    })
}

// What stands after a header.
#[tactic(auto, unfolding(crate::specs::Schemes::salt_at))]
fn salt_in(body: &[u8], header_size: usize) -> Result<Scheme, FilePassFault>
    requires fits { header_size < 2 ^ 32 }
    requires room { 18 + header_size ≤ length body.now }
    ensures exact { result ≡ salt_at header_size body.now }
{
    want(u32_in(body, 14 + header_size) == 16)?;
    verifier_in(body, header_size)
}

#[tactic(auto, unfolding(crate::specs::Schemes::header_at))]
fn header_in(body: &[u8], header_size: usize) -> Result<Scheme, FilePassFault>
    requires fits { header_size < 2 ^ 32 }
    ensures exact { result ≡ header_at header_size body.now }
{
    want(header_size >= 32)?;
    need(body, 18 + header_size)?;
    want(is_read(body, 14))?;
    salt_in(body, header_size)
}

fn crypto_api_in(body: &[u8]) -> Result<Scheme, FilePassFault>
    ensures { result ≡ crypto_api_of body.now }
{
    need(body, 14)?;
    header_in(body, u32_in(body, 10) as usize)
}

fn type_1_in(body: &[u8]) -> Result<Scheme, FilePassFault>
    ensures { result ≡ type_1 body.now }
{
    need(body, 6)?;
    match (u16_in(body, 2), u16_in(body, 4)) {
        (1, 1) => rc4_in(body),
        (2 | 3 | 4, 2) => crypto_api_in(body),
        _ => Err(FilePassFault::Unread),
    }
}

fn biff8_scheme_in(body: &[u8]) -> Result<Scheme, FilePassFault>
    ensures { result ≡ biff8_scheme body.now }
{
    need(body, 2)?;
    match u16_in(body, 0) {
        0 => xor_of(body, 2),
        1 => type_1_in(body),
        _ => Err(FilePassFault::Unread),
    }
}

impl Scheme {
    /// What the body of a FilePass says, [MS-XLS] 2.4.117, under BIFF8 or a version before it. Refuses
    /// with the first fault from the left.
    pub fn read(body: &[u8], is_biff8: bool) -> Result<Scheme, FilePassFault>
        ensures exact { result ≡ scheme_at is_biff8 body.now }
    {
        if is_biff8 {
            biff8_scheme_in(body)
        } else {
            xor_of(body, 0)
        }
    }
}
