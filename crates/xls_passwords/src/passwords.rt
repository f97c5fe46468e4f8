//! Passwords: which one fits, and the key that it gives.

ghost use Rattle.std.specs.Prelude.{◌≡◌, ◌≤◌, ◌<◌, ◌+◌, length, Some, None, if◌then◌else◌};
ghost use Rattle.md5.specs.Md5.{md5};
ghost use Rattle.sha1.specs.Sha1.{sha1};
ghost use Rattle.xls_passwords.specs.Passwords.{verifies, fits, key_for, key_of_password};
ghost use Rattle.xls_passwords.specs.declared.scheme.Scheme.TheVariants as schemes;

use crate::keys::{BlockKeys, KeyStream};
use crate::scheme::Scheme;
use crate::xor::{array_of, fill_bytes, key_of, verifier_of};
use md5::{Digest, Md5};
use sha1::Sha1;

/// What a password that fits decrypts a stream by.
#[derive(Clone, Copy)]
pub enum Key {
    /// The array of XOR obfuscation.
    Xor { array: [u8; 16] },
    /// What the keys of RC4 are made of.
    Blocks { keys: BlockKeys },
}

// The keys decrypt a verifier and its MD5.
fn verifies_md5(keys: BlockKeys, mut verifier: [u8; 16], mut hash: [u8; 16]) -> bool
    ensures { result ≡ verifies md5 keys verifier hash }
{
    let mut stream = KeyStream::new(keys);
    stream.apply(&mut verifier);
    stream.apply(&mut hash);
    Md5::digest(&verifier) == hash
}

// The keys decrypt a verifier and its SHA-1.
fn verifies_sha1(keys: BlockKeys, mut verifier: [u8; 16], mut hash: [u8; 20]) -> bool
    ensures { result ≡ verifies sha1 keys verifier hash }
{
    let mut stream = KeyStream::new(keys);
    stream.apply(&mut verifier);
    stream.apply(&mut hash);
    Sha1::digest(&verifier) == hash
}

// The key of XOR obfuscation, where the password fits.
fn xor_key(key: u16, verifier: u16, password: &[u16]) -> Option<Key>
    ensures { result ≡ key_for (schemes.Xor key verifier) password.now }
{
    if password.is_empty() {
        return None;
    }
    let mut bytes = [0; 15];
    let len = fill_bytes(password, &mut bytes);
    let bytes = &bytes[..len];
    if key_of(bytes) == key && verifier_of(bytes) == verifier {
        Some(Key::Xor {
            array: array_of(bytes, key),
        })
    } else {
        None
    }
}

impl Scheme {
    /// The key of a password, in units of 16 bits, where the password fits.
    pub fn key(&self, password: &[u16]) -> Option<Key>
        ensures exact { result ≡ key_for self.now password.now }
    {
        match self {
            Scheme::Xor { key, verifier } => xor_key(*key, *verifier, password),
            Scheme::Rc4 {
                salt,
                verifier,
                hash,
            } => {
                let keys = BlockKeys::rc4(salt, password);
                if verifies_md5(keys, *verifier, *hash) {
                    Some(Key::Blocks { keys })
                } else {
                    None
                }
            }
            Scheme::CryptoApi {
                key_bits,
                salt,
                verifier,
                hash,
            } => {
                let keys = BlockKeys::crypto_api(*key_bits, salt, password);
                if verifies_sha1(keys, *verifier, *hash) {
                    Some(Key::Blocks { keys })
                } else {
                    None
                }
            }
        }
    }
}
