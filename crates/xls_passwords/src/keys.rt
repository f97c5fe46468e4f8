//! The keys of RC4, [MS-OFFCRYPTO] 2.3.6.2, and of RC4 CryptoAPI, 2.3.5.2, and their key streams.

ghost use Rattle.std.specs.Prelude.{◌≡◌, ◌<◌, ◌≤◌, ◌+◌, ◌^◌, ◌++◌, List, ℕ, length, take};
ghost use Rattle.md5.specs.Md5.{md5};
ghost use Rattle.md5.specs.Md5.{Holds as HoldsMd5};
ghost use Rattle.sha1.specs.Sha1.{sha1};
ghost use Rattle.sha1.specs.Sha1.{Holds as HoldsSha1};
ghost use Rattle.xls_passwords.specs.Rc4.{keyed};
ghost use Rattle.xls_passwords.specs.Streams.{IsHere};
ghost use Rattle.xls_passwords.specs.Keys.{unit_bytes, rc4_base, crypto_api_base, sized, block_key, key_byte, along, xored};

use crate::rc4::Rc4;
use md5::{Digest, Md5};
use sha1::Sha1;

/// What the keys of all blocks are made of.
#[derive(Clone, Copy)]
pub enum BlockKeys {
    /// Those of RC4: five bytes of a hash.
    Rc4 { base: [u8; 5] },
    /// Those of RC4 CryptoAPI: how many bits they have, and a hash.
    CryptoApi { bits: u32, base: [u8; 20] },
}

// The hash of a password.
fn password_md5(password: &[u16]) -> [u8; 16]
    ensures { result ≡ md5 (unit_bytes password.now) }
{
    let mut hasher = Md5::new();
    'units: for unit in password {
        hasher.update(&unit.to_le_bytes());
    }
    hasher.finalize()
}

// The first five bytes.
fn first_5(bytes: &[u8; 16]) -> [u8; 5]
    ensures { result ≡ take 5 bytes.now }
{
    let mut first = [0; 5];
    first.copy_from_slice(&bytes[..5]);
    first
}

// So many bits of a hash, as a key.
fn keyed_by(bits: u32, hash: &[u8; 20]) -> Rc4
    ensures { result ≡ keyed (sized bits hash.now) }
{
    if bits == 40 {
        let mut key = [0; 16];
        key[..5].copy_from_slice(&hash[..5]);
        return Rc4::new(&key);
    }
    let len = (bits as usize / 8).min(20);
    Rc4::new(&hash[..len])
}

impl BlockKeys {
    /// Those of a password under RC4.
    pub(crate) fn rc4(salt: &[u8; 16], password: &[u16]) -> BlockKeys
        ensures { result ≡ BlockKeys.Rc4 (rc4_base salt.now password.now) }
    {
        let start = first_5(&password_md5(password));
        let mut hasher = Md5::new();
        'rounds: for _ in 0..16u8 {
            hasher.update(&start);
            hasher.update(salt);
        }
        BlockKeys::Rc4 {
            base: first_5(&hasher.finalize()),
        }
    }

    /// Those of a password under RC4 CryptoAPI.
    pub(crate) fn crypto_api(bits: u32, salt: &[u8; 16], password: &[u16]) -> BlockKeys
        ensures { result ≡ BlockKeys.CryptoApi bits (crypto_api_base salt.now password.now) }
    {
        let mut hasher = Sha1::new();
        hasher.update(salt);
        'units: for unit in password {
            hasher.update(&unit.to_le_bytes());
        }
        BlockKeys::CryptoApi {
            bits,
            base: hasher.finalize(),
        }
    }

    // The state before the first byte of a block.
    fn block(&self, n: usize) -> Rc4
        ensures { result ≡ keyed (block_key self.now n) }
    {
        let number = ((n % 0x1_0000_0000) as u32).to_le_bytes();
        match self {
            BlockKeys::Rc4 { base } => {
                let mut hasher = Md5::new();
                hasher.update(base);
                hasher.update(&number);
                Rc4::new(&hasher.finalize())
            }
            BlockKeys::CryptoApi { bits, base } => {
                let mut hasher = Sha1::new();
                hasher.update(base);
                hasher.update(&number);
                keyed_by(*bits, &hasher.finalize())
            }
        }
    }
}

/// The bytes of the key streams, one after another. A block's state is all its memory.
#[derive(Drop)]
pub(crate) struct KeyStream {
    keys: BlockKeys,
    // The state of the block of the next offset.
    state: Rc4,
    // The next offset.
    offset: usize,
}

impl KeyStream {
    /// Those from offset 0 on.
    pub(crate) fn new(keys: BlockKeys) -> KeyStream
        ensures here { IsHere result }
        ensures keys { result.keys ≡ keys }
        ensures offset { result.offset ≡ 0 }
    {
        KeyStream {
            state: keys.block(0),
            keys,
            offset: 0,
        }
    }

    // The byte at the next offset.
    fn next(&mut self) -> u8
        requires room { self.old.offset + 1 < 2 ^ 64 }
        requires here { IsHere self.old }
        ensures exact { result ≡ key_byte self.old.keys self.old.offset }
        ensures here { IsHere self.new }
        ensures keys { self.new.keys ≡ self.old.keys }
        ensures offset { self.new.offset ≡ self.old.offset + 1 }
    {
        let byte = self.state.next();
        self.offset += 1;
        if self.offset % 1024 == 0 {
            self.state = self.keys.block(self.offset / 1024);
        }
        byte
    }

    /// Goes over so many bytes.
    pub(crate) fn skip(&mut self, count: usize)
        requires room { self.old.offset + count < 2 ^ 64 }
        requires here { IsHere self.old }
        ensures here { IsHere self.new }
        ensures keys { self.new.keys ≡ self.old.keys }
        ensures offset { self.new.offset ≡ self.old.offset + count }
    {
        'skipped: for _ in 0..count {
            self.next();
        }
    }

    /// Xors the next bytes of a stream with the bytes at their offsets.
    pub(crate) fn apply(&mut self, bytes: &mut [u8])
        requires room { self.old.offset + length bytes.old < 2 ^ 64 }
        requires here { IsHere self.old }
        ensures exact { bytes.new ≡ along (xored self.old.keys) self.old.offset bytes.old }
        ensures here { IsHere self.new }
        ensures keys { self.new.keys ≡ self.old.keys }
        ensures offset { self.new.offset ≡ self.old.offset + length bytes.old }
    {
        'bytes: for b in bytes.iter_mut() {
            *b ^= self.next();
        }
    }
}
