//! The plain stream of an encrypted one, in place.

ghost use Rattle.std.specs.Prelude.{◌≡◌, ◌≤◌, ◌<◌, ◌+◌, ◌-◌, ◌^◌, ◌∷◌, ◌++◌, length, take, drop, replicate, Some};
ghost use Rattle.xls_passwords.specs.Keys.{along};
ghost use Rattle.xls_passwords.specs.Records.{records_from, file_pass_of};
ghost use Rattle.xls_passwords.specs.Plain.{kept_len, plain_byte, plain_body, decrypted, plain};
ghost use Rattle.xls_passwords.specs.Streams.{IsReady, cipher_key, cipher_offset};

use crate::keys::KeyStream;
use crate::passwords::Key;
use crate::records::{FilePass, place_at};
use xls_stream::types;

const INTERFACE_HDR: u16 = 0x00E1;

const RRD_HEAD: u16 = 0x0138;

const USR_EXCL: u16 = 0x0194;

const FILE_LOCK: u16 = 0x0195;

const RRD_INFO: u16 = 0x0196;

/// The types of the records whose bodies aren't encrypted, [MS-XLS] 2.2.10.
pub const PLAIN_TYPES: [u16; 7] = [
    types::BOF,
    types::FILE_PASS,
    INTERFACE_HDR,
    RRD_HEAD,
    USR_EXCL,
    FILE_LOCK,
    RRD_INFO,
];

// How many bytes at the front of a body aren't encrypted.
fn kept_len(typ: u16, size: usize) -> usize
    ensures { result ≡ kept_len typ size }
{
    if PLAIN_TYPES.contains(&typ) {
        size
    } else if typ == types::BOUND_SHEET_8 {
        4
    } else {
        0
    }
}

// The array of XOR obfuscation, and the next offset.
#[derive(Drop)]
struct XorStream {
    array: [u8; 16],
    offset: usize,
}

// What decrypts the bytes of a stream, one after another.
#[derive(Drop)]
enum Cipher {
    Xor(XorStream),
    Blocks(KeyStream),
}

// Decrypts bytes of a body of this size by an array, from an offset on.
fn unmask(array: &[u8; 16], offset: usize, size: usize, bytes: &mut [u8])
    requires { size < 2 ^ 16 }
    ensures exact { bytes.new ≡ along (plain_byte (Key.Xor array.now) size) offset bytes.old }
{
    let mut place = (offset % 16 + size) % 16;
    'bytes: for b in bytes.iter_mut() {
        *b = b.rotate_left(3) ^ array[place];
        place = (place + 1) % 16;
    }
}

impl XorStream {
    // Decrypts the next bytes, which are of a body of this size.
    fn apply(&mut self, size: usize, bytes: &mut [u8])
        requires room { self.old.offset + length bytes.old < 2 ^ 64 }
        requires fits { size < 2 ^ 16 }
        ensures exact { bytes.new ≡ along (plain_byte (Key.Xor self.old.array) size) self.old.offset bytes.old }
        ensures array { self.new.array ≡ self.old.array }
        ensures offset { self.new.offset ≡ self.old.offset + length bytes.old }
    {
        unmask(&self.array, self.offset, size, bytes);
        self.offset += bytes.len();
    }
}

impl Cipher {
    // Before offset 0.
    fn new(key: Key) -> Cipher
        ensures ready { IsReady result }
        ensures key { cipher_key result ≡ key }
        ensures offset { cipher_offset result ≡ 0 }
    {
        match key {
            Key::Xor { array } => Cipher::Xor(XorStream { array, offset: 0 }),
            Key::Blocks { keys } => Cipher::Blocks(KeyStream::new(keys)),
        }
    }

    // Goes over bytes that stay.
    fn skip(&mut self, count: usize)
        requires room { cipher_offset self.old + count < 2 ^ 64 }
        requires ready { IsReady self.old }
        ensures ready { IsReady self.new }
        ensures key { cipher_key self.new ≡ cipher_key self.old }
        ensures offset { cipher_offset self.new ≡ cipher_offset self.old + count }
    {
        match self {
            Cipher::Xor(stream) => stream.offset += count,
            Cipher::Blocks(stream) => stream.skip(count),
        }
    }

    // Decrypts the next bytes, which are of a body of this size.
    fn apply(&mut self, size: usize, bytes: &mut [u8])
        requires room { cipher_offset self.old + length bytes.old < 2 ^ 64 }
        requires fits { size < 2 ^ 16 }
        requires ready { IsReady self.old }
        ensures exact { bytes.new ≡ along (plain_byte (cipher_key self.old) size) (cipher_offset self.old) bytes.old }
        ensures ready { IsReady self.new }
        ensures key { cipher_key self.new ≡ cipher_key self.old }
        ensures offset { cipher_offset self.new ≡ cipher_offset self.old + length bytes.old }
    {
        match self {
            Cipher::Xor(stream) => stream.apply(size, bytes),
            Cipher::Blocks(stream) => stream.apply(bytes),
        }
    }

    // Decrypts a body, of a type and a size by its header.
    fn decrypt(&mut self, typ: u16, size: usize, body: &mut [u8])
        requires room { cipher_offset self.old + length body.old < 2 ^ 64 }
        requires fits { size < 2 ^ 16 }
        requires ready { IsReady self.old }
        ensures exact { body.new ≡ plain_body (cipher_key self.old) (cipher_offset self.old) typ size body.old }
        ensures ready { IsReady self.new }
        ensures key { cipher_key self.new ≡ cipher_key self.old }
        ensures offset { cipher_offset self.new ≡ cipher_offset self.old + length body.old }
    {
        let kept = kept_len(typ, size).min(body.len());
        self.skip(kept);
        self.apply(size, &mut body[kept..]);
    }
}

// Decrypts the records from an offset on.
fn decrypt_from(stream: &mut [u8], from: usize, key: Key)
    requires { from ≤ length stream.old }
    ensures { stream.new ≡ take from stream.old ++ decrypted key (records_from from (drop from stream.old)) }
{
    let mut cipher = Cipher::new(key);
    cipher.skip(from);
    let mut offset = from;
    'records: while stream.len() - offset >= 4 {
        let place = place_at(stream, offset);
        cipher.skip(4);
        cipher.decrypt(place.typ, place.size, &mut stream[place.start..place.end]);
        offset = place.end;
    }
}

// Makes a FilePass a record of type 0000 whose body is zeros.
fn clear(stream: &mut [u8], place: FilePass)
    requires room { place.offset + 4 ≤ place.end }
    requires within { place.end ≤ length stream.old }
    ensures { stream.new ≡ take place.offset stream.old
        ++ (0 ∷ 0 ∷ drop 2 (take 4 (drop place.offset stream.old)) ++ replicate (place.end - (place.offset + 4)) 0 ++ drop place.end stream.old) }
{
    let (before, _) = stream.split_at_mut(place.end);
    let (_, record) = before.split_at_mut(place.offset);
    let (head, body) = record.split_at_mut(4);
    head[0] = 0;
    head[1] = 0;
    body.fill(0);
}

/// Makes a stream plain, in place: what stands behind its FilePass is decrypted by the key of a
/// password that fits, and the FilePass becomes a record of type 0000 and zeros.
pub fn make_plain(stream: &mut [u8], place: FilePass, key: Key)
    requires { file_pass_of stream.old ≡ Some place }
    ensures exact { stream.new ≡ plain key stream.old }
{
    decrypt_from(stream, place.end, key);
    clear(stream, place);
}
