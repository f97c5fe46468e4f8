//! XOR obfuscation, method 1, [MS-OFFCRYPTO] 2.3.7.

ghost use Rattle.std.specs.Prelude.{◌≡◌, ◌≤◌, ◌<◌, ◌+◌, ◌-◌, ◌%◌, ◌++◌, take, length};
ghost use Rattle.xls_passwords.specs.Xor.{unit_byte, password_bytes, turned_15, with_verified, verifier_of, lowered, next_code, with_bit, with_bits, with_byte, coded, key_of, padding, array_byte, array_of};

// What the bits of a password give, from the last byte on.
#[derive(Clone, Copy)]
struct XorKey {
    base: u16,
    end: u16,
    key: u16,
}

// What stands behind the bytes of a password in its array.
const PADDING: [u8; 15] = [
    0xBB, 0xFF, 0xFF, 0xBA, 0xFF, 0xFF, 0xB9, 0x80, 0x00, 0xBE, 0x0F, 0x00, 0xBF, 0x0F, 0x00,
];

// A byte in the verifier.
fn with_verified(verifier: u16, byte: u8) -> u16
    ensures { result ≡ with_verified verifier byte }
{
    (verifier % 0x4000 * 2 + verifier / 0x4000) ^ u16::from(byte)
}

/// The verifier of a password's bytes, of which there are at most 15.
pub(crate) fn verifier_of(bytes: &[u8]) -> u16
    requires { length bytes.now ≤ 15 }
    ensures { result ≡ verifier_of bytes.now }
{
    let verifier = bytes.iter().rev().fold(0, |v, b| with_verified(v, *b));
    with_verified(verifier, bytes.len() as u8) ^ 0xCE4B
}

// The number after one, of those that bits count with.
fn next_code(n: u16) -> u16
    ensures { result ≡ next_code n }
{
    let turned = n.rotate_left(1);
    if turned % 2 == 1 {
        turned ^ 0x1020
    } else {
        turned
    }
}

impl XorKey {
    // The next bit.
    fn with_bit(self, bit: u8) -> XorKey
        ensures { result ≡ with_bit bit self }
    {
        let base = next_code(self.base);
        XorKey {
            base,
            end: next_code(self.end),
            key: if bit == 1 { self.key ^ base } else { self.key },
        }
    }

    // The next byte.
    #[tactic(auto, unfolding(crate::specs::Xor::with_bits))]
    fn with_byte(self, byte: u8) -> XorKey
        ensures { result ≡ with_byte self byte }
    {
        let mut key = self;
        let mut bits = byte % 128;
        'bits: for _ in 0..8u8 {
            key = key.with_bit(bits % 2);
            bits /= 2;
        }
        key
    }
}

/// The key of a password's bytes.
pub(crate) fn key_of(bytes: &[u8]) -> u16
    ensures { result ≡ key_of bytes.now }
{
    let start = XorKey {
        base: 0x8000,
        end: 0xFFFF,
        key: 0,
    };
    let coded = bytes.iter().rev().fold(start, |k, b| k.with_byte(*b));
    coded.key ^ coded.end
}

// The byte of a unit.
fn unit_byte(unit: u16) -> u8
    ensures { result ≡ unit_byte unit }
{
    if unit % 256 == 0 {
        (unit / 256) as u8
    } else {
        (unit % 256) as u8
    }
}

/// Writes the bytes of a password to the front of an array, and answers how many they are.
pub(crate) fn fill_bytes(units: &[u16], bytes: &mut [u8; 15]) -> usize
    ensures exact { take result bytes.new ≡ password_bytes units.now }
    ensures within { result ≤ 15 }
{
    let count = units.len().min(15);
    'units: for i in 0..count {
        bytes[i] = unit_byte(units[i]);
    }
    count
}

// A byte of a password filled up, and the byte of the key that meets it.
fn array_byte(bytes: &[u8], key: u16, i: usize) -> u8
    requires few { length bytes.now ≤ 15 }
    requires within { i < 16 }
    requires some { 0 < length bytes.now }
    ensures exact { result ≡ array_byte (bytes.now ++ padding) key i }
{
    let byte = if i < bytes.len() {
        bytes[i]
    } else {
        PADDING[i - bytes.len()]
    };
    let half = if i % 2 == 0 { key % 256 } else { key / 256 };
    (byte ^ half as u8).rotate_left(2)
}

/// The array of a password's bytes, of which there are 1 to 15.
pub(crate) fn array_of(bytes: &[u8], key: u16) -> [u8; 16]
    requires few { length bytes.now ≤ 15 }
    requires some { 0 < length bytes.now }
    requires key { key ≡ key_of bytes.now }
    ensures exact { result ≡ array_of bytes.now }
{
    let mut array = [0u8; 16];
    'bytes: for i in 0..16 {
        array[i] = array_byte(bytes, key, i);
    }
    array
}
