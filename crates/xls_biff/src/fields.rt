//! Numbers at a place in a record's body.

ghost use Rattle.std.specs.Prelude.{◌≡◌, ◌+◌, ◌≤◌, length, take, drop};
ghost use Rattle.xls_bytes.specs.Numbers.{le, twos_complement};

use xls_bytes::{read_bits, read_i16, read_u16, read_u32};

/// The 16-bit number at a place.
pub(crate) fn u16_at(body: &[u8], at: usize) -> u16
    requires { at + 2 ≤ length body.now }
    ensures { result ≡ le (take 2 (drop at body.now)) }
{
    let (_, rest) = body.split_at(at);
    read_u16(rest)
}

/// The 64 bits at a place.
pub(crate) fn bits_at(body: &[u8], at: usize) -> u64
    requires { at + 8 ≤ length body.now }
    ensures { result ≡ le (take 8 (drop at body.now)) }
{
    let (_, rest) = body.split_at(at);
    read_bits(rest)
}

/// The signed 16-bit number at a place.
pub(crate) fn i16_at(body: &[u8], at: usize) -> i16
    requires { at + 2 ≤ length body.now }
    ensures { result ≡ twos_complement 16 (le (take 2 (drop at body.now))) }
{
    let (_, rest) = body.split_at(at);
    read_i16(rest)
}

/// The 32-bit number at a place.
pub(crate) fn u32_at(body: &[u8], at: usize) -> u32
    requires { at + 4 ≤ length body.now }
    ensures { result ≡ le (take 4 (drop at body.now)) }
{
    let (_, rest) = body.split_at(at);
    read_u32(rest)
}
