//! Numbers at a place in bytes, None where the bytes end early. The low byte stands first.

ghost use Rattle.std.specs.Prelude.{◌≡◌, ◌≤◌, length, IfSome};
ghost use Rattle.std.specs.Option.{option_map};
ghost use Rattle.xls_props.specs.Bytes.{rest_at, bytes_at, u16_at, i16_at, u32_at, i32_at, u64_at};

use xls_bytes::{read_i16, read_i32, read_u16, read_u32, read_u64};

// The bytes from a place on, where n or more are there.
fn rest_at(bytes: &[u8], at: usize, n: usize) -> Option<&[u8]>
    ensures rest { option_map (λ x. x.now) result ≡ rest_at bytes.now at n }
    ensures room { IfSome result (λ x. n ≤ length x.now) }
{
    if bytes.len() < at || bytes.len() - at < n {
        return None;
    }
    let (_, rest) = bytes.split_at(at);
    Some(rest)
}

/// The n bytes at a place.
pub(crate) fn bytes_at(bytes: &[u8], at: usize, n: usize) -> Option<&[u8]>
    ensures { option_map (λ x. x.now) result ≡ bytes_at bytes.now at n }
{
    let rest = rest_at(bytes, at, n)?;
    let (prefix, _) = rest.split_at(n);
    Some(prefix)
}

pub(crate) fn u16_at(bytes: &[u8], at: usize) -> Option<u16>
    ensures { result ≡ u16_at bytes.now at }
{
    let rest = rest_at(bytes, at, 2)?;
    Some(read_u16(rest))
}

pub(crate) fn i16_at(bytes: &[u8], at: usize) -> Option<i16>
    ensures { result ≡ i16_at bytes.now at }
{
    let rest = rest_at(bytes, at, 2)?;
    Some(read_i16(rest))
}

pub(crate) fn u32_at(bytes: &[u8], at: usize) -> Option<u32>
    ensures { result ≡ u32_at bytes.now at }
{
    let rest = rest_at(bytes, at, 4)?;
    Some(read_u32(rest))
}

pub(crate) fn i32_at(bytes: &[u8], at: usize) -> Option<i32>
    ensures { result ≡ i32_at bytes.now at }
{
    let rest = rest_at(bytes, at, 4)?;
    Some(read_i32(rest))
}

pub(crate) fn u64_at(bytes: &[u8], at: usize) -> Option<u64>
    ensures { result ≡ u64_at bytes.now at }
{
    let rest = rest_at(bytes, at, 8)?;
    Some(read_u64(rest))
}
