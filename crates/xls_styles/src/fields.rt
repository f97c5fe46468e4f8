//! Numbers in the body of a record. Bytes that aren't there count as 0.

ghost use Rattle.std.specs.Prelude.{◌≡◌, ◌≤◌, ◌<◌, ◌+◌, ◌^◌, slice_index_or};
ghost use Rattle.xls_styles.specs.Fields as fields;

/// The byte at a place.
fn byte_at(body: &[u8], place: usize) -> u32
    ensures value { result ≡ slice_index_or body.now place 0 }
    ensures byte { result < 256 }
{
    match body.get(place) {
        Some(byte) => u32::from(*byte),
        None => 0,
    }
}

/// The number of 32 bits at a place.
fn number_at(body: &[u8], place: usize) -> u32
    requires { place ≤ 32 }
    ensures { result ≡ fields.number_at place body.now }
{
    let low = byte_at(body, place) + 256 * byte_at(body, place + 1);
    let high = byte_at(body, place + 2) + 256 * byte_at(body, place + 3);
    low + 65_536 * high
}

/// The number in a field of at most 16 bits: its place, its lowest bit, and how many it has.
pub(crate) fn wide_field(body: &[u8], place: usize, lowest: u32, count: u32) -> u16
    requires place { place ≤ 32 }
    requires lowest { lowest < 32 }
    requires count { count ≤ 16 }
    ensures { result ≡ fields.field_at (place, lowest, count) body.now }
{
    ((number_at(body, place) >> lowest) % (1 << count)) as u16
}

/// The same of at most 8 bits.
pub(crate) fn field(body: &[u8], place: usize, lowest: u32, count: u32) -> u8
    requires place { place ≤ 32 }
    requires lowest { lowest < 32 }
    requires count { count ≤ 8 }
    ensures { result ≡ fields.field_at (place, lowest, count) body.now }
{
    ((number_at(body, place) >> lowest) % (1 << count)) as u8
}

/// Whether a bit of the number at a place is set.
pub(crate) fn bit(body: &[u8], place: usize, lowest: u32) -> bool
    requires place { place ≤ 32 }
    requires lowest { lowest < 32 }
    ensures { result ≡ fields.is_set (place, lowest, 1) body.now }
{
    field(body, place, lowest, 1) == 1
}
