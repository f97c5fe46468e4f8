//! Strings without a count.

ghost use Rattle.std.specs.Prelude.{◌≡◌, ◌<◌, ◌≤◌, length, IfOk};
ghost use Rattle.xls_record.specs.Reading.{Exactly};
ghost use Rattle.xls_strings.specs.Uncounted.{uncounted_size};

use xls_record::{XlsError, need};
use xls_stream::Part;

/// How many bytes a string without a count takes, XLUnicodeStringNoCch of [MS-XLS]: a flags byte, and
/// `count` units of one byte, or of two where flag 01 is set. `Len` where no flags byte is there, and
/// where fewer bytes are there. Takes no memory.
pub fn size_of_uncounted(r: &[u8], count: u16) -> Result<usize, XlsError>
    ensures exact { Exactly (λ n. n) result (uncounted_size count r.now) }
    ensures within { IfOk result (λ n. (0 < n) × (n ≤ length r.now)) }
{
    need(r, 1, Part::NoCch)?;
    let units = usize::from(count);
    let size = if r[0] % 2 == 1 {
        1 + 2 * units
    } else {
        1 + units
    };
    need(r, size, Part::NoCch)?;
    Ok(size)
}
