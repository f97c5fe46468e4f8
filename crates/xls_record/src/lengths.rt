//! Least lengths.

ghost use Rattle.std.specs.Prelude.{◌≡◌, ◌≤◌, length, IfOk};
ghost use Rattle.xls_record.specs.Reading.{Exactly, at_least};

use crate::error::XlsError;
use xls_stream::Part;

/// Nothing, where the part `typ` has `least` bytes or more; else `Len`. Takes no memory.
pub fn need(body: &[u8], least: usize, typ: Part) -> Result<(), XlsError>
    ensures exact { Exactly (λ u. u) result (at_least least typ body.now) }
    ensures room { IfOk result (λ u. least ≤ length body.now) }
{
    if body.len() < least {
        return Err(XlsError::Len {
            expected: least,
            found: body.len(),
            typ,
        });
    }
    Ok(())
}
