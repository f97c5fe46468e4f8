//! Bytes that are put into an array, all of them or none.

ghost use Rattle.std.specs.Prelude.{ℕ, List};
ghost use Rattle.std.specs.String.{string_bytes};
ghost use Rattle.xls_arrays.specs.Whole.{PutsBuilt, PutsWhole};

use std::alloc::AllocError;

/// Puts bytes at the beginning of an array, if it has room for all of them, and tells how many they are.
pub(crate) fn put_whole(bytes: &[u8], out: &mut [u8], size: &mut u64) -> bool
    ensures { PutsWhole bytes.now out.old out.new size.new result }
{
    *size = bytes.len() as u64;
    if bytes.len() > out.len() {
        return false;
    }
    out[..bytes.len()].copy_from_slice(bytes);
    true
}

/// Likewise a text that was made. Answers 0, 1 where memory ran out, or 2 where the array is too short.
pub(crate) fn put_text(built: Result<String, AllocError>, out: &mut [u8], size: &mut u64) -> u32
    ensures { PutsBuilt built out.old out.new size.new result }
{
    match built {
        Ok(text) => {
            if put_whole(text.as_bytes(), out, size) {
                0
            } else {
                2
            }
        }
        Err(_) => {
            *size = 0;
            1
        }
    }
}
