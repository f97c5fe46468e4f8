//! The extra bytes of tokens that write nothing.

ghost use Rattle.std.specs.Prelude.{◌≡◌, ◌≤◌, length, drop};
ghost use Rattle.xls_shown_ptg.specs.Extra.{after_elf, after_mem_area};

use xls_bytes::read_usize;
use xls_ptg::word_at;
use xls_record::{Biff, is_biff8};

// What stands behind so many bytes; nothing where fewer are there.
fn passed(extra: &[u8], size: usize) -> &[u8]
    ensures { result.now ≡ drop size extra.now }
{
    let (_, rest) = extra.split_at(size.min(extra.len()));
    rest
}

/// The extra bytes behind those of a PtgElfRadicalS (PtgExtraElf). Of a cut count nothing is left.
pub fn after_elf(extra: &[u8]) -> &[u8]
    ensures { result.now ≡ after_elf extra.now }
{
    if extra.len() < 4 {
        return passed(extra, 4);
    }
    passed(extra, 4 + 4 * (read_usize(extra) % (1 << 30)))
}

/// The extra bytes behind those of a PtgMemArea (PtgExtraMem). Of a cut count nothing is left.
pub fn after_mem_area(extra: &[u8], biff: Biff) -> &[u8]
    ensures { result.now ≡ after_mem_area biff extra.now }
{
    if extra.len() < 2 {
        return passed(extra, 2);
    }
    let size = if is_biff8(biff) { 8 } else { 6 };
    passed(extra, 2 + usize::from(word_at(extra, 0)) * size)
}
