//! MergeCells.

ghost use Rattle.std.specs.Prelude.{◌≡◌, ◌+◌, ◌*◌, ◌≤◌, length, map, OnOk, IfOk};
ghost use Rattle.std.specs.List.{range_with_len};
ghost use Rattle.xls_record.specs.Reading.{Adds, Appends, Exactly, IsLonger};
ghost use Rattle.xls_biff.specs.Records.MergeCells.{merge_count, merges_at, region_at};

use crate::fields::u16_at;
use std::alloc::AllocError;
use xls_bytes::read_u16;
use xls_data::Dimensions;
use xls_strings::{Part, XlsError, need};

/// How many regions a MergeCells record's body has. `Len` for fewer than 2 bytes, and for fewer than so
/// many regions take; bytes after them are passed over. Takes no memory.
pub fn count_merges(r: &[u8]) -> Result<usize, XlsError>
    ensures exact { Exactly (λ n. n) result (merge_count r.now) }
    ensures sized { IfOk result (λ n. 2 + 8 * n ≤ length r.now) }
{
    need(r, 2, Part::MergeCells)?;
    let count = usize::from(read_u16(r));
    need(r, 2 + 8 * count, Part::MergeCells)?;
    Ok(count)
}

/// The region of a MergeCells record's body by its number, counted from 0, which is below `count_merges`:
/// its first row and column and its last ones, as they stand there. Takes no memory.
pub fn merge_region(r: &[u8], i: usize) -> Dimensions
    requires { 10 + 8 * i ≤ length r.now }
    ensures { result ≡ region_at r.now i }
{
    let top = u32::from(u16_at(r, 2 + 8 * i));
    let bottom = u32::from(u16_at(r, 4 + 8 * i));
    let left = u32::from(u16_at(r, 6 + 8 * i));
    let right = u32::from(u16_at(r, 8 + 8 * i));
    Dimensions::new((top, left), (bottom, right))
}

/// Appends so many regions; an error may leave some.
fn push_merges(r: &[u8], count: usize, merges: &mut Vec<Dimensions>) -> Result<(), AllocError>
    requires { 2 + 8 * count ≤ length r.now }
    ensures ok { OnOk result (Adds (λ d. d) merges.old.items merges.new.items
        (map (region_at r.now) (range_with_len 0 count))) }
    ensures grown { IsLonger merges.old.items merges.new.items }
{
    for i in 0..count {
        merges.push(merge_region(r, i))?;
    }
    Ok(())
}

/// Appends the regions of a MergeCells record's body: a count, and for each region its first row, last
/// row, first column and last column. `Len` as `count_merges` says. After a refusal, out of memory too,
/// `merges` is as it was.
pub fn parse_merge_cells(r: &[u8], merges: &mut Vec<Dimensions>) -> Result<(), XlsError>
    ensures { Appends (λ d. d) merges.old.items result merges.new.items (merges_at r.now) }
{
    let count = count_merges(r)?;
    let before = merges.len();
    let done = push_merges(r, count, merges);
    if done.is_err() {
        merges.truncate(before);
    }
    Ok(done?)
}
