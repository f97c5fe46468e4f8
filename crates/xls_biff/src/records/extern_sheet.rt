//! ExternSheet.

ghost use Rattle.std.specs.Prelude.{◌≡◌, ◌+◌, ◌*◌, ◌≤◌, length, map, IfOk};
ghost use Rattle.std.specs.List.{range_with_len};
ghost use Rattle.xls_record.specs.Reading.{Exactly, Gives, fault_in};
ghost use Rattle.xls_biff.specs.Records.ExternSheet.{ref_at, refs_at, refs_count};

use crate::fields::i16_at;
use crate::refs::Refs;
use std::alloc::{AllocError, Global};
use xls_bytes::read_u16;
use xls_strings::{Biff, Part, Record, XlsError, is_biff8, need};

/// How many whole references an ExternSheet record of BIFF8 has, at most its count.
fn count_refs(body: &[u8]) -> Result<usize, XlsError>
    ensures exact { Exactly (λ n. n) result (refs_count body.now) }
    ensures room { IfOk result (λ n. 2 + 6 * n ≤ length body.now) }
{
    need(body, 2, Part::ExternSheet)?;
    Ok(usize::from(read_u16(body)).min((body.len() - 2) / 6))
}

fn first_refs(alloc: Global, body: &[u8], count: usize) -> Result<Refs, AllocError>
    requires { 2 + 6 * count ≤ length body.now }
    ensures { IfOk result (λ refs. refs ≡ map (ref_at body.now) (range_with_len 0 count)) }
{
    let mut refs = Refs::new(alloc);
    for i in 0..count {
        refs.push(i16_at(body, 4 + 6 * i))?;
    }
    Ok(refs)
}

/// The references of an ExternSheet record, [MS-XLS] 2.4.106: of each whole structure of six bytes from
/// byte 2 on, at most the count in bytes 0 and 1, the number of the first sheet. Before BIFF8 the
/// record isn't read. `Len` for a body of fewer than 2 bytes in BIFF8, else only running out of memory.
pub fn parse_extern_sheet(alloc: Global, r: &Record<'_>, biff: Biff) -> Result<Refs, XlsError>
    ensures { Gives (λ refs. refs) result (refs_at biff r.now.body.now) }
{
    if !is_biff8(biff) {
        return Ok(Refs::new(alloc));
    }
    let count = count_refs(r.body)?;
    Ok(first_refs(alloc, r.body, count)?)
}

/// The error that `parse_extern_sheet` answers, out of memory apart. Takes no memory.
pub fn check_extern_sheet(r: &Record<'_>, biff: Biff) -> Result<(), XlsError>
    ensures { Exactly (λ u. u) result (fault_in (refs_at biff r.now.body.now)) }
{
    if !is_biff8(biff) {
        return Ok(());
    }
    count_refs(r.body)?;
    Ok(())
}
