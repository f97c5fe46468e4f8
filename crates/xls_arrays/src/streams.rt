//! The workbook's stream of a file.

ghost use Rattle.std.specs.Prelude.{◌≡◌, IfErr, OnOk, true};
ghost use Rattle.xls_container.specs.Files.{WorkbookBytes};
ghost use Rattle.xls_arrays.specs.Answers.{KeepsStream, PutsStream, RefusesStreamOf};

use crate::reading::answer;
use crate::whole::put_whole;
use crate::{Fault, Refusal};
use std::alloc::Global;
use xls_container::Container;

/// Puts the workbook's stream of a file into an array.
fn put_stream(alloc: Global, file: &[u8], out: &mut [u8], size: &mut u64) -> Result<(), Refusal>
    ensures ok { OnOk result (KeepsStream file.now out.old out.new size.new true) }
    ensures err { IfErr result (RefusesStreamOf file.now out.old out.new size.new) }
{
    *size = 0;
    let container = Container::open(alloc, file)?;
    let bytes = container.workbook(alloc)?;
    if put_whole(bytes.as_slice(), out, size) {
        Ok(())
    } else {
        Err(Refusal::TooShort)
    }
}

/// Puts the workbook's stream of a file into `out`, and its length into `size`: the stream `Workbook`, or else
/// `Book`, of a compound file, or the whole of a file that is such a stream. Where `out` is too short, it is as it
/// was. Of a file without a workbook `size` is 0, and the fault is its first.
pub fn stream(alloc: Global, file: &[u8], out: &mut [u8], size: &mut u64, fault: &mut Fault) -> u32
    ensures { PutsStream file.now out.old out.new size.new fault.new result }
{
    let done = put_stream(alloc, file, out, size);
    answer(done, fault)
}
