//! How a call ends.

ghost use Rattle.xls_beside_arrays.specs.Answers.{IsEnd};

use crate::items::Counts;
use crate::rooms::{NOTHING, Rooms, fits};
use xls_arrays::{Fault, Refusal, answer};

/// Puts how long the arrays must be into `counts` and the numbers of a refusal into `fault`, and gives its code; where
/// what was asked for was done, an array may still be too short.
pub(crate) fn end<T: Copy>(
    done: Result<(), Refusal>,
    rooms: &Rooms<'_, T>,
    counts: &mut Counts,
    fault: &mut Fault,
) -> u32
    ensures { IsEnd done rooms.now counts.new fault.new result }
{
    match done {
        Ok(()) => {
            *counts = rooms.laid;
            if fits(rooms) {
                answer(Ok(()), fault)
            } else {
                answer(Err(Refusal::TooShort), fault)
            }
        }
        Err(refusal) => {
            *counts = NOTHING;
            answer(Err(refusal), fault)
        }
    }
}
