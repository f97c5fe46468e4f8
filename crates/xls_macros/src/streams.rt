//! Streams of a compound file, by the names that lead to them.

ghost use Rattle.std.specs.Prelude.{◌≡◌, ◌∷◌, ◌++◌, [], map, IfOk, IfErr};
ghost use Rattle.std.specs.Cow.{cow_slice_items};
ghost use Rattle.std.specs.Option.{option_map};
ghost use Rattle.xls_macros.specs.Streams.{HasStreamAt, RefusesStreamAt, RefusesStreamIn};

use std::alloc::{AllocError, Global};
use std::borrow::CowSlice;
use xls_compound::{Compound, CompoundError};

// The names of storages, and behind them that of a stream.
fn path_of<'n>(
    alloc: Global,
    storages: &[&'n str],
    name: &'n str,
) -> Result<Vec<&'n str>, AllocError>
    ensures { IfOk result (λ path. map (λ x. x.now) path.items ≡ map (λ x. x.now) storages.now ++ name.now ∷ []) }
{
    let mut path = Vec::new(alloc);
    path.extend_from_slice(storages)?;
    path.push(name)?;
    Ok(path)
}

// The bytes of the stream at a path.
fn stream_at<'c>(
    alloc: Global,
    compound: &'c Compound<'_>,
    path: &[&str],
) -> Result<Option<CowSlice<'c, u8>>, CompoundError>
    ensures ok { IfOk result (λ found. HasStreamAt compound.now (map (λ x. x.now) path.now) (option_map cow_slice_items found)) }
    ensures err { IfErr result (RefusesStreamAt compound.now (map (λ x. x.now) path.now)) }
{
    let Some(entry) = compound.find(path) else {
        return Ok(None);
    };
    if !entry.is_stream() {
        return Ok(None);
    }
    let bytes = compound.stream(alloc, &entry)?;
    Ok(Some(bytes))
}

/// The bytes of the stream of a name in storages, the outermost of which stands in the root. `None` where there is no
/// such stream; refused with the first fault of its chain.
pub(crate) fn stream_in<'c>(
    alloc: Global,
    compound: &'c Compound<'_>,
    storages: &[&str],
    name: &str,
) -> Result<Option<CowSlice<'c, u8>>, CompoundError>
    ensures ok { IfOk result (λ found. HasStreamAt compound.now (map (λ x. x.now) storages.now ++ name.now ∷ [])
        (option_map cow_slice_items found)) }
    ensures err { IfErr result (RefusesStreamIn compound.now (map (λ x. x.now) storages.now ++ name.now ∷ [])) }
{
    let path = path_of(alloc, storages, name)?;
    stream_at(alloc, compound, &path)
}
