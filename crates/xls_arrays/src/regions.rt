//! The merged regions of a sheet.

ghost use Rattle.std.specs.Prelude.{OnOk};
ghost use Rattle.xls_arrays.specs.Arrays.{laid, with_region};
ghost use Rattle.xls_arrays.specs.Filled.{KeepsRooms, Lays};

use crate::items::RegionItem;
use crate::rooms::{Rooms, lay_region_item};
use std::alloc::AllocError;
use xls_data::Dimensions;
use xls_view::Merges;

/// Lays a merged region.
fn lay_region(rooms: &mut Rooms<'_>, region: Dimensions) -> Result<(), AllocError>
    ensures same { KeepsRooms rooms.old rooms.new }
    ensures ok { OnOk result (Lays rooms.old rooms.new (λ a. with_region a region)) }
{
    lay_region_item(
        rooms,
        RegionItem {
            first_row: region.start.0,
            first_column: region.start.1,
            last_row: region.end.0,
            last_column: region.end.1,
        },
    )
}

/// Lays merged regions.
pub(crate) fn lay_regions(rooms: &mut Rooms<'_>, regions: Merges<'_>) -> Result<(), AllocError>
    ensures same { KeepsRooms rooms.old rooms.new }
    ensures ok { OnOk result (Lays rooms.old rooms.new (λ a. laid with_region a regions.entry)) }
{
    for region in regions {
        lay_region(rooms, region)?;
    }
    Ok(())
}
