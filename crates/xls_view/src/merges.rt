//! The merged regions of a sheet.

ghost use Rattle.xls_stream.specs.Walks.{IsBytes};
ghost use Rattle.std.specs.Prelude.{◌≡◌, []};
ghost use Rattle.xls_biff.specs.Records.MergeCells.{merges_at};
ghost use Rattle.xls_view.specs.Walking.{MergeSteps, PassesRegions};
ghost use Rattle.xls_biff.specs.Walking.{group_of};
ghost use Rattle.xls_stream.specs.Listing.{kept_group};
ghost use Rattle.xls_view.specs.SheetContents.{regions_at};

use std::marker::Model;
use xls_biff::{Record, SheetRecords, count_merges, merge_region};
use xls_data::Dimensions;
use xls_stream::types::MERGE_CELLS;

/// The regions of a MergeCells record that are left. Contracts see the list of them.
#[derive(Drop)]
struct Regions<'c> {
    body: &'c [u8],
    next: usize,
    count: usize,
}

impl<'c> Model for Regions<'c> {
    ghost use Rattle.std.specs.Prelude.{◌≤◌, ◌<◌, ◌+◌, ◌-◌, ◌*◌, ℕ, List, map, length};
    ghost use Rattle.std.specs.List.{range_with_len};
    ghost use Rattle.xls_biff.specs.Records.MergeCells.{region_at};
    ghost use Rattle.xls_data.specs.declared.regions.Dimensions.{Dimensions};

    ghost Value = { List Dimensions };

    ghost view = { λ r. map (region_at r.body.now) (range_with_len r.next (r.count - r.next)) };

    ghost invariant = { λ r. (r.next ≤ r.count) × ((i : ℕ) → i < r.count → 10 + 8 * i ≤ length r.body.now) };
}

impl<'c> Regions<'c> {
    /// No regions.
    fn none() -> Regions<'c>
        ensures { result ≡ [] }
    {
        Regions {
            body: &[],
            next: 0,
            count: 0,
        }
    }

    /// The regions of a MergeCells record, and none of a record of another type or with a fault.
    fn of(r: &Record<'c>) -> Regions<'c>
        ensures { result ≡ regions_at (kept_group (group_of r.now)) }
    {
        if r.typ != MERGE_CELLS {
            return Regions::none();
        }
        let body = r.body;
        match count_merges(body) {
            Ok(count) => Regions {
                body,
                next: 0,
                count,
            },
            Err(_) => Regions::none(),
        }
    }

    /// The next region.
    fn next(&mut self) -> Option<Dimensions>
        ensures { MergeSteps self.old result self.new }
    {
        if self.next == self.count {
            return None;
        }
        let region = merge_region(self.body, self.next);
        self.next += 1;
        Some(region)
    }
}

/// The merged regions of a sheet that are left, in the order of the stream. Contracts see the list of them.
#[derive(Drop)]
pub struct Merges<'c> {
    records: SheetRecords<'c>,
    /// The regions of the record that was read last.
    regions: Regions<'c>,
}

impl<'c> Model for Merges<'c> {
    ghost use Rattle.std.specs.Prelude.{◌++◌, List};
    ghost use Rattle.xls_data.specs.declared.regions.Dimensions.{Dimensions};
    ghost use Rattle.xls_stream.specs.Walks.{IsBytes};
    ghost use Rattle.xls_view.specs.SheetContents.{kept_in, regions_of};

    ghost Value = { List Dimensions };

    ghost view = { λ m. m.regions ++ regions_of (kept_in m.records.0 m.records.1) };

    ghost invariant = { λ m. IsBytes m.records.0 };
}

/// The regions of the next MergeCells record that has some.
fn next_regions<'c>(records: &mut SheetRecords<'c>) -> Option<(Dimensions, Regions<'c>)>
    requires { IsBytes records.old.0 }
    ensures bytes { IsBytes records.new.0 }
    ensures passes { PassesRegions records.old result records.new }
{
    while let Some(item) = records.next() {
        let record = match item {
            Ok(record) => record,
            Err(_) => return None,
        };
        let mut regions = Regions::of(&record);
        if let Some(region) = regions.next() {
            return Some((region, regions));
        }
    }
    None
}

impl<'c> Iterator for Merges<'c> {
    ghost use Rattle.std.specs.Prelude.{length};
    ghost use Rattle.std.specs.Iterator.{at_most};
    ghost use Rattle.xls_view.specs.Walking.{MergeSteps};

    type Item = Dimensions;

    ghost next_gives = { MergeSteps };

    ghost remaining = { λ regions. at_most (length regions) };

    fn next(&mut self) -> Option<Dimensions> {
        if let Some(region) = self.regions.next() {
            return Some(region);
        }
        let (region, regions) = next_regions(&mut self.records)?;
        self.regions = regions;
        Some(region)
    }
}

impl<'c> Merges<'c> {
    ghost use Rattle.std.specs.Prelude.{◌≡◌};
    ghost use Rattle.xls_view.specs.SheetContents.{kept_in, regions_of};

    /// The regions of a sheet part.
    pub fn new(part: &'c [u8]) -> Merges<'c>
        ensures { result ≡ regions_of (kept_in part.now 0) }
    {
        Merges {
            records: SheetRecords::new(part),
            regions: Regions::none(),
        }
    }
}
