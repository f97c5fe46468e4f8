use crate::{
    Damage, DamagedRecord, FilterArea, Flaw, HiddenItem, Pane, Run, Why, read_filter_areas,
    read_hidden,
};
use std::alloc::{AllocError, Global};
use xls_record::Biff;

// Globals with the name of a filter's area, rows 2 to 8 of the first sheet, then at byte 35 the part of that sheet: a
// FilterMode, the hidden rows 2 and 3, a Row of two bytes, the hidden columns 250 to 300, a frozen Window2 without
// zeros, and a Pane with two rows above and a column on the left.
static STREAM: [u8; 147] = [
    0x18, 0, 27, 0, 0x20, 0, 0, 1, 11, 0, 0, 0, 1, 0, 0, 0, 0, 0, 0, 0x0D, 0x3B, 0, 0, 2, 0, 8, 0,
    0, 0, 3, 0, 0x0A, 0, 0, 0, 0x09, 0x08, 4, 0, 0, 6, 0x10, 0, 0x9B, 0, 0, 0, 0x08, 0x02, 16, 0,
    2, 0, 0, 0, 5, 0, 0xFF, 0, 0, 0, 0, 0, 0x20, 1, 0, 0, 0x08, 0x02, 16, 0, 3, 0, 0, 0, 5, 0,
    0xFF, 0, 0, 0, 0, 0, 0x20, 1, 0, 0, 0x08, 0x02, 2, 0, 7, 0, 0x7D, 0, 10, 0, 250, 0, 44, 1, 0,
    9, 15, 0, 1, 0, 0x3E, 0x02, 18, 0, 0x08, 0, 0, 0, 0, 0, 0, 0, 0, 0, 0, 0, 0, 0, 0, 0, 0, 0,
    0x41, 0, 10, 0, 1, 0, 2, 0, 0, 0, 0, 0, 0, 0, 0x0A, 0, 0, 0,
];

// What the stream above says, in order.
static ITEMS: [HiddenItem; 6] = [
    HiddenItem::Rows(Run {
        first: 2,
        last: 2,
        why: Why::Hidden,
    }),
    HiddenItem::Rows(Run {
        first: 3,
        last: 3,
        why: Why::Filtered,
    }),
    HiddenItem::Columns(Run {
        first: 250,
        last: 255,
        why: Why::Hidden,
    }),
    HiddenItem::Frozen(Pane {
        rows: 2,
        columns: 1,
    }),
    HiddenItem::Zeros,
    HiddenItem::Damaged(Damage {
        record_name: DamagedRecord::Row,
        offset: 87,
        row: Some(7),
        column: None,
        flaw: Flaw::Short {
            least: 16,
            found: 2,
        },
    }),
];

#[test]
fn tells_what_is_hidden(rt: HostRuntime) -> Result<(), AllocError> {
    let areas = read_filter_areas(rt.alloc(), &STREAM, Biff::Biff8, 1)?;
    assert!(rt; areas[0] == Some(FilterArea { first: 2, last: 8 }));
    let sheet = read_hidden(rt.alloc(), &STREAM[35..], 35, Biff::Biff8, areas[0])?;
    let mut count = 0;
    for item in sheet.items() {
        assert!(rt; count < ITEMS.len() && item == ITEMS[count]);
        count += 1;
    }
    assert!(rt; count == ITEMS.len());
    assert!(rt; sheet.row(3) == Some(Why::Filtered) && sheet.row(4).is_none());
    assert!(rt; sheet.column(255) == Some(Why::Hidden) && sheet.column(256).is_none());
    Ok(())
}

fn told(alloc: Global, damage: &Damage) -> Result<String, AllocError> {
    format!(in alloc; "{} {}", damage.record_name, damage.flaw)
}

#[test]
fn tells_what_is_wrong(rt: HostRuntime) -> Result<(), AllocError> {
    let damage = Damage {
        record_name: DamagedRecord::DefaultRowHeight,
        offset: 0,
        row: None,
        column: None,
        flaw: Flaw::Short { least: 4, found: 2 },
    };
    let text = told(rt.alloc(), &damage)?;
    assert!(rt; text.as_str() == "DefaultRowHeight shorter than 4 bytes: 2");
    Ok(())
}
