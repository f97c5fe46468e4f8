//! Reads the rows of a sheet by their headers: `entries` are names and amounts, `fields` are the cells of
//! all columns. The workbook's stream comes on standard input; the words are one of these two and the
//! sheet's name.
#![tactic(auto)]

mod entry;
mod error;
mod fields;
mod ledger;

use crate::ledger::{entries_in, fields_in, sheet_of};
use anyhow::bail;
use std::env;
use std::io::Read;

fn main(rt: HostRuntime) -> anyhow::Result<()> {
    let alloc = rt.alloc();
    let words = env::args(&rt)?.collect::<Vec<String>>(alloc)?;
    let [_, what, sheet] = words.as_slice() else {
        bail!("the words are `entries` or `fields`, and a sheet's name");
    };
    let mut bytes = Vec::new(alloc);
    rt.stdin().read_to_end(&mut bytes)?;
    let range = sheet_of(alloc, bytes, sheet.as_str())?;
    if what.as_str() == "fields" {
        for row in fields_in(alloc, &range)? {
            for (header, text) in row.fields {
                println!(rt; "{header}: {text}")?;
            }
        }
    } else {
        for entry in entries_in(alloc, &range)? {
            println!(rt; "{}: {}", entry.name, entry.amount)?;
        }
    }
    Ok(())
}
