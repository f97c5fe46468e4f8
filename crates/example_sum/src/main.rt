//! Sums the whole numbers in a column of a sheet. The workbook stream comes on standard input, the
//! sheet's name and the column, counted from 0, as words.
#![tactic(auto)]

ghost use Rattle.std.specs.Prelude.{◌≡◌, IfOk, MatchOption, FitsSigned, option_copied};
ghost use Rattle.std.specs.Int.{w64};
ghost use Rattle.xls_open.specs.Opening.{IsOpened, default_options};
ghost use Rattle.example_sum.specs.Sums.{IsSumIn, int_in, total};

use anyhow::{Context, Result, anyhow, bail};
use std::alloc::Global;
use std::env;
use std::io::Read;
use xls_book::{Reader, SteadySource, Xls, open_workbook_from_rs};
use xls_data::Data;
use xls_range::Range;

/// The whole number that a cell holds, and 0 for any other cell.
fn int_of(cell: Option<&Data>) -> i64
    ensures { result ≡ int_in (option_copied cell.entry) }
{
    match cell {
        Some(Data::Int(n)) => *n,
        _ => 0,
    }
}

/// The sum of the whole numbers in a column of the sheet.
fn total_of(range: &Range<Data>, column: u32) -> i128
    ensures { result ≡ total range.now column }
{
    let Some((top, _)) = range.start() else {
        return 0;
    };
    let (height, _) = range.get_size();
    let mut sum = 0;
    for i in 0..height {
        let row = top + i as u32;
        sum += i128::from(int_of(range.get_value((row, column))));
    }
    sum
}

/// The same where it has 64 bits, and else `None`.
fn sum_of(range: &Range<Data>, column: u32) -> Option<i64>
    ensures { MatchOption result (¬ FitsSigned w64 (total range.now column))
        (λ sum. sum ≡ total range.now column) }
{
    i64::try_from(total_of(range, column)).ok()
}

/// The workbook whose stream these bytes are.
fn opened(alloc: Global, bytes: Vec<u8>) -> Result<Xls>
    ensures { IfOk result (λ book. IsOpened default_options book bytes.items) }
{
    let mut source = SteadySource::new(bytes);
    open_workbook_from_rs::<Xls, _>(alloc, &mut source).map_err(|error| anyhow!("{error}"))
}

/// The sum of a column of the sheet of this name.
fn sum_in(alloc: Global, book: &Xls, name: &str, column: u32) -> Result<i64>
    ensures { IfOk result (IsSumIn ⟦<Data as PartialEq>⟧.eq book.now name.now column) }
{
    let range = book
        .worksheet_range(alloc, name)
        .map_err(|error| anyhow!("{error}"))?;
    sum_of(&range, column).context("the sum has more than 64 bits")
}

/// The sheet's name and the column that the words ask for.
fn asked(words: &[String]) -> Result<(&str, u32)> {
    let [_, name, column] = words else {
        bail!("the words are a sheet's name and a column, counted from 0");
    };
    let column = column.parse::<u32>().context("reading the column")?;
    Ok((name.as_str(), column))
}

/// The bytes of standard input.
fn input(rt: &HostRuntime) -> Result<Vec<u8>> {
    let mut bytes = Vec::new(rt.alloc());
    rt.stdin().read_to_end(&mut bytes)?;
    Ok(bytes)
}

fn main(rt: HostRuntime) -> Result<()> {
    let alloc = rt.alloc();
    let words = env::args(&rt)?.collect::<Vec<String>>(alloc)?;
    let (name, column) = asked(&words)?;
    let book = opened(alloc, input(&rt)?)?;
    let sum = sum_in(alloc, &book, name, column)?;
    println!(rt; "{sum}")?;
    Ok(())
}
