//! A made stream: so many rows of a whole number and a word.

ghost use Rattle.std.specs.Prelude.{◌≡◌, ◌≤◌, ◌<◌, ◌++◌, ◌^◌, ◌*◌, ◌+◌, ◌%◌, IfOk, OnOk};
ghost use Rattle.xls_bytes.specs.Numbers.{le16};
ghost use Rattle.xls_stream.specs.Stream.{record_bytes};
ghost use Rattle.xls_stream.specs.declared.types.TheConstants as types;
ghost use Rattle.xls_command.specs.Sample.{cell_body, le32, sample_globals, sample_part, sample_row, sample_stream, part_body};
ghost use Rattle.xls_command.specs.Words.{max_rows};

use std::alloc::{AllocError, Global};
use xls_book::StreamBytes;
use xls_stream::types::{LABEL_SST, RK};

/// The globals: BOF, the sheet `G` whose part begins at byte 52, the strings `a`, `bb` and `ccc`, and EOF.
static GLOBALS: [u8; 52] = [
    0x09, 0x08, 4, 0, 0x00, 0x06, 0x05, 0x00, 0x85, 0x00, 9, 0, 52, 0, 0, 0, 0, 0, 1, 0, b'G',
    0xFC, 0x00, 23, 0, 3, 0, 0, 0, 3, 0, 0, 0, 1, 0, 0, b'a', 2, 0, 0, b'b', b'b', 3, 0, 0, b'c',
    b'c', b'c', 0x0A, 0x00, 0, 0,
];

/// BOF of the sheet.
static PART: [u8; 8] = [0x09, 0x08, 4, 0, 0x00, 0x06, 0x10, 0x00];

/// EOF.
static END: [u8; 4] = [0x0A, 0x00, 0, 0];

/// Appends a 16-bit number.
fn push_u16(bytes: &mut Vec<u8>, n: u16) -> Result<(), AllocError>
    ensures { OnOk result (bytes.new.items ≡ bytes.old.items ++ le16 n) }
{
    bytes.extend_from_slice(&[(n % 256) as u8, (n / 256) as u8])
}

/// Appends a 32-bit number.
fn push_u32(bytes: &mut Vec<u8>, n: u32) -> Result<(), AllocError>
    ensures { OnOk result (bytes.new.items ≡ bytes.old.items ++ le32 n) }
{
    let low = [(n % 256) as u8, (n / 256 % 256) as u8];
    let high = [(n / 65_536 % 256) as u8, (n / 16_777_216) as u8];
    bytes.extend_from_slice(&low)?;
    bytes.extend_from_slice(&high)
}

/// Appends a cell record of 10 bytes: row, column, XF index 0 and a number.
fn push_cell(
    bytes: &mut Vec<u8>,
    typ: u16,
    row: u16,
    column: u16,
    number: u32,
) -> Result<(), AllocError>
    ensures { OnOk result (bytes.new.items ≡ bytes.old.items ++ record_bytes typ (cell_body row column number)) }
{
    push_u16(bytes, typ)?;
    push_u16(bytes, 10)?;
    push_u16(bytes, row)?;
    push_u16(bytes, column)?;
    push_u16(bytes, 0)?;
    push_u32(bytes, number)
}

/// Appends the two records of a row: its number, and the index of its word.
fn push_row(bytes: &mut Vec<u8>, row: u32) -> Result<(), AllocError>
    requires { row < max_rows }
    ensures { OnOk result (bytes.new.items ≡ bytes.old.items ++ sample_row row) }
{
    push_cell(bytes, RK, row as u16, 0, 4 * row + 2)?;
    push_cell(bytes, LABEL_SST, row as u16, 1, row % 3)
}

/// The bytes of a stream of so many rows.
pub fn sample_bytes(alloc: Global, rows: u32) -> Result<Vec<u8>, AllocError>
    requires { rows ≤ max_rows }
    ensures { IfOk result (λ bytes. bytes.items ≡ sample_stream rows) }
{
    let mut bytes = Vec::new(alloc);
    bytes.extend_from_slice(&GLOBALS)?;
    bytes.extend_from_slice(&PART)?;
    for row in 0..rows {
        push_row(&mut bytes, row)?;
    }
    bytes.extend_from_slice(&END)?;
    Ok(bytes)
}

/// A stream with a sheet `G` of so many rows, 1 to 65,536: in column 0 the number of the row from 0 on, in
/// column 1 the shared strings `a`, `bb` and `ccc` in turn. Only running out of memory refuses.
pub fn generate_stream(alloc: Global, rows: u32) -> Result<StreamBytes, AllocError>
    requires least { 1 ≤ rows }
    requires most { rows ≤ max_rows }
    ensures { IfOk result (λ stream. stream ≡ sample_stream rows) }
{
    Ok(StreamBytes::from_vec(sample_bytes(alloc, rows)?))
}
