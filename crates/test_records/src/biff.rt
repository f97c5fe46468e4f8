use crate::answers::{Table, UTF16, answers, displayed, refusal};
use std::alloc::{AllocError, Global};
use std::process::Abort;
use std::test::*;
use xls_biff::*;
use xls_text::XlsEncoding;

mod cells;
mod cuts;
mod globals;
mod lengths;
mod readers;
mod regions;
mod table;
mod walk;

fn record_of(bytes: &[u8]) -> Result<Record<'_>, XlsError> {
    match RecordIter::new(bytes).next() {
        Some(r) => r,
        None => Err(XlsError::Password),
    }
}

fn push_record(
    bytes: &mut Vec<u8>,
    typ: u16,
    prefix: &[u8],
    body: &[u8],
) -> Result<(), AllocError> {
    let len = u16::try_from(prefix.len().saturating_add(body.len())).unwrap_or(u16::MAX);
    bytes.extend_from_slice(&typ.to_le_bytes())?;
    bytes.extend_from_slice(&len.to_le_bytes())?;
    bytes.extend_from_slice(prefix)?;
    bytes.extend_from_slice(body)
}

/// An SST record of eight zero bytes and the first piece, the other pieces in Continue records, and an
/// EOF record, without which an empty last piece would belong to nothing.
fn table_of(alloc: Global, first: &[u8], others: &[&[u8]]) -> Result<Vec<u8>, AllocError> {
    let mut bytes = Vec::new(alloc);
    push_record(&mut bytes, 0xFC, &[0; 8], first)?;
    for piece in others {
        push_record(&mut bytes, 0x3C, &[], piece)?;
    }
    push_record(&mut bytes, 0x0A, &[], &[])?;
    Ok(bytes)
}

/// Whether a table in these pieces answers so.
fn pieces_answer(
    alloc: Global,
    first: &[u8],
    others: &[&[u8]],
    wanted: Table,
) -> Result<bool, XlsError> {
    let bytes = table_of(alloc, first, others)?;
    let r = record_of(&bytes)?;
    Ok(answers(alloc, &r, wanted)?)
}
