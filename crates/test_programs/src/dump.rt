use crate::dump::ledger::{LEDGER, LEDGER_CSV, LEDGER_REFS, LEDGER_SHEETS};
use std::alloc::{AllocError, Global};
use std::env::{Env, FillError};
use std::io::{self, ErrorKind, Write};
use std::process::Abort;
use std::test::*;
use xls_book::{MemorySource, SteadySource};
use xls_command::{run, words_in};
use xls_output::{MemorySink, StdSink, write_all};

mod first_fault;
mod ledger;

// BOF of the globals and of a sheet in BIFF8, and EOF.
const GLOBALS: [u8; 8] = [0x09, 0x08, 4, 0, 0, 6, 5, 0];

const SHEET: [u8; 8] = [0x09, 0x08, 4, 0, 0, 6, 0x10, 0];

const EOF: [u8; 4] = [0x0A, 0, 0, 0];

// BoundSheet8 of `A` at 25, visible and hidden.
const A_SHEET: [u8; 13] = [0x85, 0, 9, 0, 25, 0, 0, 0, 0, 0, 1, 0, 0x41];

const A_HIDDEN: [u8; 13] = [0x85, 0, 9, 0, 25, 0, 0, 0, 1, 0, 1, 0, 0x41];

// A Number of 3 at (0, 0).
const NUMBER_3: [u8; 18] = [
    0x03, 0x02, 14, 0, 0, 0, 0, 0, 0, 0, 0, 0, 0, 0, 0, 0, 0x08, 0x40,
];

// RK of 12,345 hundredths at (0, 0).
const HUNDREDTHS: [u8; 14] = [0x7E, 2, 10, 0, 0, 0, 0, 0, 0, 0, 0xE7, 0xC0, 0, 0];

// MergeCells of the one region from (0, 1) to (2, 3).
const MERGED: [u8; 14] = [0xE5, 0, 10, 0, 1, 0, 0, 0, 2, 0, 1, 0, 3, 0];

// A CodePage record of 437, which isn't kept.
const PAGE_437: [u8; 6] = [0x42, 0, 2, 0, 0xB5, 1];

// Streams by their records.
const THREE: [&[u8]; 6] = [&GLOBALS, &A_SHEET, &EOF, &SHEET, &NUMBER_3, &EOF];

// The same for functions: a constant is made anew at each use of it.
static THREE_PARTS: [&[u8]; 6] = THREE;

const THREE_TEXT: &str = "dates\t1900\nsheet\tA\tworksheet\tvisible\ncell\t0\t0\tfloat\t3\n";

const PLAIN: [&[u8]; 6] = [&GLOBALS, &A_SHEET, &EOF, &SHEET, &HUNDREDTHS, &EOF];

const PLAIN_TEXT: &str = "dates\t1900\nsheet\tA\tworksheet\tvisible\ncell\t0\t0\tfloat\t123.45\n";

const NO_SHEET: [&[u8]; 2] = [&GLOBALS, &A_SHEET];

const PAGE: [&[u8]; 3] = [&GLOBALS, &PAGE_437, &EOF];

const HIDDEN: [&[u8]; 6] = [&GLOBALS, &A_HIDDEN, &EOF, &SHEET, &MERGED, &EOF];

// A Formula at (0, 0) whose one token is the cell B3, and a stream with it.
const FORMULA_B3: [u8; 31] = [
    0x06, 0, 27, 0, 0, 0, 0, 0, 0, 0, 0, 0, 0, 0, 0, 0, 0, 0, 0, 0, 0, 0, 0, 0, 5, 0, 0x24, 2, 0,
    1, 0xC0,
];

const CITING: [&[u8]; 6] = [&GLOBALS, &A_SHEET, &EOF, &SHEET, &FORMULA_B3, &EOF];

// RK of 1 at (0, 0) and of 2 at (65535, 65535), whose box has 2^32 cells.
const NEAR: [u8; 14] = [0x7E, 2, 10, 0, 0, 0, 0, 0, 0, 0, 6, 0, 0, 0];

const FAR: [u8; 14] = [0x7E, 2, 10, 0, 0xFF, 0xFF, 0xFF, 0xFF, 0, 0, 10, 0, 0, 0];

static FAR_CELLS: [&[u8]; 7] = [&GLOBALS, &A_SHEET, &EOF, &SHEET, &NEAR, &FAR, &EOF];

// A property stream with a summary section of two properties: the title in page 1252.
const TITLE_STREAM: [u8; 95] = [
    0xFE, 0xFF, 0, 0, 0, 0, 0, 0, 0, 0, 0, 0, 0, 0, 0, 0, 0, 0, 0, 0, 0, 0, 0, 0, 1, 0, 0, 0, 0xE0,
    0x85, 0x9F, 0xF2, 0xF9, 0x4F, 0x68, 0x10, 0xAB, 0x91, 0x08, 0x00, 0x2B, 0x27, 0xB3, 0xD9, 0x30,
    0, 0, 0, 0x2F, 0, 0, 0, 2, 0, 0, 0, 1, 0, 0, 0, 0x18, 0, 0, 0, 2, 0, 0, 0, 0x20, 0, 0, 0, 2, 0,
    0, 0, 0xE4, 0x04, 0, 0, 0x1E, 0, 0, 0, 7, 0, 0, 0, 0xC5, 0x6C, 0x65, 0x73, 0x75, 0x6E, 0x64,
];

const TITLE: [&[u8]; 1] = [&TITLE_STREAM];

fn joined(alloc: Global, parts: &[&[u8]]) -> Result<Vec<u8>, AllocError> {
    let mut bytes = Vec::new(alloc);
    for part in parts {
        bytes.extend_from_slice(part)?;
    }
    Ok(bytes)
}

/// A run: the words, what the source gives in which pieces, what the sink takes in which pieces, and
/// the calls that fail.
#[derive(Drop)]
struct Case {
    words: &'static [&'static str],
    parts: &'static [&'static [u8]],
    chunk: usize,
    read_fails: Option<u64>,
    room: usize,
    write_chunk: usize,
    write_fails: Option<u64>,
}

// Room for the text of each run.
const ROOM: usize = 999;

// A run in which nothing fails.
fn quiet(words: &'static [&'static str], parts: &'static [&'static [u8]]) -> Case {
    Case {
        words,
        parts,
        chunk: 64,
        read_fails: None,
        room: ROOM,
        write_chunk: 64,
        write_fails: None,
    }
}

fn words_of(alloc: Global, words: &[&str]) -> Result<Vec<String>, AllocError> {
    let mut all = Vec::new(alloc);
    for word in words {
        all.push(String::from_str(alloc, word)?)?;
    }
    Ok(all)
}

fn listed(alloc: Global, call: Option<u64>) -> Result<Vec<u64>, AllocError> {
    let mut all = Vec::new(alloc);
    if let Some(call) = call {
        all.push(call)?;
    }
    Ok(all)
}

// The status of a run and what it wrote.
fn outcome(alloc: Global, case: &Case) -> Result<(u8, Vec<u8>), AllocError> {
    let words = words_of(alloc, case.words)?;
    let read_fails = listed(alloc, case.read_fails)?;
    let mut source = MemorySource::new(joined(alloc, case.parts)?, case.chunk.max(1), read_fails);
    let write_fails = listed(alloc, case.write_fails)?;
    let mut sink = MemorySink::new(alloc, case.room, case.write_chunk.max(1), write_fails)?;
    let status = run(alloc, &words, &mut source, &mut sink);
    Ok((status, sink.as_slice().to_vec(alloc)?))
}

// Whether a run ends with this status and writes this.
fn is_so(alloc: Global, case: &Case, status: u8, text: &[u8]) -> Result<bool, AllocError> {
    let (ended, written) = outcome(alloc, case)?;
    Ok(ended == status && written.as_slice() == text)
}

fn check(rt: &impl Abort, alloc: Global, case: &Case, status: u8, text: &[u8]) -> Result<(), Fail> {
    assert!(rt; is_so(alloc, case, status, text)?, "{status}");
    Ok(())
}

// Runs in which nothing fails: the words, what the source gives, the status, and what is written.
static RUNS: [(&[&str], &[&[u8]], u8, &str); 44] = [
    (&[], &THREE, 0, THREE_TEXT),
    (&["dump"], &THREE, 0, THREE_TEXT),
    (&[], &[], 0, "dates\t1900\n"),
    (
        &[],
        &HIDDEN,
        0,
        "dates\t1900\nsheet\tA\tworksheet\thidden\nmerge\t0\t1\t2\t3\n",
    ),
    (&[], &PAGE, 1, "error\tCfb error: Codepage 1B5 not found\n"),
    (&[], &NO_SHEET, 1, "error\tEnd of stream 'sheet offset'\n"),
    (&["sheets"], &THREE, 0, "sheet\tA\tworksheet\tvisible\n"),
    (&["sheets"], &HIDDEN, 0, "sheet\tA\tworksheet\thidden\n"),
    (
        &["sheets"],
        &PAGE,
        1,
        "error\tCfb error: Codepage 1B5 not found\n",
    ),
    (&["sheets"], &LEDGER, 0, LEDGER_SHEETS),
    (&["props"], &TITLE, 0, "title\t\u{C5}lesund\n"),
    (&["props"], &[], 0, ""),
    (&["check"], &THREE, 0, "ok\n"),
    (&["check"], &[], 0, "ok\n"),
    (&["check"], &LEDGER, 0, "ok\n"),
    (&["remake"], &[], 0, "\n\0\0\0"),
    (
        &["remake"],
        &NO_SHEET,
        1,
        "error\tEnd of stream 'sheet offset'\n",
    ),
    (&["csv", "Data"], &LEDGER, 0, LEDGER_CSV),
    (
        &["csv", "X"],
        &LEDGER,
        1,
        "error\tWorksheet 'X' not found\n",
    ),
    (&["csv", "A"], &HIDDEN, 0, ""),
    (
        &["csv", "A"],
        &PAGE,
        1,
        "error\tCfb error: Codepage 1B5 not found\n",
    ),
    (&["csv", ""], &[], 1, "error\tWorksheet '' not found\n"),
    (&["refs"], &LEDGER, 0, LEDGER_REFS),
    (&["refs"], &[], 0, ""),
    (
        &["refs"],
        &NO_SHEET,
        1,
        "error\tEnd of stream 'sheet offset'\n",
    ),
    (&["generate", "4"], &THREE, 0, "rows\t4\ncells\t8\nsum\t6\n"),
    (
        &["generate", "65536"],
        &THREE,
        0,
        "rows\t65536\ncells\t131072\nsum\t2147450880\n",
    ),
    // Words of no command.
    (&["dmp"], &THREE, 2, ""),
    (&["dump", "dump"], &THREE, 2, ""),
    (&["dump", "x"], &THREE, 2, ""),
    (&["sheets", "x"], &THREE, 2, ""),
    (&["props", "props"], &THREE, 2, ""),
    (&["check", "check"], &THREE, 2, ""),
    (&["csv"], &THREE, 2, ""),
    (&["csv", "A", "A"], &THREE, 2, ""),
    (&["refs", "x"], &THREE, 2, ""),
    (&["remake", "x"], &THREE, 2, ""),
    (&["generate"], &THREE, 2, ""),
    (&["generate", "0"], &THREE, 2, ""),
    (&["generate", "04"], &THREE, 2, ""),
    (&["generate", "65537"], &THREE, 2, ""),
    (&["generate", "+4"], &THREE, 2, ""),
    (&["generate", ""], &THREE, 2, ""),
    (&["generate", "4", "4"], &THREE, 2, ""),
];

#[test]
fn does_what_the_words_ask_for(rt: HostRuntime) -> Result<(), Fail> {
    for (words, parts, status, text) in RUNS.iter() {
        check(
            &rt,
            rt.alloc(),
            &quiet(words, parts),
            *status,
            text.as_bytes(),
        )?;
    }
    Ok(())
}

#[test]
fn the_pieces_do_not_matter(rt: HostRuntime) -> Result<(), Fail> {
    for chunk in [1, 2, 3, 7, 64] {
        let mut case = quiet(&[], &THREE_PARTS);
        case.chunk = chunk;
        case.write_chunk = chunk;
        check(&rt, rt.alloc(), &case, 0, THREE_TEXT.as_bytes())?;
    }
    Ok(())
}

// Commands, what their sources give, and how they end and what they write where nothing fails.
static COMMANDS: [(&[&str], &[&[u8]], u8, &str); 11] = [
    (&["dump"], &PLAIN, 0, PLAIN_TEXT),
    (&["sheets"], &PLAIN, 0, "sheet\tA\tworksheet\tvisible\n"),
    (&["props"], &TITLE, 0, "title\t\u{C5}lesund\n"),
    (&["check"], &PLAIN, 0, "ok\n"),
    (
        &["check"],
        &NO_SHEET,
        1,
        "error\tEnd of stream 'sheet offset'\n",
    ),
    (&["csv", "A"], &PLAIN, 0, "123.45\n"),
    (&["csv", "B"], &PLAIN, 1, "error\tWorksheet 'B' not found\n"),
    (&["refs"], &CITING, 0, "ref\tA\t0\t0\tA\t2\t1\t2\t1\n"),
    (&["remake"], &[&EOF], 0, "\n\0\0\0"),
    (
        &["remake"],
        &NO_SHEET,
        1,
        "error\tEnd of stream 'sheet offset'\n",
    ),
    (&["generate", "4"], &[], 0, "rows\t4\ncells\t8\nsum\t6\n"),
];

// Each read of a run fails once: so many calls give bytes, and one more none.
fn fail_each_read(
    rt: &impl Abort,
    alloc: Global,
    words: &'static [&'static str],
    parts: &'static [&'static [u8]],
    chunk: usize,
) -> Result<(), Fail> {
    let len = joined(alloc, parts)?.len();
    let calls = len.div_ceil(chunk.max(1)) as u64 + 1;
    for call in 0..calls {
        let mut case = quiet(words, parts);
        case.chunk = chunk;
        case.read_fails = Some(call);
        check(rt, alloc, &case, 3, b"")?;
    }
    Ok(())
}

#[test]
fn each_failing_read_ends_with_3(rt: HostRuntime) -> Result<(), Fail> {
    for (words, parts, _, _) in COMMANDS.iter() {
        if !parts.is_empty() {
            fail_each_read(&rt, rt.alloc(), words, parts, 1)?;
            fail_each_read(&rt, rt.alloc(), words, parts, 16)?;
        }
    }
    Ok(())
}

// The write of each byte of a case's text fails once, and once the room ends before it. Where no byte
// is left, nothing fails, though each write is short.
fn fail_each_write(
    rt: &impl Abort,
    alloc: Global,
    mut case: Case,
    whole: u8,
    text: &[u8],
) -> Result<(), Fail> {
    for len in 0..text.len() + 1 {
        let status = if len < text.len() { 4 } else { whole };
        case.room = ROOM;
        case.write_chunk = 1;
        case.write_fails = Some(len as u64);
        check(rt, alloc, &case, status, &text[..len])?;
        case.room = len;
        case.write_chunk = 64;
        case.write_fails = None;
        check(rt, alloc, &case, status, &text[..len])?;
    }
    Ok(())
}

#[test]
fn each_failing_write_leaves_the_prefix(rt: HostRuntime) -> Result<(), Fail> {
    for (words, parts, status, text) in COMMANDS.iter() {
        let case = quiet(words, parts);
        fail_each_write(&rt, rt.alloc(), case, *status, text.as_bytes())?;
    }
    Ok(())
}

// The first row is written before the others are made.
#[test]
fn a_far_cell_is_written_row_by_row(rt: HostRuntime) -> Result<(), Fail> {
    let mut case = quiet(&["csv", "A"], &FAR_CELLS);
    case.room = 5;
    check(&rt, rt.alloc(), &case, 4, b"1,,,,")
}

// A command line whose program's name isn't UTF-8.
#[derive(Drop)]
struct Line {
    words: [&'static [u8]; 3],
}

impl Env for Line {
    fn arg(&self, i: usize, buf: &mut [u8]) -> Result<usize, FillError> {
        if i >= self.words.len() {
            return Err(FillError::NotPresent);
        }
        let word = self.words[i];
        if word.len() > buf.len() {
            return Err(FillError::TooLong);
        }
        buf[..word.len()].copy_from_slice(word);
        Ok(word.len())
    }

    fn var(&self, _name: &str, _buf: &mut [u8]) -> Result<usize, FillError> {
        Err(FillError::NotPresent)
    }

    fn var_at(&self, _i: usize, _buf: &mut [u8]) -> Result<usize, FillError> {
        Err(FillError::NotPresent)
    }
}

// The words behind the program's name, each with a bar after it, or `none` where one isn't UTF-8.
fn listed_words(alloc: Global, words: [&'static [u8]; 3]) -> Result<String, AllocError> {
    let Ok(words) = words_in(alloc, &Line { words }) else {
        return String::from_str(alloc, "none");
    };
    let mut all = String::new(alloc);
    for word in &words {
        write!(all, "{word}|")?;
    }
    Ok(all)
}

#[test]
fn the_name_of_the_program_may_be_any_bytes(rt: HostRuntime) -> Result<(), Fail> {
    let named = listed_words(rt.alloc(), [b"\xFF", b"csv", b"A"])?;
    assert_eq!(rt; named.as_str(), "csv|A|");
    let refused = listed_words(rt.alloc(), [b"x", b"csv", b"\xFF"])?;
    assert_eq!(rt; refused.as_str(), "none");
    Ok(())
}

#[test]
fn passes_on_what_std_writes(rt: HostRuntime) -> Result<(), Fail> {
    let mut bytes = Vec::new(rt.alloc());
    let mut sink = StdSink::new(&mut bytes);
    assert_eq!(rt; write_all(&mut sink, b"abc"), Ok(()));
    assert_eq!(rt; bytes.as_slice(), b"abc".as_slice());
    Ok(())
}

// A writer that is interrupted so many times first.
#[derive(Drop)]
struct Interrupted {
    times: u32,
}

impl Write for Interrupted {
    fn write(&mut self, buf: &[u8]) -> io::Result<usize> {
        if self.times > 0 {
            self.times -= 1;
            return Err(ErrorKind::Interrupted.into());
        }
        Ok(buf.len())
    }

    fn flush(&mut self) -> io::Result<()> {
        Ok(())
    }
}

#[test]
fn tries_an_interrupted_write_again(rt: HostRuntime) {
    let mut sink = StdSink::new(Interrupted { times: 3 });
    assert!(rt; write_all(&mut sink, b"abc") == Ok(()));
    let mut sink = StdSink::new(Interrupted { times: 2_000 });
    assert!(rt; write_all(&mut sink, b"abc").is_err());
}

// The records of a stream before the cells of its sheet.
static HEAD: [&[u8]; 4] = [&GLOBALS, &A_SHEET, &EOF, &SHEET];

// The stream of `THREE`, with a Number of 3 in column 0 of each of so many rows.
fn many_numbers(alloc: Global, rows: u16) -> Result<Vec<u8>, AllocError> {
    let mut bytes = joined(alloc, &HEAD)?;
    for row in 0..rows {
        bytes.extend_from_slice(&NUMBER_3[..4])?;
        bytes.extend_from_slice(&row.to_le_bytes())?;
        bytes.extend_from_slice(&NUMBER_3[6..])?;
    }
    bytes.extend_from_slice(&EOF)?;
    Ok(bytes)
}

// The status, the written text and the number of writes of a dump of so many rows.
fn long_dump(alloc: Global, rows: u16, fails: Option<u64>) -> Result<(u8, Vec<u8>), AllocError> {
    let mut source = SteadySource::new(many_numbers(alloc, rows)?);
    let mut sink = MemorySink::new(alloc, 999_999, 999_999, listed(alloc, fails)?)?;
    let status = run(alloc, &Vec::new(alloc), &mut source, &mut sink);
    Ok((status, sink.as_slice().to_vec(alloc)?))
}

// Whether a dump of 5,000 rows whose call of this number fails ends so, and writes this.
fn writes_first(alloc: Global, fails: u64, wanted: u8, start: &[u8]) -> Result<bool, AllocError> {
    let (status, text) = long_dump(alloc, 5000, Some(fails))?;
    Ok(status == wanted && text.as_slice() == start)
}

// 5,000 lines of at most 22 bytes are more than one piece and less than two. The second write is the
// last, so a sink whose second call fails has the first piece alone.
#[test]
fn writes_a_long_text_in_pieces(rt: HostRuntime) -> Result<(), Fail> {
    let alloc = rt.alloc();
    let (status, whole) = long_dump(alloc, 5000, None)?;
    assert_eq!(rt; status, 0);
    assert!(rt; whole.len() > 65_536);
    for (fails, wanted, len) in [(0, 4, 0), (1, 4, 65_536), (2, 0, whole.len())] {
        let start = &whole[..len.min(whole.len())];
        assert!(rt; writes_first(alloc, fails, wanted, start)?, "{fails}");
    }
    Ok(())
}
