ghost use Rattle.std.specs.Prelude.{◌≡◌, ◌⊎◌, ◌≤◌, None, IfOk, IfSome};
ghost use Rattle.xls_record.specs.declared.error.XlsError.TheVariants.{Memory, TooLarge};

use super::*;
use std::io::{self, Cursor, ErrorKind, Read};
use std::test::*;

static CASES: [Case; 2] = [
    (
        "a stream of the limit is opened",
        Opening::UpTo(51),
        &PLAIN,
        Asked::Sheets,
        "0,0=Float(Hundredths(12345)) ||",
    ),
    (
        "a larger one is refused",
        Opening::UpTo(50),
        &PLAIN,
        Asked::Sheets,
        "TooLarge { limit: 50 }",
    ),
];

#[test]
fn opens_a_stream_of_the_limit(rt: HostRuntime) -> Result<(), Fail> {
    for case in CASES.iter() {
        assert!(rt; is_case(rt.alloc(), case)?, "{}", case.0);
    }
    Ok(())
}

// Opening a source without end is refused, and not by a fault of its bytes.
fn opened_without_end(
    alloc: Global,
    chunk: usize,
    limit: u64,
) -> Result<Option<XlsError>, AllocError>
    requires { 1 ≤ chunk }
    ensures { IfOk result (λ refusal. IfSome refusal (λ e. (e ≡ TooLarge limit) ⊎ (e ≡ Memory)) × (refusal ≡ None → ⊥)) }
{
    let mut source = EndlessSource::new(chunk);
    let mut options = XlsOptions::defaults(alloc)?;
    options.max_bytes = limit;
    Ok(Xls::new_with_options(alloc, &mut source, options).err())
}

#[test]
fn a_source_without_end_is_too_large(rt: HostRuntime) -> Result<(), Fail> {
    for chunk in [1, 4096] {
        let refusal = opened_without_end(rt.alloc(), chunk, 10_000)?;
        assert!(rt;
            refusal == Some(XlsError::TooLarge { limit: 10_000 }),
            "in pieces of {chunk}"
        );
    }
    Ok(())
}

// What reading all of the 51 bytes in such pieces gives, where these calls fail.
fn read(alloc: Global, chunk: usize, failing: &[u64], limit: u64) -> Result<StreamBytes, XlsError>
    requires { 1 ≤ chunk }
{
    let bytes = joined(alloc, &PLAIN_PARTS)?;
    let mut source = MemorySource::new(bytes, chunk, failing.to_vec(alloc)?);
    read_all(alloc, &mut source, limit)
}

#[test]
fn a_failing_read_is_reported(rt: HostRuntime) {
    for call in 0..4 {
        assert!(rt;
            read(rt.alloc(), 16, &[call], 99).err() == Some(XlsError::Io),
            "call {call}"
        );
    }
}

fn is_read_in_pieces(alloc: Global, chunk: usize) -> Result<bool, XlsError>
    requires { 1 ≤ chunk }
{
    let wanted = joined(alloc, &PLAIN_PARTS)?;
    let bytes = read(alloc, chunk, &[], 51)?;
    Ok(bytes.as_slice() == wanted.as_slice())
}

fn is_kept(alloc: Global) -> Result<bool, AllocError> {
    let kept = StreamBytes::from_vec(HUNDREDTHS.to_vec(alloc)?);
    Ok(kept.as_slice() == HUNDREDTHS.as_slice())
}

#[test]
fn reads_all_in_pieces(rt: HostRuntime) -> Result<(), Fail> {
    for chunk in [1, 2, 3, 7, 64] {
        assert!(rt; is_read_in_pieces(rt.alloc(), chunk)?, "of {chunk}");
    }
    assert!(rt; is_kept(rt.alloc())?);
    Ok(())
}

#[test]
fn passes_on_what_std_reads(rt: HostRuntime) {
    let first = G;
    let mut source = StdSource::new(Cursor::new(first.as_slice()));
    let mut into = [0; 3];
    assert!(rt; source.read(&mut into) == Ok(3));
    assert!(rt; into == [9, 8, 4]);
}

// A reader of zeros that is interrupted so many times first.
#[derive(Drop)]
struct Interrupted {
    times: u32,
}

impl Read for Interrupted {
    fn read(&mut self, buf: &mut [u8]) -> io::Result<usize> {
        if self.times > 0 {
            self.times -= 1;
            return Err(ErrorKind::Interrupted.into());
        }
        Ok(buf.len())
    }
}

#[test]
fn tries_an_interrupted_read_again(rt: HostRuntime) {
    let mut into = [0; 3];
    let mut source = StdSource::new(Interrupted { times: 3 });
    assert!(rt; source.read(&mut into) == Ok(3));
    let mut source = StdSource::new(Interrupted { times: 2_000 });
    assert!(rt; source.read(&mut into).is_err());
}
