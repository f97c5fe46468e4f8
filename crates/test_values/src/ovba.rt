//! The examples of [MS-OVBA] 3.2, each refusal once, and each public call with ample memory.

use std::alloc::{AllocError, Global};
use std::test::Fail;
use xls_text::XlsEncoding;
use xls_vba::*;

// Containers, and what they say or why they are refused. The first three are those of the standard.
static CONTAINERS: [(&[u8], &str); 15] = [
    (
        b"\x01\x19\xB0\x00abcdefgh\x00ijklmnop\x00qrstuv.",
        "abcdefghijklmnopqrstuv.",
    ),
    (
        b"\x01\x2F\xB0\x00#aaabcde\x82f\x00paghij\x018\x08akl\x000mnop\x06q\x02p\x04\x10rstuv\x10wxyz\x00<",
        "#aaabcdefaaaaghijaaaaaklaaamnopqaaaaaaaaaaaarstuvwxyzaaa",
    ),
    (
        b"\x01\x03\xB0\x02aE\x00",
        "aaaaaaaaaaaaaaaaaaaaaaaaaaaaaaaaaaaaaaaaaaaaaaaaaaaaaaaaaaaaaaaaaaaaaaaaa",
    ),
    (b"\x01", ""),
    // a chunk that says more bytes than there are ends with the container
    (b"\x01\xFF\xBF\x00a", "a"),
    (b"", "Cut container at byte 0: expecting 1 bytes, found 0"),
    (b"\x02", "Invalid container signature 2 at byte 0"),
    (
        b"\x01\x03",
        "Cut chunk header at byte 1: expecting 2 bytes, found 1",
    ),
    (b"\x01\x03\x80\x02", "Invalid chunk signature 0 at byte 1"),
    (b"\x01\xFE\x3Fa", "Invalid raw chunk size 4097 at byte 1"),
    (
        b"\x01\xFF\x3Fa",
        "Cut raw chunk at byte 3: expecting 4096 bytes, found 1",
    ),
    (
        b"\x01\x03\xB0\x02aE",
        "Cut copy token at byte 5: expecting 2 bytes, found 1",
    ),
    (
        b"\x01\x03\xB0\x02a\x00\x10",
        "Copy token at byte 5 reaches back 2 bytes of 1",
    ),
    // a token of the second chunk, which has given nothing
    (
        b"\x01\x01\xB0\x00a\x02\xB0\x01\x00\x00",
        "Copy token at byte 8 reaches back 1 bytes of 0",
    ),
    (
        b"\x01\x03\xB0\x02a\xFF\x0F",
        "Chunk gives more than 4096 bytes at byte 5",
    ),
];

// The source that begins at this offset, or why there is none.
fn said(alloc: Global, stream: &[u8], offset: u32) -> Result<String, AllocError> {
    match module_source(alloc, stream, offset, XlsEncoding::Windows1252) {
        Ok(text) => Ok(text),
        Err(error) => error.to_string(alloc),
    }
}

fn says(alloc: Global, stream: &[u8], offset: u32, wanted: &str) -> Result<bool, AllocError> {
    let text = said(alloc, stream, offset)?;
    Ok(text.as_str() == wanted)
}

#[test]
fn reads_containers(rt: HostRuntime) -> Result<(), Fail> {
    for (container, wanted) in CONTAINERS.iter() {
        assert!(rt; says(rt.alloc(), container, 0, wanted)?);
    }
    Ok(())
}

// The byte 80 is the euro sign under page 1252.
#[test]
fn reads_a_source_from_its_offset(rt: HostRuntime) -> Result<(), Fail> {
    let stream = b"ab\x01\x01\xB0\x00\x80";
    assert!(rt; says(rt.alloc(), stream, 2, "\u{20ac}")?);
    let past = "Text offset 8 past the end of a stream of 7 bytes";
    assert!(rt; says(rt.alloc(), stream, 8, past)?);
    Ok(())
}

// Whether a raw chunk gives its 4,096 bytes, or memory ran out.
fn is_stored(alloc: Global) -> Result<bool, OvbaError> {
    let mut container = b"\x01\xFF\x3F".to_vec(alloc)?;
    for _ in 0..4096 {
        container.push(0x62)?;
    }
    let bytes = decompress(alloc, &container)?;
    Ok(bytes.len() == 4096 && bytes.iter().all(|byte| *byte == 0x62))
}

#[test]
fn reads_a_raw_chunk(rt: HostRuntime) -> Result<(), Fail> {
    assert!(rt; is_stored(rt.alloc())?);
    Ok(())
}

// With memory refused at any number, the only refusal is that.
fn is_read_or_memory(alloc: Global) -> bool {
    match decompress(alloc, b"\x01\x01\xB0\x00a") {
        Ok(bytes) => bytes.as_slice() == b"a".as_slice(),
        Err(error) => matches!(error, OvbaError::Memory),
    }
}

#[test]
fn a_refusal_of_memory_is_out_of_memory(rt: HostRuntime) {
    assert!(rt; is_read_or_memory(rt.alloc()));
}
