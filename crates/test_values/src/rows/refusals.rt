//! The texts of refusals.

use std::alloc::{AllocError, Global};
use std::test::Fail;
use xls_data::CellErrorType;
use xls_rows::DeError;

fn prints(alloc: Global, refusal: DeError, wanted: &str) -> Result<bool, AllocError> {
    Ok(refusal.to_string(alloc)?.as_str() == wanted)
}

fn prints_its_position(alloc: Global) -> Result<bool, AllocError> {
    let err = CellErrorType::NA;
    Ok(
        prints(
            alloc,
            DeError::CellError { err, pos: (4, 2) },
            "Cell error at position '(4, 2)': #N/A",
        )? && prints(
            alloc,
            DeError::UnexpectedEndOfRow { pos: (1, 0) },
            "Unexpected end of row at position '(1, 0)'",
        )?,
    )
}

fn prints_its_text(alloc: Global) -> Result<bool, AllocError> {
    let header = String::from_str(alloc, "c")?;
    if !prints(
        alloc,
        DeError::HeaderNotFound(header),
        "Cannot find header named 'c'",
    )? {
        return Ok(false);
    }
    let text = String::from_str(alloc, "Expecting u8, got 300")?;
    prints(alloc, DeError::Custom(text), "Expecting u8, got 300")
}

#[test]
fn prints_what_it_holds(rt: HostRuntime) -> Result<(), Fail> {
    assert!(rt; prints_its_position(rt.alloc())?);
    assert!(rt; prints_its_text(rt.alloc())?);
    assert!(rt; prints(rt.alloc(), DeError::Memory, "Out of memory")?);
    Ok(())
}
