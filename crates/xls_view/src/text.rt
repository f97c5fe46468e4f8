//! Texts that are decoded when they are asked for.

ghost use Rattle.std.specs.Prelude.{◌≡◌, ◌++◌, IfOk, OnOk, encode_utf8_all};
ghost use Rattle.std.specs.String.{string_bytes};
ghost use Rattle.std.specs.Str.{chars};
ghost use Rattle.xls_data.specs.Refs.{ref_content_of};
ghost use Rattle.xls_view.specs.Values.{encoded_text, value_text, lent_content};

use crate::value::{CellValue, EncodedText};
use std::alloc::{AllocError, Global};
use xls_data::DataRef;
use xls_strings::split_string;

/// Memory in which the texts of cells are decoded, one after the other.
#[derive(Drop)]
pub struct TextBuffer {
    text: String,
}

/// Appends the text of a string.
fn append(text: &mut String, encoded: EncodedText<'_>) -> Result<(), AllocError>
    ensures { OnOk result (string_bytes text.new
        ≡ string_bytes text.old ++ encode_utf8_all (encoded_text encoded.entry)) }
{
    match split_string(encoded.string, encoded.version) {
        Ok((count, high_byte, units)) => {
            encoded.page.decode_to(units, count, text, high_byte)?;
            Ok(())
        }
        Err(_) => Ok(()),
    }
}

impl TextBuffer {
    /// No text. Takes no memory.
    pub fn new(alloc: Global) -> TextBuffer {
        TextBuffer {
            text: String::new(alloc),
        }
    }

    /// The text of a string, decoded here.
    #[inline(never)]
    fn decode(&mut self, encoded: EncodedText<'_>) -> Result<&str, AllocError>
        ensures { IfOk result (λ s. chars s.now ≡ encoded_text encoded.entry) }
    {
        self.text.clear();
        append(&mut self.text, encoded)?;
        Ok(self.text.as_str())
    }

    /// The text in a value, and the empty one of a value that is no text. It is lent from the string table or from
    /// this buffer. Only running out of memory refuses.
    #[inline(always)]
    pub fn text_of<'b>(&'b mut self, value: &CellValue<'b>) -> Result<&'b str, AllocError>
        ensures { IfOk result (λ s. chars s.now ≡ value_text (lent_content value.now)) }
    {
        match value {
            CellValue::Shared(text) => Ok(*text),
            CellValue::Encoded(encoded) => self.decode(*encoded),
            CellValue::Number(_) => Ok(""),
            CellValue::Bool(_) => Ok(""),
            CellValue::Error(_) => Ok(""),
            CellValue::Empty => Ok(""),
        }
    }

    /// A value with its text, which is lent from the string table or from this buffer. Only running out of
    /// memory refuses.
    #[inline(always)]
    pub fn value_of<'b>(&'b mut self, value: CellValue<'b>) -> Result<DataRef<'b>, AllocError>
        ensures { IfOk result (λ d. ref_content_of d ≡ lent_content value.entry) }
    {
        match value {
            CellValue::Number(number) => Ok(number.into_ref()),
            CellValue::Bool(truth) => Ok(DataRef::Bool(truth)),
            CellValue::Error(error) => Ok(DataRef::Error(error)),
            CellValue::Shared(text) => Ok(DataRef::SharedString(text)),
            CellValue::Empty => Ok(DataRef::Empty),
            CellValue::Encoded(encoded) => Ok(DataRef::SharedString(self.decode(encoded)?)),
        }
    }
}
