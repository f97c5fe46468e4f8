//! Values that own their texts.

ghost use Rattle.std.specs.Prelude.{◌≡◌, IfOk};
ghost use Rattle.xls_strings.specs.Texts.{text_of};
ghost use Rattle.xls_data.specs.Data.{content_of};
ghost use Rattle.xls_view.specs.Values.{encoded_text, lent_content};

use crate::value::{CellValue, EncodedText};
use std::alloc::{AllocError, Global};
use xls_data::Data;
use xls_strings::parse_string;

impl<'c> EncodedText<'c> {
    /// The text, decoded into memory of its own. Only running out of memory refuses.
    pub fn to_text(self, alloc: Global) -> Result<String, AllocError>
        ensures { IfOk result (λ text. text_of text ≡ encoded_text self.entry) }
    {
        match parse_string(alloc, self.string, &self.page, self.version) {
            Ok(text) => Ok(text),
            Err(error) if error.is_memory() => Err(AllocError),
            Err(_) => Ok(String::new(alloc)),
        }
    }
}

impl<'c> CellValue<'c> {
    /// The value with a text of its own. Only running out of memory refuses.
    pub fn to_data(self, alloc: Global) -> Result<Data, AllocError>
        ensures { IfOk result (λ d. content_of d ≡ lent_content self.entry) }
    {
        match self {
            CellValue::Number(number) => Ok(number.into_data()),
            CellValue::Bool(truth) => Ok(Data::Bool(truth)),
            CellValue::Error(error) => Ok(Data::Error(error)),
            CellValue::Shared(text) => Ok(Data::String(String::from_str(alloc, text)?)),
            CellValue::Encoded(encoded) => Ok(Data::String(encoded.to_text(alloc)?)),
            CellValue::Empty => Ok(Data::Empty),
        }
    }
}
