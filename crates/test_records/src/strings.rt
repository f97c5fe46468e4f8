use crate::answers::{Table, UTF16, answers, displayed};
use std::alloc::{AllocError, Global};
use std::test::*;
use xls_strings::*;
use xls_text::XlsEncoding;

mod strings;
mod table;
