//! Why nothing is written of a file, or not all.

ghost use Rattle.std.specs.Prelude.{◌≡◌};
ghost use Rattle.xls_answers.specs.Failures.{failure_of_fault, failure_of_lay, failure_of_stream, status_of};
ghost use Rattle.xls_answers.specs.Texts.{page_name};
ghost use Rattle.xls_answers.specs.declared.failure.Failure.TheVariants.{Stopped};
ghost use Rattle.xls_output.specs.declared.stop.Stop.TheVariants.{Memory};

use std::alloc::AllocError;
use std::fmt;
use xls_biff::XlsError;
use xls_container::FileFault;
use xls_lay::LayError;
use xls_output::Stop;
use xls_text::CfbError;

/// Which sheet a workbook doesn't have.
#[derive(Debug, Drop)]
pub enum Missing {
    /// None of this name.
    Name(String),
    /// None of this number.
    Number(u32),
    /// No worksheet.
    Worksheet,
}

/// Why nothing is written of a file, or not all.
#[derive(Debug, Drop)]
pub enum Failure {
    /// The file gives no workbook.
    File(FileFault),
    /// The records are obfuscated with a password.
    Obfuscated,
    /// The first fault of the workbook's stream.
    Stream(XlsError),
    /// The workbook has no such sheet.
    Missing(Missing),
    /// The canonical stream would be too long.
    Canonical(LayError),
    /// A write failed, or memory ran out.
    Stopped(Stop),
}

impl Failure {
    /// The exit status that tells it: 1 for what the workbook's stream has, 4 for a write that failed, 5 where
    /// memory ran out, 11 for what the file has, 12 for a stream that isn't there, 17 for a password.
    pub fn status(&self) -> u8
        ensures { result ≡ status_of self.now }
    {
        match self {
            Failure::File(FileFault::NoWorkbook) => 12,
            Failure::File(FileFault::Memory) => 5,
            Failure::File(_) => 11,
            Failure::Obfuscated => 17,
            Failure::Stream(_) | Failure::Missing(_) | Failure::Canonical(_) => 1,
            Failure::Stopped(Stop::Read) => 10,
            Failure::Stopped(Stop::Write) => 4,
            Failure::Stopped(Stop::Memory) => 5,
        }
    }
}

/// The name of a page that isn't read, where it is a known one.
#[tactic(auto, unfolding(crate::specs::Texts::page_name))]
fn page_name(page: u16) -> &'static str
    ensures { result.now ≡ page_name page }
{
    match page {
        437 => " (MS-DOS, United States)",
        850 => " (MS-DOS, Western Europe)",
        874 => " (Thai)",
        932 => " (Japanese)",
        936 => " (Chinese, simplified)",
        949 => " (Korean)",
        950 => " (Chinese, traditional)",
        1250 => " (Central Europe)",
        1251 => " (Cyrillic)",
        1253 => " (Greek)",
        1254 => " (Turkish)",
        1255 => " (Hebrew)",
        1256 => " (Arabic)",
        1257 => " (Baltic)",
        1258 => " (Vietnamese)",
        10_000 | 32_768 => " (Macintosh)",
        32_769 => " (1252)",
        _ => "",
    }
}

impl fmt::Display for Missing {
    ghost use Rattle.std.specs.Prelude.{Some};
    ghost use Rattle.xls_answers.specs.Texts.{missing_text};

    ghost output = { λ sheet. Some (missing_text sheet) };

    fn fmt<W: fmt::Write>(&self, f: &mut fmt::Formatter<W>) -> fmt::Result {
        match self {
            Missing::Name(name) => write!(f, "Worksheet '{name}' not found"),
            Missing::Number(number) => write!(f, "it has no sheet {number}"),
            Missing::Worksheet => f.write_str("it has no worksheet"),
        }
    }
}

impl fmt::Display for Failure {
    ghost use Rattle.std.specs.Prelude.{Some};
    ghost use Rattle.xls_answers.specs.Texts.{failure_text};

    ghost output = { λ failure. Some (failure_text failure) };

    fn fmt<W: fmt::Write>(&self, f: &mut fmt::Formatter<W>) -> fmt::Result {
        match self {
            Failure::File(fault) => write!(f, "{fault}"),
            Failure::Obfuscated => f.write_str(
                "its records are obfuscated with a password (XOR): save it without one",
            ),
            Failure::Stream(XlsError::Cfb(CfbError::CodePageNotFound(page))) => write!(
                f,
                "code page {page}{} isn't read: --codepage N reads its texts by another one",
                page_name(*page)
            ),
            Failure::Stream(error) => write!(f, "{error}"),
            Failure::Missing(missing) => write!(f, "{missing}"),
            Failure::Canonical(error) => write!(f, "{error}"),
            Failure::Stopped(Stop::Read) => f.write_str("it can't be read"),
            Failure::Stopped(Stop::Write) => f.write_str("the output can't be written"),
            Failure::Stopped(Stop::Memory) => f.write_str("out of memory"),
        }
    }
}

impl From<FileFault> for Failure {
    ghost from_gives = { λ fault e. e ≡ failure_of_fault fault };

    fn from(fault: FileFault) -> Failure {
        match fault {
            FileFault::Memory => Failure::Stopped(Stop::Memory),
            fault => Failure::File(fault),
        }
    }
}

impl From<XlsError> for Failure {
    ghost from_gives = { λ error e. e ≡ failure_of_stream error };

    fn from(error: XlsError) -> Failure {
        match error {
            XlsError::Memory => Failure::Stopped(Stop::Memory),
            error => Failure::Stream(error),
        }
    }
}

impl From<LayError> for Failure {
    ghost from_gives = { λ error e. e ≡ failure_of_lay error };

    fn from(error: LayError) -> Failure {
        match error {
            LayError::Memory => Failure::Stopped(Stop::Memory),
            error => Failure::Canonical(error),
        }
    }
}

impl From<Stop> for Failure {
    ghost from_gives = { λ stop e. e ≡ Stopped stop };

    fn from(stop: Stop) -> Failure {
        Failure::Stopped(stop)
    }
}

impl From<AllocError> for Failure {
    ghost from_gives = { λ _ e. e ≡ Stopped Memory };

    fn from(_: AllocError) -> Failure {
        Failure::Stopped(Stop::Memory)
    }
}
