//! Laws over the stream, each on a function with an empty body.

ghost use Rattle.xls_data.specs.Data.{is_nothing};
ghost use Rattle.xls_command.specs.SampleLaws.{SampleBytes, SampleCarries, SampleLaid, SampleLength, SampleOpens, SampleRange, SampleReading, SampleShows, SampleSound};

use xls_data::Data;

/// The stream carries its list.
pub fn sample_carries()
    ensures { SampleCarries }
{}

/// It is the canonical layout of its list, a valid one with at most 65,536 rows.
pub fn sample_laid()
    ensures { SampleLaid }
{}

/// It has 64 bytes, and 28 for each row.
pub fn sample_length()
    ensures { SampleLength }
{}

/// With at most 65,536 rows it consists of bytes.
pub fn sample_bytes()
    ensures { SampleBytes }
{}

/// No place of it has a fault, so that only memory can refuse to open it.
pub fn sample_sound()
    ensures { SampleSound }
{}

/// Each reading of its list is the workbook that was made.
pub fn sample_reading()
    ensures { SampleReading }
{}

/// And each workbook that is opened from it.
pub fn sample_opens()
    ensures { SampleOpens }
{}

/// Each range of the cells that were made has a row for each number, and the sum of the numbers.
pub fn sample_range()
    ensures { SampleRange ⟦<Data as PartialEq>⟧.eq is_nothing }
{}

/// And each range of the sheet `G` of a workbook that is opened from the stream.
pub fn sample_shows()
    ensures { SampleShows ⟦<Data as PartialEq>⟧.eq is_nothing }
{}
