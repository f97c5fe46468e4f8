//! The shared strings of the stream.

ghost use Rattle.std.specs.Prelude.{◌≡◌};
ghost use Rattle.xls_command.specs.Sample.{sample_word};

/// The word in column 1 of a row: `a`, `bb` and `ccc` in turn.
pub fn word_of(row: u32) -> &'static str
    ensures { result.now ≡ sample_word row }
{
    match row % 3 {
        0 => "a",
        1 => "bb",
        _ => "ccc",
    }
}
