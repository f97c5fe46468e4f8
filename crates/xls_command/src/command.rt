//! The words of the command line.

ghost use Rattle.std.specs.Prelude.{◌↔◌, IsTrue, MatchOption, ℕ, map, ◌∷◌, []};
ghost use Rattle.std.specs.String.{string_bytes};
ghost use Rattle.xls_command.specs.declared.command.Command.{Command};
ghost use Rattle.xls_command.specs.Words.{BeginsWell, IsCommand, IsPossible, IsRows};

/// How many rows a made stream may have.
const MAX_ROWS: u32 = 65_536;

/// What a run does.
#[derive(Clone, Copy, Debug, PartialEq, Eq)]
pub enum Command<'a> {
    /// Writes the sheets of a workbook and their cells.
    Dump,
    /// Writes the sheets of a workbook alone.
    Sheets,
    /// Writes the properties in a property stream.
    Props,
    /// Writes whether a workbook has a fault, and which is the first.
    Check,
    /// Writes the cells that the formulas of a workbook cite.
    Refs,
    /// Writes the canonical stream of the list that a workbook's bytes carry.
    Remake,
    /// Writes the values of the last sheet of this name as CSV.
    Csv(&'a str),
    /// Makes a stream of so many rows, and writes what is found in it.
    Generate(u32),
}

/// The command of this name.
fn named(word: &str) -> Option<Command<'_>>
    ensures { MatchOption result ((c : Command) → IsCommand (word.now ∷ []) c → ⊥)
        (λ c. IsCommand (word.now ∷ []) c × IsPossible c) }
{
    match word {
        "dump" => Some(Command::Dump),
        "sheets" => Some(Command::Sheets),
        "props" => Some(Command::Props),
        "check" => Some(Command::Check),
        "refs" => Some(Command::Refs),
        "remake" => Some(Command::Remake),
        _ => None,
    }
}

/// Whether a text begins with a digit other than 0.
fn begins_well(text: &[u8]) -> bool
    ensures { IsTrue result ↔ BeginsWell text.now }
{
    match text {
        [first, ..] => b'1' <= *first && *first <= b'9',
        [] => false,
    }
}

/// The number of rows that a text says in decimal, without leading zeros: 1 to 65,536.
fn rows_of(text: &str) -> Option<u32>
    ensures { MatchOption result ((n : ℕ) → IsRows text.now n → ⊥) (IsRows text.now) }
{
    if !begins_well(text.as_bytes()) {
        return None;
    }
    match text.parse::<u32>() {
        Ok(rows) if rows <= MAX_ROWS => Some(rows),
        _ => None,
    }
}

/// The command of two words, of which the second is a name or a number.
fn with_operand<'a>(word: &str, operand: &'a str) -> Option<Command<'a>>
    ensures { MatchOption result ((c : Command) → IsCommand (word.now ∷ operand.now ∷ []) c → ⊥)
        (λ c. IsCommand (word.now ∷ operand.now ∷ []) c × IsPossible c) }
{
    match word {
        "csv" => Some(Command::Csv(operand)),
        "generate" => match rows_of(operand) {
            Some(rows) => Some(Command::Generate(rows)),
            None => None,
        },
        _ => None,
    }
}

/// What the words ask for, if they are those of a command.
pub fn command_of(words: &[String]) -> Option<Command<'_>>
    ensures { MatchOption result ((c : Command) → IsCommand (map string_bytes words.now) c
        → ⊥) (λ c. IsCommand (map string_bytes words.now) c × IsPossible c) }
{
    match words {
        [] => Some(Command::Dump),
        [word] => named(word.as_str()),
        [word, operand] => with_operand(word.as_str(), operand.as_str()),
        _ => None,
    }
}
