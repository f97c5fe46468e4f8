//! The class of a number format of one's own, by a walk over its characters.

ghost use Rattle.std.specs.Prelude.{◌≡◌, ◌<◌, ◌+◌, ◌^◌, codes, false, if◌then◌else◌};
ghost use Rattle.std.specs.Str.{chars};
ghost use Rattle.xls_dates.specs.Classes.{◌∈◌, duration_after, class_of};
ghost use Rattle.xls_dates.specs.Walk.{StepLeads};

use crate::CellFormat;

// What the walk over a format knows: whether the next character is escaped or quoted, how many
// brackets are open, whether a duration has just been read, whether an `a` was, and the character
// before.
#[derive(Clone, Copy)]
struct Walk {
    escaped: bool,
    quoted: bool,
    depth: u64,
    duration: bool,
    half_day: bool,
    before: char,
}

// Where a character leads: on, or to the class.
enum Step {
    Next(Walk),
    Done(CellFormat),
}

fn escapes(c: char) -> bool
    ensures { result ≡ c ∈ codes "_\\*" }
{
    c == '_' || c == '\\' || c == '*'
}

fn duration_after(duration: bool, before: char, c: char) -> bool
    ensures { result ≡ duration_after duration before c }
{
    (before == '[' && (c == 'h' || c == 'm' || c == 's')) || (duration && c == before)
}

// Whether a character outside brackets means a date; `half_day` after an `a`.
fn is_date(half_day: bool, c: char) -> bool
    ensures { result ≡ c ∈ (if half_day then codes "pm/" else codes "dmhys") }
{
    if half_day {
        c == 'p' || c == 'm' || c == '/'
    } else {
        c == 'd' || c == 'm' || c == 'h' || c == 'y' || c == 's'
    }
}

// A character in lower case that is neither escaped nor quoted.
fn plain_step(w: Walk, c: char) -> Step
    requires escaped { w.escaped ≡ false }
    requires quoted { w.quoted ≡ false }
    requires escapes { c ∈ codes "_\\*\"" ≡ false }
    requires room { w.depth + 1 < 2 ^ 64 }
    ensures { StepLeads w c result }
{
    if c == ';' {
        return Step::Done(CellFormat::Other);
    }
    if c == '[' {
        return Step::Next(Walk {
            depth: w.depth + 1,
            before: c,
            ..w
        });
    }
    if c == ']' {
        if w.depth == 1 && w.duration {
            return Step::Done(CellFormat::TimeDelta);
        }
        return Step::Next(Walk {
            depth: w.depth.saturating_sub(1),
            before: c,
            ..w
        });
    }
    if w.depth == 0 && is_date(w.half_day, c) {
        return Step::Done(CellFormat::DateTime);
    }
    Step::Next(Walk {
        half_day: w.half_day || (w.depth == 0 && c == 'a'),
        duration: duration_after(w.duration, w.before, c),
        before: c,
        ..w
    })
}

// A character in lower case.
fn next_step(w: Walk, c: char) -> Step
    requires { w.depth + 1 < 2 ^ 64 }
    ensures { StepLeads w c result }
{
    if w.escaped || escapes(c) {
        return Step::Next(Walk {
            escaped: !w.escaped,
            before: c,
            ..w
        });
    }
    if c == '"' || w.quoted {
        return Step::Next(Walk {
            quoted: w.quoted != (c == '"'),
            before: c,
            ..w
        });
    }
    plain_step(w, c)
}

/// The class of a number format of one's own, by its characters: the first section decides, without
/// what is escaped, quoted or in brackets. Takes no memory.
pub fn detect_custom_number_format(format: &str) -> CellFormat
    ensures { result ≡ class_of (chars format.now) }
{
    let mut walk = Walk {
        escaped: false,
        quoted: false,
        depth: 0,
        duration: false,
        half_day: false,
        before: ' ',
    };
    'chars: for c in format.chars() {
        match next_step(walk, c.to_ascii_lowercase()) {
            Step::Done(class) => return class,
            Step::Next(next) => walk = next,
        }
    }
    CellFormat::Other
}
