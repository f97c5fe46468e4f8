//! A table of three strings, cut into two pieces at each byte.

use super::*;

/// The units of `ab`, of `x`, U+1F600 and `y`, where the middle one is a pair, and of U+00E9.
static UNITS: [&[u16]; 3] = [&[0x61, 0x62], &[0x78, 0xD83D, 0xDE00, 0x79], &[0xE9]];

/// What the three strings answer.
const TEXTS: Table = Table::Gives(
    "3|ab|x\u{1F600}y|\u{E9}|. Ok(3) Ok(Some([97, 98]))Ok(Some([120, 55357, 56832, 121]))Ok(Some([233]))Ok(None)Ok(None)",
);

/// The same where an empty string comes after them.
const FOUR_TEXTS: Table = Table::Gives(
    "4|ab|x\u{1F600}y|\u{E9}||. Ok(4) Ok(Some([97, 98]))Ok(Some([120, 55357, 56832, 121]))Ok(Some([233]))Ok(Some([]))Ok(None)",
);

/// The steps before each string.
static STEPS: [&str; 3] = [
    "",
    "Ok(Some([97, 98]))",
    "Ok(Some([97, 98]))Ok(Some([120, 55357, 56832, 121]))",
];

/// What a cut before each byte of each string gives, where units have one byte if that serves: `t` is
/// the three texts, `1` and `2` so many bytes of a head, `h` half a unit. After the last byte `e`: the
/// empty piece is an empty string.
const NARROW: [&[u8]; 3] = [b"t12tt", b"t12thththth", b"t12te"];

/// The same for units of two bytes.
const WIDE: [&[u8]; 3] = [b"t12thth", b"t12thththth", b"t12the"];

/// Whether units have two bytes before a cut and after it, and what each cut gives.
struct Widths {
    name: &'static str,
    before: bool,
    after: bool,
    letters: &'static [&'static [u8]],
}

static WIDTHS: [Widths; 4] = [
    Widths {
        name: "units of one byte",
        before: false,
        after: false,
        letters: &NARROW,
    },
    Widths {
        name: "units that become wide",
        before: false,
        after: true,
        letters: &NARROW,
    },
    Widths {
        name: "units of two bytes",
        before: true,
        after: true,
        letters: &WIDE,
    },
    Widths {
        name: "units that become narrow",
        before: true,
        after: false,
        letters: &WIDE,
    },
];

/// A table that is written into two pieces, so many bytes into the first one.
#[derive(Drop)]
struct Cut {
    left: usize,
    first: Vec<u8>,
    second: Vec<u8>,
}

impl Cut {
    fn put(&mut self, byte: u8) -> Result<(), AllocError> {
        if self.left > 0 {
            self.left -= 1;
            self.first.push(byte)?;
        } else {
            self.second.push(byte)?;
        }
        Ok(())
    }

    /// A string; where the cut stands before one of its units, a flags byte sets the width anew.
    fn put_string(&mut self, units: &[u16], before: bool, after: bool) -> Result<(), AllocError> {
        let is_wide = if self.left > 0 { before } else { after };
        let mut is_wide = is_wide || needs_two(units);
        self.put((units.len() % 256) as u8)?;
        self.put(0)?;
        self.put(u8::from(is_wide))?;
        for i in 0..units.len() {
            if self.left == 0 && self.second.is_empty() {
                let (_, rest) = units.split_at(i);
                is_wide = after || needs_two(rest);
                self.put(u8::from(is_wide))?;
            }
            self.put((units[i] % 256) as u8)?;
            if is_wide {
                self.put((units[i] / 256) as u8)?;
            }
        }
        Ok(())
    }
}

/// Whether some unit doesn't fit into one byte.
fn needs_two(units: &[u16]) -> bool {
    units.iter().any(|unit| *unit > 255)
}

/// Whether the three strings answer so: an SST record up to the cut, and a Continue record from it on,
/// of these widths before and after it.
fn cut_answers(
    alloc: Global,
    at: usize,
    before: bool,
    after: bool,
    wanted: Table,
) -> Result<bool, XlsError> {
    let mut cut = Cut {
        left: at,
        first: Vec::new(alloc),
        second: Vec::new(alloc),
    };
    for units in UNITS.iter() {
        cut.put_string(units, before, after)?;
    }
    pieces_answer(alloc, &cut.first, &[&cut.second], wanted)
}

/// What a table answers by the letter of its cut, and the steps before the cut string.
fn answer_by(letter: u8, steps: &'static str) -> Table {
    match letter {
        b'1' => Table::Refuses("Len { expected: 3, found: 1, typ: RichString }", steps),
        b'2' => Table::Refuses("Len { expected: 3, found: 2, typ: RichString }", steps),
        b'h' => Table::Refuses("EoStream(Dbcs)", steps),
        b'e' => FOUR_TEXTS,
        _ => TEXTS,
    }
}

/// Cuts the table at each byte.
fn cuts(rt: &impl Abort, alloc: Global, widths: &Widths) -> Result<(), Fail> {
    let mut at: usize = 0;
    for (row, steps) in widths.letters.iter().zip(STEPS.iter()) {
        for letter in *row {
            let wanted = answer_by(*letter, *steps);
            assert!(rt;
                cut_answers(alloc, at, widths.before, widths.after, wanted)?,
                "{}, cut at {at}",
                widths.name
            );
            at = at.saturating_add(1);
        }
    }
    Ok(())
}

#[test]
fn cuts_three_strings_at_each_byte(rt: HostRuntime) -> Result<(), Fail> {
    for widths in WIDTHS.iter() {
        cuts(&rt, rt.alloc(), widths)?;
    }
    Ok(())
}

/// `a` with one run and three bytes of an extension, and `z`.
static WITH_TAIL: [u8; 21] = [
    1, 0, 12, 1, 0, 3, 0, 0, 0, 0x61, 9, 9, 9, 9, 7, 7, 7, 1, 0, 0, 0x7A,
];

const BOTH: Table = Table::Gives("2|a|z|. Ok(2) Ok(Some([97]))Ok(Some([122]))Ok(None)Ok(None)");

const TOO_SHORT: Table = Table::Refuses("ContinueRecordTooShort", "");

/// So many bytes of them in the first piece, whether the others are in a second one, and the answer.
static TAILS: [(usize, bool, Table); 23] = [
    // cut inside the long head
    (
        1,
        true,
        Table::Refuses("Len { expected: 3, found: 1, typ: RichString }", ""),
    ),
    (
        2,
        true,
        Table::Refuses("Len { expected: 3, found: 2, typ: RichString }", ""),
    ),
    (
        3,
        true,
        Table::Refuses("Len { expected: 9, found: 3, typ: RichString }", ""),
    ),
    (
        4,
        true,
        Table::Refuses("Len { expected: 9, found: 4, typ: RichString }", ""),
    ),
    (
        5,
        true,
        Table::Refuses("Len { expected: 9, found: 5, typ: RichString }", ""),
    ),
    (
        6,
        true,
        Table::Refuses("Len { expected: 9, found: 6, typ: RichString }", ""),
    ),
    (
        7,
        true,
        Table::Refuses("Len { expected: 9, found: 7, typ: RichString }", ""),
    ),
    (
        8,
        true,
        Table::Refuses("Len { expected: 9, found: 8, typ: RichString }", ""),
    ),
    // cut before and inside runs and extension
    (10, true, BOTH),
    (11, true, BOTH),
    (12, true, BOTH),
    (13, true, BOTH),
    (14, true, BOTH),
    (15, true, BOTH),
    (16, true, BOTH),
    (17, true, BOTH),
    // ends before and inside runs and extension
    (10, false, TOO_SHORT),
    (11, false, TOO_SHORT),
    (12, false, TOO_SHORT),
    (13, false, TOO_SHORT),
    (14, false, TOO_SHORT),
    (15, false, TOO_SHORT),
    (16, false, TOO_SHORT),
];

#[test]
fn cuts_a_head_runs_and_an_extension(rt: HostRuntime) -> Result<(), Fail> {
    for (at, goes_on, wanted) in TAILS.iter() {
        let (first, rest) = WITH_TAIL.split_at((*at).min(21));
        let second = [rest];
        let others: &[&[u8]] = if *goes_on { &second } else { &[] };
        assert!(rt;
            pieces_answer(rt.alloc(), first, others, *wanted)?,
            "{at}, {goes_on}"
        );
    }
    Ok(())
}
