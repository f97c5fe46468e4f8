//! The words in the order of the string table.

use xls_command::word_of;

static WORDS: [(u32, &str); 4] = [(0, "a"), (1, "bb"), (2, "ccc"), (65_535, "a")];

#[test]
fn words_come_in_turn(rt: HostRuntime) {
    for (n, word) in WORDS.iter() {
        assert!(rt; word_of(*n) == *word, "{n}");
    }
}
