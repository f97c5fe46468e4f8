//! The Continue records that some records begin with.

ghost use Rattle.std.specs.Prelude.{◌≡◌, [], ◌∷◌, MatchOption};
ghost use Rattle.xls_bodies.specs.Bodies.{continued};

use std::marker::Model;
use xls_parts::WholeRecords;
use xls_stream::types::CONTINUE;

/// The bodies of the Continue records that some records begin with. Contracts see the list of them.
#[derive(Drop)]
pub(crate) struct Continues<'a> {
    records: WholeRecords<'a>,
}

impl<'a> Model for Continues<'a> {
    ghost use Rattle.std.specs.Prelude.{List, ℕ};
    ghost use Rattle.xls_bodies.specs.Bodies.{continued};

    ghost Value = { List (List ℕ) };

    ghost view = { λ s. continued s.records };
}

impl<'a> Continues<'a> {
    /// Those at the beginning of these records.
    pub(crate) fn new(records: WholeRecords<'a>) -> Continues<'a>
        ensures { result ≡ continued records.entry }
    {
        Continues { records }
    }

    /// The next one. Takes no memory.
    pub(crate) fn next_piece(&mut self) -> Option<&'a [u8]>
        ensures { MatchOption result ((self.old ≡ []) × (self.new ≡ [])) (λ piece. self.old ≡ piece.now ∷ self.new) }
    {
        let Some(r) = self.records.next() else {
            return None;
        };
        if r.typ == CONTINUE {
            return Some(r.body);
        }
        self.records = WholeRecords::new(&[], 0);
        None
    }
}
