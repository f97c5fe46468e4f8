//! The records of the globals one after another, with a look at the next.

ghost use Rattle.std.specs.Prelude.{◌≡◌};
ghost use Rattle.xls_parts.specs.PartRecords.{globals_records, placed_of};
ghost use Rattle.xls_other_books.specs.Walking.{TakesContinue, is_at};

use std::marker::Model;
use xls_parts::{GlobalsRecords, PartRecord};
use xls_stream::types::CONTINUE;

/// The records of the globals that are left. Contracts see their list.
#[derive(Drop)]
pub struct Cursor<'a> {
    next: Option<PartRecord<'a>>,
    records: GlobalsRecords<'a>,
}

impl<'a> Model for Cursor<'a> {
    ghost use Rattle.std.specs.Prelude.{List};
    ghost use Rattle.xls_parts.specs.PartRecords.{Placed};
    ghost use Rattle.xls_other_books.specs.Walking.{with_next};

    ghost Value = { List Placed };

    ghost view = { λ s. with_next s.next s.records };
}

impl<'a> Cursor<'a> {
    ghost use Rattle.xls_parts.specs.PartRecords.{globals_records, placed_of};
    ghost use Rattle.xls_parts.specs.Steps.{StepsBy};
    ghost use Rattle.xls_other_books.specs.Walking.{TakesContinue, is_at};

    /// All of a stream.
    pub fn new(stream: &'a [u8]) -> Cursor<'a>
        ensures { result ≡ globals_records stream.now }
    {
        let mut records = GlobalsRecords::new(stream);
        let next = records.next();
        Cursor { next, records }
    }

    /// The next record.
    pub fn take(&mut self) -> Option<PartRecord<'a>>
        ensures { StepsBy placed_of self.old result self.new }
    {
        let Some(r) = self.next else {
            return None;
        };
        self.next = self.records.next();
        Some(r)
    }
    /// Whether the next record is of this type.
    pub fn is_at(&self, typ: u16) -> bool
        ensures { result ≡ is_at typ self.now }
    {
        match &self.next {
            Some(r) => r.typ == typ,
            None => false,
        }
    }

    /// The body of the next record, if it is a Continue.
    pub fn take_continue(&mut self) -> Option<&'a [u8]>
        ensures { TakesContinue self.old result self.new }
    {
        if !self.is_at(CONTINUE) {
            return None;
        }
        match self.take() {
            Some(r) => Some(r.body),
            None => None,
        }
    }
}
