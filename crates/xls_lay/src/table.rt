//! A string table that is written, cut where a record body or piece is full.

ghost use Rattle.std.specs.Prelude.{◌≡◌, ◌+◌, ◌≤◌, ◌<◌, ◌^◌, ◌++◌, ◌∷◌, [], length, map, Some, None, OnOk, IfOk};
ghost use Rattle.std.specs.List.{AllByRecursion};
ghost use Rattle.xls_stream.specs.Stream.{record_bytes};
ghost use Rattle.xls_stream.specs.declared.types.TheConstants as types;
ghost use Rattle.xls_layouts.specs.LaidStrings.{head_bytes, le32, marks_of_break, marks_of_steps, marks_of_string, unit_bytes, FitsWidth};
ghost use Rattle.xls_layouts.specs.Canonical.{passes, record_limit, unit_size, canonical_steps, canonical_string};
ghost use Rattle.xls_output.specs.Output.{Puts};
ghost use Rattle.xls_lay.specs.BytesOutput.{bytes_output};
ghost use Rattle.xls_lay.specs.Putting.{Moves, PutsMarks, PutsOrStops, TableHasRoom, cut_marks};

use crate::fill::{FULL, is_all_narrow, size_of_unit};
use crate::write::{push_record, push_u32, put_record};
use std::alloc::{AllocError, Global};
use xls_output::{Sink, Stop, Writer};
use xls_stream::types::{CONTINUE, SST};

/// The type and the body of the current record of a table. The records before it are done: they are gathered.
#[derive(Drop)]
pub(crate) struct TableWriter {
    typ: u16,
    body: Vec<u8>,
}

impl TableWriter {
    /// The SST record of so many strings. The number stands twice.
    pub(crate) fn new(alloc: Global, count: u32) -> Result<TableWriter, AllocError>
        ensures typ { IfOk result (λ p. p.typ ≡ types.SST) }
        ensures body { IfOk result (λ p. p.body.items ≡ le32 count ++ le32 count) }
    {
        let mut body = Vec::with_capacity(alloc, FULL)?;
        push_u32(&mut body, count)?;
        push_u32(&mut body, count)?;
        Ok(TableWriter { typ: SST, body })
    }

    fn push(&mut self, bytes: &[u8]) -> Result<(), AllocError>
        ensures { OnOk result (Moves self.old (map Some bytes.now) [] self.new) }
    {
        self.body.extend_from_slice(bytes)?;
        Ok(())
    }

    /// Begins a Continue record.
    fn cut(&mut self, done: &mut Vec<u8>) -> Result<(), AllocError>
        requires { TableHasRoom self.old }
        ensures { OnOk result (PutsMarks done.old.items self.old (None ∷ []) done.new.items self.new) }
    {
        push_record(done, self.typ, &self.body)?;
        self.typ = CONTINUE;
        self.body.clear();
        Ok(())
    }

    /// Begins one where a head would pass.
    fn cut_before_head(&mut self, done: &mut Vec<u8>) -> Result<(), AllocError>
        requires { TableHasRoom self.old }
        ensures puts { OnOk result (PutsMarks done.old.items self.old
            (marks_of_break (passes (length self.old.body.items) 3)) done.new.items self.new) }
        ensures room { OnOk result (length self.new.body.items + 3 ≤ record_limit) }
    {
        if self.body.len() + 3 <= FULL {
            return Ok(());
        }
        self.cut(done)
    }

    /// Begins one, with its flags byte, where a unit would pass.
    fn cut_before_unit(&mut self, done: &mut Vec<u8>, is_wide: bool) -> Result<(), AllocError>
        requires { TableHasRoom self.old }
        ensures puts { OnOk result (PutsMarks done.old.items self.old
            (cut_marks is_wide (length self.old.body.items)) done.new.items self.new) }
        ensures room { OnOk result (length self.new.body.items + unit_size is_wide ≤ record_limit) }
    {
        if self.body.len() + size_of_unit(is_wide) <= FULL {
            return Ok(());
        }
        self.cut(done)?;
        self.push(&[u8::from(is_wide)])?;
        Ok(())
    }

    fn push_unit(&mut self, is_wide: bool, unit: u16) -> Result<(), AllocError>
        requires { FitsWidth is_wide unit }
        ensures { OnOk result (Moves self.old (map Some (unit_bytes is_wide unit)) [] self.new) }
    {
        if is_wide {
            return self.push(&[(unit % 256) as u8, (unit / 256) as u8]);
        }
        self.push(&[unit as u8])
    }

    fn put_unit(&mut self, done: &mut Vec<u8>, is_wide: bool, unit: u16) -> Result<(), AllocError>
        requires width { FitsWidth is_wide unit }
        requires room { TableHasRoom self.old }
        ensures puts { OnOk result (PutsMarks done.old.items self.old
            (cut_marks is_wide (length self.old.body.items) ++ map Some (unit_bytes is_wide unit)) done.new.items self.new) }
        ensures room { OnOk result (TableHasRoom self.new) }
    {
        self.cut_before_unit(done, is_wide)?;
        self.push_unit(is_wide, unit)?;
        Ok(())
    }

    fn put_units(
        &mut self,
        done: &mut Vec<u8>,
        is_wide: bool,
        units: &[u16],
    ) -> Result<(), AllocError>
        requires width { AllByRecursion (FitsWidth is_wide) units.now }
        requires room { TableHasRoom self.old }
        ensures puts { OnOk result (PutsMarks done.old.items self.old
            (marks_of_steps is_wide (canonical_steps is_wide (length self.old.body.items) units.now)) done.new.items self.new) }
        ensures room { OnOk result (TableHasRoom self.new) }
    {
        for unit in units {
            self.put_unit(done, is_wide, *unit)?;
        }
        Ok(())
    }

    fn put_head(&mut self, done: &mut Vec<u8>, is_wide: bool, count: u16) -> Result<(), AllocError>
        requires room { TableHasRoom self.old }
        ensures puts { OnOk result (PutsMarks done.old.items self.old (marks_of_break (passes (length self.old.body.items) 3)
            ++ map Some (head_bytes is_wide count None None)) done.new.items self.new) }
        ensures room { OnOk result (TableHasRoom self.new) }
    {
        self.cut_before_head(done)?;
        self.push(&[(count % 256) as u8, (count / 256) as u8, u8::from(is_wide)])?;
        Ok(())
    }

    /// Puts a string.
    fn put_string(&mut self, done: &mut Vec<u8>, units: &[u16]) -> Result<(), AllocError>
        requires size { length units.now < 2 ^ 16 }
        requires room { TableHasRoom self.old }
        ensures puts { OnOk result (PutsMarks done.old.items self.old
            (marks_of_string (canonical_string (length self.old.body.items) units.now)) done.new.items self.new) }
        ensures room { OnOk result (TableHasRoom self.new) }
    {
        let is_wide = !is_all_narrow(units);
        self.put_head(done, is_wide, units.len() as u16)?;
        self.put_units(done, is_wide, units)?;
        Ok(())
    }

    /// Puts a string, and writes what is gathered where that is 64 KiB or more.
    pub(crate) fn pass_string<K: Sink>(
        &mut self,
        out: &mut Writer<'_, K, Vec<u8>>,
        units: &[u16],
    ) -> Result<(), Stop>
        requires size { length units.now < 2 ^ 16 }
        requires room { TableHasRoom self.old }
        ensures puts { PutsOrStops (bytes_output K.state out.old) self.old
            (marks_of_string (canonical_string (length self.old.body.items) units.now))
            (bytes_output K.state out.new) self.new result }
        ensures room { OnOk result (TableHasRoom self.new) }
    {
        self.put_string(out.buffer, units)?;
        out.pass()
    }

    /// Puts the current record, the last one.
    pub(crate) fn finish<K: Sink>(&self, out: &mut Writer<'_, K, Vec<u8>>) -> Result<(), Stop>
        requires { TableHasRoom self.now }
        ensures { Puts (bytes_output K.state out.old) (bytes_output K.state out.new)
            (record_bytes self.now.typ self.now.body.items) result }
    {
        put_record(out, self.typ, &self.body)
    }
}
