//! The functions that a formula may name by an index, [MS-XLS] Ftab 2.5.198.17.

ghost use Rattle.std.specs.Prelude.{◌≡◌, [], ◌∷◌, ◌++◌, length, OnOk, OnErr, slice_get, IfOk};
ghost use Rattle.std.specs.Option.{option_map};
ghost use Rattle.std.specs.Str.{chars};

use crate::ftab::{FTAB, FTAB_ARGC};
use std::alloc::{AllocError, Global};
use std::marker::Model;

#[derive(Debug, Drop)]
struct FunctionEntry {
    name: String,
    argc: u8,
}

/// Functions by their index: the name and the count of operands. Contracts see the list of both, the
/// name as the list of its characters.
#[derive(Debug, Drop)]
pub struct FunctionTable {
    alloc: Global,
    entries: Vec<FunctionEntry>,
}

impl Model for FunctionTable {
    ghost use Rattle.std.specs.Prelude.{List, ℕ, map};

    ghost Value = { List (List ℕ × ℕ) };

    ghost use Rattle.xls_formula.specs.Functions.{function_of};

    ghost view = { λ table. map function_of table.entries.items };
}

impl FunctionTable {
    ghost use Rattle.xls_formula.specs.Functions.{functions_paired, shipped};

    /// No functions. Takes no memory.
    pub fn new(alloc: Global) -> FunctionTable
        ensures { result ≡ [] }
    {
        FunctionTable {
            alloc,
            entries: Vec::new(alloc),
        }
    }

    /// Adds functions under the next indexes.
    fn push_all(&mut self, names: &[&str], counts: &[u8]) -> Result<(), AllocError>
        requires { length names.now ≡ length counts.now }
        ensures { OnOk result (self.new ≡ self.old ++ functions_paired names.now counts.now) }
    {
        'names: for i in 0..names.len() {
            self.push(names[i], counts[i])?;
        }
        Ok(())
    }

    /// The functions whose names are shipped, `FTAB`. Only running out of memory refuses.
    #[tactic(auto, unfolding(std::specs::Prelude::chars))]
    pub fn shipped(alloc: Global) -> Result<FunctionTable, AllocError>
        ensures { IfOk result (λ table. table ≡ shipped) }
    {
        let mut table = FunctionTable::new(alloc);
        table.push_all(&FTAB, &FTAB_ARGC)?;
        Ok(table)
    }

    /// Adds a function under the next index. Refuses only when memory runs out, and then the
    /// table is as it was.
    pub fn push(&mut self, name: &str, argc: u8) -> Result<(), AllocError>
        ensures ok { OnOk result (self.new ≡ self.old ++ (chars name.now, argc) ∷ []) }
        ensures err { OnErr result (self.new ≡ self.old) }
    {
        let name = String::from_str(self.alloc, name)?;
        self.entries.push(FunctionEntry { name, argc })?;
        Ok(())
    }

    /// A table of the same functions. Only running out of memory refuses.
    pub fn try_copy(&self) -> Result<FunctionTable, AllocError>
        ensures { IfOk result (λ copy. copy ≡ self.now) }
    {
        let mut copy = FunctionTable::new(self.alloc);
        for entry in &self.entries {
            copy.push(entry.name.as_str(), entry.argc)?;
        }
        Ok(copy)
    }

    /// The allocator that the table grows in.
    pub fn allocator(&self) -> Global {
        self.alloc
    }

    /// How many functions there are.
    pub fn len(&self) -> usize
        ensures { result ≡ length self.now }
    {
        self.entries.len()
    }

    /// The name of the function of an index, and `None` exactly past the end.
    pub fn name(&self, i: usize) -> Option<&str>
        ensures { option_map (λ name. chars name.now) result
            ≡ option_map (λ f. f.0) (slice_get self.now i) }
    {
        match self.entries.get(i) {
            Some(entry) => Some(entry.name.as_str()),
            None => None,
        }
    }

    /// The count of operands of the function of an index, and `None` exactly past the end.
    pub fn argc(&self, i: usize) -> Option<u8>
        ensures { result ≡ option_map (λ f. f.1) (slice_get self.now i) }
    {
        match self.entries.get(i) {
            Some(entry) => Some(entry.argc),
            None => None,
        }
    }

    /// Both of an index.
    pub(crate) fn get(&self, i: usize) -> Option<(&str, u8)>
        ensures { option_map (λ f. (chars f.0.now, f.1)) result ≡ slice_get self.now i }
    {
        match self.entries.get(i) {
            Some(entry) => Some((entry.name.as_str(), entry.argc)),
            None => None,
        }
    }
}
