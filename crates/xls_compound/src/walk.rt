//! The walk over a directory's tree.

ghost use Rattle.std.specs.Prelude.{◌≡◌, ◌<◌, ◌+◌, ℕ, List, [], ◌∷◌, length, slice_set, slice_index_or, false, true, Ok, Err, IfOk, IfErr, OnOk, MatchOption, MatchResult};
ghost use Rattle.xls_compound.specs.declared.tasks.Task.TheVariants as tasks;
ghost use Rattle.xls_compound.specs.declared.fault.DirectoryError.TheVariants.{Memory};
ghost use Rattle.xls_compound.specs.Tree.{tree_entry_at, checked};
ghost use Rattle.xls_compound.specs.Steps.{State, before, after_meeting, with_item, at_first, ListsTree, RefusesTree, AreMarks, GoesOn, RefusesStep, left_to_do};

use crate::directory_entry::{Entries, Entry, NONE};
use crate::fault::{DirectoryError, DirectoryFault};
use crate::items::Item;
use crate::tasks::Task;
use std::alloc::{AllocError, Global};
use std::marker::Model;

/// What is still to be read, the next last; which entries were met; what is listed so far.
#[derive(Drop)]
struct Walk<'a> {
    tasks: Vec<Task<'a>>,
    met: Vec<bool>,
    items: Vec<Item>,
}

impl<'a> Model for Walk<'a> {
    ghost use Rattle.std.specs.Prelude.{reverse};
    ghost use Rattle.xls_compound.specs.Steps.{State};

    ghost Value = { State };

    ghost view = { λ w. record {
      tasks = reverse w.tasks.items;
      met = w.met.items;
      items = w.items.items;
    } };
}

// Whether an entry may stand below the root.
fn check(number: u32, entry: &Entry<'_>) -> Result<(), DirectoryFault>
    ensures { MatchResult result (λ _. checked number entry.now ≡ Ok entry.now)
        (λ fault. checked number entry.now ≡ Err fault) }
{
    if !entry.is_storage() && !entry.is_stream() {
        return Err(DirectoryFault::Kind {
            number,
            kind: entry.kind,
        });
    }
    if !entry.has_name_size() {
        return Err(DirectoryFault::NameSize {
            number,
            size: entry.name_size,
        });
    }
    Ok(())
}

// The entry of a number, where some were met before.
fn unmet<'a>(entries: &Entries<'a>, met: &[bool], number: u32) -> Result<Entry<'a>, DirectoryFault>
    requires { length met.now ≡ length entries.now }
    ensures exact { (numbers : List ℕ) → AreMarks met.now numbers
        → result ≡ tree_entry_at entries.now numbers number }
    ensures is_there { OnOk result (number < length met.now) }
    ensures is_new { OnOk result (slice_index_or met.now number false ≡ false) }
{
    let Some(entry) = entries.get(number) else {
        return Err(DirectoryFault::Missing { number });
    };
    if met[number as usize] {
        return Err(DirectoryFault::Twice { number });
    }
    check(number, &entry)?;
    Ok(entry)
}

impl<'a> Walk<'a> {
    // The entry of a number, which is met from now on.
    fn meet(&mut self, entries: &Entries<'a>, number: u32) -> Result<Entry<'a>, DirectoryFault>
        requires { length self.old.met ≡ length entries.now }
        ensures exact { (met : List ℕ) → AreMarks self.old.met met
            → result ≡ tree_entry_at entries.now met number }
        ensures is_there { OnOk result (number < length self.old.met) }
        ensures is_new { OnOk result (slice_index_or self.old.met number false ≡ false) }
        ensures ok { OnOk result (self.new ≡ after_meeting number self.old) }
        ensures size { length self.new.met ≡ length self.old.met }
    {
        let entry = unmet(entries, &self.met, number)?;
        self.met[number as usize] = true;
        Ok(entry)
    }

    // The next task.
    fn next_task(&mut self) -> Option<Task<'a>>
        ensures { MatchOption result ((self.old.tasks ≡ []) × (self.new ≡ self.old))
            (λ task. self.old ≡ before task self.new) }
    {
        self.tasks.pop()
    }

    fn put(&mut self, task: Task<'a>) -> Result<(), AllocError>
        ensures ok { OnOk result (self.new ≡ before task.entry self.old) }
        ensures met { self.new.met ≡ self.old.met }
    {
        self.tasks.push(task)?;
        Ok(())
    }

    fn list(&mut self, item: Item) -> Result<(), AllocError>
        ensures ok { OnOk result (self.new ≡ with_item item self.old) }
        ensures met { self.new.met ≡ self.old.met }
    {
        self.items.push(item)?;
        Ok(())
    }

    // The tree that a number leads to: its entry is met, and what is left of it is put off.
    fn visit(
        &mut self,
        entries: &Entries<'a>,
        number: u32,
        parent: Option<usize>,
    ) -> Result<(), DirectoryError>
        requires { length self.old.met ≡ length entries.now }
        ensures ok { OnOk result (GoesOn entries.now (before (tasks.Tree number parent) self.old) self.new) }
        ensures err { IfErr result (RefusesStep entries.now (before (tasks.Tree number parent) self.old)) }
        ensures size { length self.new.met ≡ length self.old.met }
        ensures nearer { OnOk result (left_to_do self.new < left_to_do self.old + 1) }
    {
        if number == NONE {
            return Ok(());
        }
        let entry = self.meet(entries, number)?;
        let left = entry.left;
        self.put(Task::Rest { entry, parent })?;
        self.put(Task::Tree {
            number: left,
            parent,
        })?;
        Ok(())
    }

    // The place of the next item.
    fn next_place(&self) -> usize
        ensures { result ≡ length self.now.items }
    {
        self.items.as_slice().len()
    }

    // An entry whose left is read: it is listed, and its children and its right are put off.
    fn go_on(
        &mut self,
        alloc: Global,
        entries: &Entries<'a>,
        entry: Entry<'a>,
        parent: Option<usize>,
    ) -> Result<(), DirectoryError>
        ensures ok { OnOk result (GoesOn entries.now (before (tasks.Rest entry.entry parent) self.old) self.new) }
        ensures err { IfErr result (λ e. e ≡ Memory) }
        ensures met { self.new.met ≡ self.old.met }
        ensures nearer { OnOk result (left_to_do self.new < left_to_do self.old + 3) }
    {
        let place = self.next_place();
        self.list(Item::of(alloc, &entry, parent)?)?;
        let child = entry.child();
        self.put(Task::Tree {
            number: entry.right,
            parent,
        })?;
        self.put(Task::Tree {
            number: child,
            parent: Some(place),
        })?;
        Ok(())
    }

    // Does a task.
    fn do_task(
        &mut self,
        alloc: Global,
        entries: &Entries<'a>,
        task: Task<'a>,
    ) -> Result<(), DirectoryError>
        requires { length self.old.met ≡ length entries.now }
        ensures ok { OnOk result (GoesOn entries.now (before task.entry self.old) self.new) }
        ensures err { IfErr result (RefusesStep entries.now (before task.entry self.old)) }
        ensures size { length self.new.met ≡ length self.old.met }
        ensures nearer { OnOk result (left_to_do self.new < left_to_do (before task.entry self.old)) }
    {
        match task {
            Task::Tree { number, parent } => self.visit(entries, number, parent),
            Task::Rest { entry, parent } => self.go_on(alloc, entries, entry, parent),
        }
    }

    // At the tree that a number leads to, where the root alone was met.
    fn new(alloc: Global, entries: &Entries<'a>, first: u32) -> Result<Walk<'a>, DirectoryError>
        requires { 0 < length entries.now }
        ensures ok { IfOk result (λ walk. walk ≡ at_first first (length entries.now)) }
        ensures err { IfErr result (λ e. e ≡ Memory) }
    {
        let mut met = vec![in alloc; false; entries.len()]?;
        met[0] = true;
        let tasks = vec![in alloc;
            Task::Tree {
                number: first,
                parent: None
            },
        ]?;
        Ok(Walk {
            tasks,
            met,
            items: Vec::new(alloc),
        })
    }

    fn into_items(self) -> Vec<Item>
        ensures { result.items ≡ self.entry.items }
    {
        self.items
    }
}

/// What the tree that a number leads to lists, below the root.
pub(crate) fn items_of(
    alloc: Global,
    entries: &Entries<'_>,
    first: u32,
) -> Result<Vec<Item>, DirectoryError>
    requires { 0 < length entries.now }
    ensures ok { IfOk result (λ items. ListsTree entries.now first items.items) }
    ensures err { IfErr result (RefusesTree entries.now first) }
{
    let mut walk = Walk::new(alloc, entries, first)?;
    'tasks: while let Some(task) = walk.next_task() {
        walk.do_task(alloc, entries, task)?;
    }
    Ok(walk.into_items())
}
