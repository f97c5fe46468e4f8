//! The call that pushes them.

ghost use Rattle.std.specs.Prelude.{◌≡◌, ◌++◌, map, IfOk, OnOk, OnErr};
ghost use Rattle.xls_formula.specs.Functions.{shipped};
ghost use Rattle.xls_formula.specs.Table.{table_function, from_index_72};

use crate::FunctionTable;
use crate::table::FUNCTIONS;
use std::alloc::{AllocError, Global};

/// Pushes these functions in their order.
fn push_all(table: &mut FunctionTable, functions: &[(&str, u8)]) -> Result<(), AllocError>
    ensures { OnOk result (table.new ≡ table.old ++ map table_function functions.now) }
{
    for (name, count) in functions {
        table.push(name, *count)?;
    }
    Ok(())
}

/// The shipped functions, and these after them.
fn all_functions(alloc: Global) -> Result<FunctionTable, AllocError>
    ensures { IfOk result (λ table. table ≡ shipped ++ from_index_72) }
{
    let mut table = FunctionTable::shipped(alloc)?;
    push_all(&mut table, &FUNCTIONS)?;
    Ok(table)
}

/// Pushes the functions of index 72 to 380 to a table of the shipped 72. Where memory runs out, the
/// table is as it was.
pub fn push_functions(table: &mut FunctionTable) -> Result<(), AllocError>
    requires { table.old ≡ shipped }
    ensures ok { OnOk result (table.new ≡ shipped ++ from_index_72) }
    ensures err { OnErr result (table.new ≡ table.old) }
{
    let all = all_functions(table.allocator())?;
    *table = all;
    Ok(())
}
