//! The distribution of passes: rows come in, columns go out.

ghost use Rattle.std.specs.Prelude.{◌≡◌, ◌≤◌, [], All, IfOk, length, map, replicate};
ghost use Rattle.flow_worker.specs.crew.Columns.{dealt, dealt_all};

use ruled_intake::SendPass;
use std::alloc::{AllocError as OutOfMemory, Global};

/// Returns `count` empty lists. Returns `Err` if memory runs out.
pub fn no_columns(alloc: Global, count: usize) -> Result<Vec<Vec<SendPass>>, OutOfMemory>
    ensures { IfOk result (λ columns. map (λ c. c.items) columns.items ≡ replicate count []) }
{
    let mut columns = Vec::new(alloc);
    for _ in 0..count {
        columns.push(Vec::new(alloc))?;
    }
    Ok(columns)
}

/// Appends one pass of the row to each list, in order. Returns `Err` if memory runs out.
pub fn deal(columns: &mut Vec<Vec<SendPass>>, row: Vec<SendPass>) -> Result<(), OutOfMemory>
    requires { length row.items ≤ length columns.old.items }
    ensures { IfOk result (λ _. map (λ c. c.items) columns.new.items
        ≡ dealt row.items (map (λ c. c.items) columns.old.items)) }
{
    let mut place = 0;
    for pass in row {
        columns[place].push(pass)?;
        place += 1;
    }
    Ok(())
}

/// Deals rows of `count` passes each out to as many lists, one row after the other. Returns `Err` if memory runs out.
pub fn deal_all(
    alloc: Global,
    count: usize,
    rows: Vec<Vec<SendPass>>,
) -> Result<Vec<Vec<SendPass>>, OutOfMemory>
    requires { All (λ row. length row.items ≡ count) rows.items }
    ensures { IfOk result (λ columns. map (λ c. c.items) columns.items
        ≡ dealt_all (map (λ c. c.items) rows.items) (replicate count [])) }
{
    let mut columns = no_columns(alloc, count)?;
    for row in rows {
        deal(&mut columns, row)?;
    }
    Ok(columns)
}
