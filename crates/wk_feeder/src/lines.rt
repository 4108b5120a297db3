//! A line of a feed, made of its values.
ghost use Rattle.std.specs.Prelude.{◌≡◌, ◌++◌, map, string_bytes, IfOk, OnOk};
ghost use Rattle.serde_json.specs.View.{view};
ghost use Rattle.serde_json.specs.Written.{compact_text};
ghost use Rattle.wk_answer_rules.specs.Values.{array_of};
ghost use Rattle.wk_feeder.specs.Cells.{data_of};
ghost use Rattle.wk_feeder.specs.Bytes.{bytes_of_values};

use serde_json::{ToValue, Value};
use std::alloc::Global;
use wk_memory::Memory;
use wk_replies::array_value;

/// A value of a line.
#[derive(Clone, Copy)]
pub enum Cell<'a> {
    /// A text.
    Text(&'a str),
    /// A whole number.
    Whole(u64),
    /// A number with a sign: that of a namespace.
    Integer(i64),
    /// No text.
    Null,
}

/// The value of a cell.
fn cell_value(alloc: Global, cell: Cell<'_>) -> Result<Value, Memory>
    ensures { IfOk result (λ v. view v ≡ data_of cell.entry) }
{
    match cell {
        Cell::Text(text) => Ok(text.to_value(alloc)?),
        Cell::Whole(number) => Ok(number.to_value(alloc)?),
        Cell::Integer(number) => Ok(number.to_value(alloc)?),
        Cell::Null => Ok(Value::Null),
    }
}

/// The array of the cells' values.
fn cells_value(alloc: Global, cells: &[Cell<'_>]) -> Result<Value, Memory>
    ensures { IfOk result (λ v. view v ≡ array_of (map data_of cells.now)) }
{
    let mut values = Vec::new(alloc);
    for cell in cells {
        values.push(cell_value(alloc, *cell)?)?;
    }
    Ok(array_value(values))
}

/// The line of these values, compact JSON (RFC 8259), without a newline.
fn cells_text(alloc: Global, cells: &[Cell<'_>]) -> Result<String, Memory>
    ensures { IfOk result (λ line. string_bytes line ≡ compact_text (array_of (map data_of cells.now))) }
{
    let value = cells_value(alloc, cells)?;
    Ok(value.to_string(alloc)?)
}

/// Appends the line of these values, compact JSON (RFC 8259), and a newline.
pub fn push_line(alloc: Global, cells: &[Cell<'_>], lines: &mut String) -> Result<(), Memory>
    ensures { OnOk result (string_bytes lines.new ≡ string_bytes lines.old ++ bytes_of_values (map data_of cells.now)) }
{
    let line = cells_text(alloc, cells)?;
    lines.push_str(&line)?;
    lines.push('\n')?;
    Ok(())
}
