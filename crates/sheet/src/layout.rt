//! The columns of the printed sheet. They are laid out in bytes: no format has commas in amounts, or columns as wide as Thai letters stand.
ghost use Rattle.std.specs.Prelude.{◌≡◌, ◌++◌, OnOk};
ghost use Rattle.sheet.specs.Layout.{name_cell, level_cells, row_text};

use crate::amount::amount;
use crate::name::columns;
use crate::row::Row;
use rules::levels::Levels;
use std::alloc::AllocError;

/// Two lines that stand above the rows.
pub const HEADER: &str =
    "                                                       One lot outright                    One lot of a spread
Baht per lot                          Initial  Maintenance        Force      Initial  Maintenance        Force
";

/// The width of the column of names.
const NAME_WIDTH: usize = 32;

const BLANKS: [u8; NAME_WIDTH] = [b' '; NAME_WIDTH];

/// Adds a name and blanks up to the end of its column. A wider name has a line of its own.
fn put_name(out: &mut Vec<u8>, name: &str) -> Result<(), AllocError>
    ensures { OnOk result (out.new.items ≡ out.old.items ++ name_cell name.now) }
{
    out.extend_from_slice(name.as_bytes())?;
    let width = columns(name);
    if width <= NAME_WIDTH {
        out.extend_from_slice(&BLANKS[width..])
    } else {
        out.push(b'\n')?;
        out.extend_from_slice(&BLANKS)
    }
}

/// Adds the three levels of one lot.
fn put_levels(out: &mut Vec<u8>, levels: Levels) -> Result<(), AllocError>
    ensures { OnOk result (out.new.items ≡ out.old.items ++ level_cells levels) }
{
    out.extend_from_slice(&amount(levels.initial))?;
    out.extend_from_slice(&amount(levels.maintenance))?;
    out.extend_from_slice(&amount(levels.force))
}

/// Adds the line of a row.
pub fn put_row(out: &mut Vec<u8>, row: Row<'_>) -> Result<(), AllocError>
    ensures { OnOk result (out.new.items ≡ out.old.items ++ row_text row.entry) }
{
    put_name(out, row.name)?;
    put_levels(out, row.outright)?;
    put_levels(out, row.spread)?;
    out.push(b'\n')?;
    Ok(())
}
