// The table of positions from the kept rows: document 02, L2 ("Positions stand in a lent table of their own").
ghost use Rattle.std.specs.Prelude.{◌≡◌, ◌<◌, ◌/◌, length};
ghost use Rattle.rows.specs.Raised.{xyz_row_of};
ghost use Rattle.factor.specs.ShownFactors.{factor_of};
ghost use Rattle.coordinates.specs.ShownPositions.{fronted};
ghost use Rattle.coordinates.specs.KeptRows.{row_at, rows_in};
ghost use Rattle.coordinates.specs.Filled.{scaled_table};

use crate::kept::WIDTH;
use crate::row_position;
use crate::table::{Positions, clear, place};
use cells::cell;
use factor::Factor;
use rows::xyz::XyzRow;

// One kept row, as it was read.
fn row_at(store: &[i32], index: usize) -> XyzRow
    requires { index < length store.now / 4 }
    ensures { xyz_row_of result ≡ row_at store.now index }
{
    let at = WIDTH * index;
    XyzRow {
        atom: cell(store, at),
        x: cell(store, at + 1),
        y: cell(store, at + 2),
        z: cell(store, at + 3),
    }
}

// Every atom's position in the table, by the first rows of the store; the floats beyond stay. A table shorter than 1,024 is untouched.
pub fn fill(positions: &mut [f64], factor: Factor, rows: usize, store: &[i32])
    ensures { positions.new ≡ fronted (scaled_table (factor_of factor) (rows_in rows store.now)) positions.old }
{
    if positions.len() < Positions::SIZE {
        return;
    }
    clear(positions);
    for index in 0..rows.min(store.len() / WIDTH) {
        let row = row_at(store, index);
        place(positions, row.atom, Some(row_position(factor, row)));
    }
}
