// Rows of XYZ kept as whole numbers until the factor is known: document 02, L2 ("in any order with the other shell labels": XYZ_FACTOR may stand after XYZ). The
// store is lent; four numbers a row, its atom and its three numbers, each 1,000,000 above.
ghost use Rattle.std.specs.Prelude.{◌≡◌};
ghost use Rattle.coordinates.specs.KeptRows.{has_row, modest, kept};

use format::Table;
use rows::xyz::{LIFT, XyzRow};

// How many numbers a row takes.
pub(crate) const WIDTH: usize = 4;

// Room for a row of every atom.
pub const ROOM: usize = WIDTH * Table::ATOMS;

// No row has a higher number: six digits and 1,000,000 above.
const MOST: u32 = 2 * LIFT;

// Whether a store of so many numbers has room for the whole row.
fn has_row(length: usize, index: usize) -> bool
    ensures { result ≡ has_row length index }
{
    index < length / WIDTH
}

// Whether a row can have these numbers.
fn is_modest(row: XyzRow) -> bool
    ensures { result ≡ modest row }
{
    row.atom.max(row.x).max(row.y.max(row.z)) <= MOST
}

// A row's numbers in their place; where the store has no room for them, or no row can have them, nothing is touched.
pub fn keep(store: &mut [i32], index: usize, row: XyzRow)
    ensures { store.new ≡ kept store.old index row }
{
    if !has_row(store.len(), index) || !is_modest(row) {
        return;
    }
    let at = WIDTH * index;
    let cells = [row.atom as i32, row.x as i32, row.y as i32, row.z as i32];
    store[at..at + WIDTH].copy_from_slice(&cells);
}
