// Charge and radical rows: document 01, "The structure table" ("64 charge values, 64 radical values"; "Charge and radical rows ascend by lowest atom, the row without
// atoms last.").
ghost use Rattle.std.specs.Prelude.{◌≡◌, true, ◌+◌, ◌<◌, ◌≤◌};
ghost use Rattle.format.specs.Table.{cell as cell_of};
ghost use Rattle.soundness.specs.Sounding.{spread_fine};
ghost use Rattle.soundness.specs.Numbered.{column_of, up_to};

use crate::header::Headed;
use crate::numbered::rows_in_order;
use crate::parts::{all_zero, values_fine};
use cells::cell;
use format::Table;

// A list of values: where its rows are counted, where the first stands and where the region ends, which number of an atom's record names a row, and whether a value may be below zero.
#[derive(Clone, Copy)]
pub struct Spread {
    pub count: usize,
    pub first: usize,
    pub end: usize,
    pub column: usize,
    // a constant where the test is called, as a list's shape is
    pub signed: bool,
}

impl Spread {
    pub const CHARGES: Spread = Spread {
        count: Table::CHARGE_COUNT,
        first: Table::FIRST_CHARGE,
        end: Table::FIRST_RADICAL,
        column: 3,
        signed: true,
    };

    pub const RADICALS: Spread = Spread {
        count: Table::RADICAL_COUNT,
        first: Table::FIRST_RADICAL,
        end: Table::FIRST_CENTRE,
        column: 4,
        signed: false,
    };
}

// Whether a list's values are fine, 0 from behind the last to the region's end, and the order of its rows.
pub fn spread_fine(headed: Headed<'_>, list: Spread) -> bool
    requires { (list.first + 64 ≡ list.end) × (list.end ≤ 3856) × (list.column < 5) × (cell_of headed.table.now list.count ≤ 64) × (up_to (cell_of headed.table.now list.count) (column_of list.column (cell_of headed.table.now 0) headed.table.now) ≡ true) }
    ensures { result ≡ spread_fine list.signed list.count list.first list.column headed.entry.table.now }
{
    let table = headed.table;
    let atoms = cell(table, Table::ATOM_COUNT) as usize;
    let rows = cell(table, list.count) as usize;
    let from = list.first + rows;
    values_fine(&table[list.first..from], list.signed)
        && all_zero(&table[from..list.end])
        && rows_in_order(table, list.column, atoms, rows)
}
