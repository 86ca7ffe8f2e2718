// The order of charge and radical rows, by the row numbers that the atoms' records hold: document 01, "The structure table" ("Charge and radical rows ascend by
// lowest atom, the row without atoms last.") and "Rows" ("In each list an atom stands once, and one row at most has no atoms").
ghost use Rattle.std.specs.Prelude.{◌≡◌, ◌<◌, ◌≤◌, true, leb};
ghost use Rattle.lists.specs.Lists.{all};
ghost use Rattle.soundness.specs.Numbered.{column_of, in_turn};

use cells::cell;
use format::Table;

// Whether the rows that the atoms' records name at `column` (3 charges, 4 radicals) come in turn, atom by atom, and are all the rows there are, or all but the last.
// The records name no row beyond the last, so that without rows there is nothing to look at: most tables have none.
pub fn rows_in_order(table: &[i32; Table::SIZE], column: usize, atoms: usize, rows: usize) -> bool
    requires { (column < 5) × (atoms ≤ 256) × (all (λ i. leb i rows) (column_of column atoms table.now) ≡ true) }
    ensures { result ≡ in_turn 0 rows (column_of column atoms table.now) }
{
    if rows == 0 {
        return true;
    }
    let mut met = 0;
    for i in 0..atoms {
        let row = cell(table, Table::atom(i) + column) as usize;
        if met + 1 < row {
            return false;
        }
        met = met.max(row);
    }
    rows == met || rows == met + 1
}
