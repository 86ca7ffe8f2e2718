// What stands in one number of a lent table: document 01, "The structure table" ("3,856 signed 32-bit numbers"). Every function is total: beyond the table's end
// stands 0. No list, no rule of a list; those who judge or write a table read it through these four.
#![tactic(auto)]

ghost use Rattle.std.specs.Prelude.{◌≡◌, ◌≤◌, get_or, pos};
ghost use Rattle.format.specs.Structure.{ranging};
ghost use Rattle.format.specs.Table.{cell as cell_of, count_at};
ghost use Rattle.cells.specs.Signs.{negative};

// Whether the number there is below zero.
#[tactic(auto, unfolding(crate::specs::Signs::negative))]
pub fn is_negative(table: &[i32], at: usize) -> bool
    ensures { result ≡ negative (get_or table.now at (pos 0)) }
{
    table.get(at).is_some_and(|number| *number < 0)
}

// The number there without its sign, which the lowest number of 32 bits has too.
pub fn cell(table: &[i32], at: usize) -> u32
    ensures { result ≡ cell_of table.now at }
{
    table.get(at).map_or(0, |number| number.unsigned_abs())
}

// Whether the number there is none below `low` and none above `high`; a negative one never is.
#[tactic(auto, using(crate::proofs::SignLaws::ranging_is))]
pub fn ranges(table: &[i32], at: usize, low: u32, high: u32) -> bool
    ensures { result ≡ ranging low high (get_or table.now at (pos 0)) }
{
    if is_negative(table, at) {
        return false;
    }
    let number = cell(table, at);
    low <= number && number <= high
}

// A count of the table, cut to what its list holds.
#[tactic(auto, unfolding(format::specs::Table::count_at))]
pub fn count_at(table: &[i32], at: usize, most: usize) -> usize
    ensures { (result ≡ count_at table.now at most) × (result ≤ most) }
{
    most.min(cell(table, at) as usize)
}
