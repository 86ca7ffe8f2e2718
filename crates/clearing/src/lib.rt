// Zeros in a lent table: document 01, "The structure table" ("unused ones are 0"), "Refusal numbers" ("Refusals 2 to 17 zero the 3,856 numbers").
#![tactic(auto)]

ghost use Rattle.std.specs.Prelude.{◌≡◌, ◌++◌, ◌≤◌, ◌<◌, length, drop};
ghost use Rattle.format.specs.Table.{zeros};

use format::Table;

// Beside `coordinates::table::clear`, which does the same to floats: one function for both would ask its callers for laws of copying, and none that another crate calls may.
// "zero the 3,856 numbers"; those beyond stay. A table shorter than that is untouched.
pub fn clear(table: &mut [i32])
    ensures { (length table.old < 3856 → table.new ≡ table.old) × (3856 ≤ length table.old → table.new ≡ zeros 3856 ++ drop 3856 table.old) }
{
    if let Some(front) = table.first_chunk_mut::<{ Table::SIZE }>() {
        front.fill(0);
    }
}
