// Whether a table is sound: document 01, "Refusal numbers" ("21, the table isn't sound (no atom, or a count, range, order, clash or zero rule broken, or a text out of
// bounds, untrimmed, with a byte not allowed, or with `##` right after a line feed)").
#![tactic(auto)]

ghost use Rattle.std.specs.Prelude.{◌≡◌, ◌&&◌, length, leb};
ghost use Rattle.format.specs.Table.{sound};

use format::Table;
use texts::texts_fine;

mod atoms; // atoms.rt: the atoms' records
mod header; // header.rt: the counts, the texts' places, handed as a whole, the zeros behind; a table that has them
mod keyed; // keyed.rt: bonds, centres and pairs
mod numbered; // numbered.rt: the order of charge and radical rows
mod numbers; // numbers.rt: all regions
mod parts; // parts.rt: every number of a part
mod shapes; // shapes.rt: what a record of a bond, a centre, a pair has
mod spread; // spread.rt: charges and radicals

// Whether the table is sound with the bytes that its texts stand in. One shorter than 3,856 numbers is not.
pub fn is_sound(table: &[i32], bytes: &[u8]) -> bool
    ensures { result ≡ leb 3856 (length table.now) && sound 103 table.now bytes.now }
{
    match table.first_chunk::<{ Table::SIZE }>() {
        Some(numbers) => numbers::numbers_sound(numbers) && texts_fine(table, bytes),
        None => false,
    }
}
