// Whether a table's numbers are sound, region by region: document 01, "Refusal numbers" ("no atom, or a count, range, order, clash or zero rule broken"). The counts are
// tested first, so that nothing is found by a number that was not.
ghost use Rattle.std.specs.Prelude.{◌≡◌, true};
ghost use Rattle.format.specs.Table.{sound_numbers};
ghost use Rattle.soundness.specs.Sounding.{atoms_fine, lists_fine};

use crate::atoms::atoms_fine;
use crate::header::Headed;
use crate::keyed::list_fine;
use crate::shapes::Shape;
use crate::spread::{Spread, spread_fine};
use format::Table;

// Whether each list's region is fine.
#[tactic(auto, unfolding(crate::specs::Sounding::lists_fine, crate::specs::Sounding::bonds_fine, crate::specs::Sounding::charges_fine, crate::specs::Sounding::radicals_fine, crate::specs::Sounding::centres_fine, crate::specs::Sounding::pairs_fine))]
fn lists_fine(headed: Headed<'_>) -> bool
    requires { atoms_fine 103 headed.table.now ≡ true }
    ensures { result ≡ lists_fine headed.entry.table.now }
{
    list_fine(headed, Shape::BONDS)
        && spread_fine(headed, Spread::CHARGES)
        && spread_fine(headed, Spread::RADICALS)
        && list_fine(headed, Shape::CENTRES)
        && list_fine(headed, Shape::PAIRS)
}

// Whether the table is that of a well-formed structure.
#[tactic(auto, using(crate::proofs::RegionTests::numbers_is))]
pub fn numbers_sound(table: &[i32; Table::SIZE]) -> bool
    ensures { result ≡ sound_numbers 103 table.now }
{
    match Headed::of(table) {
        Some(headed) => atoms_fine(headed) && lists_fine(headed),
        None => false,
    }
}
