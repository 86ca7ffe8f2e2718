// The table's first sixteen numbers: document 01, "The structure table" ("atoms, bonds, charge rows, radical rows, centres, pairs, block id"; "13 to 15 are 0"), and
// document 02, L4 ("A sound table with 13 set has no centres and no pairs.").
ghost use Rattle.std.specs.Prelude.{◌≡◌, true, false};
ghost use Rattle.std.specs.Option.{MatchOption};
ghost use Rattle.soundness.specs.Sounding.{counts_fine, handed_fine, header_fine};

use crate::parts::{all_zero, none_negative};
use cells::{cell, ranges};
use format::Table;

// Where the two unused numbers behind the one that says handed start.
const FIRST_UNUSED: usize = Table::HANDED + 1;

// The highest number of a block.
const LAST_ID: u32 = 999999;

// Whether each count is within its list's limit: one atom at least, the id "0 none" to 999,999.
#[tactic(auto, unfolding(crate::specs::Sounding::counts_fine))]
fn counts_fine(table: &[i32; Table::SIZE]) -> bool
    ensures { result ≡ counts_fine table.now }
{
    ranges(table, Table::ATOM_COUNT, 1, Table::ATOMS as u32)
        && ranges(table, Table::BOND_COUNT, 0, Table::BONDS as u32)
        && ranges(table, Table::CHARGE_COUNT, 0, Table::CHARGES as u32)
        && ranges(table, Table::RADICAL_COUNT, 0, Table::RADICALS as u32)
        && ranges(table, Table::CENTRE_COUNT, 0, Table::CENTRES as u32)
        && ranges(table, Table::PAIR_COUNT, 0, Table::PAIRS as u32)
        && ranges(table, Table::BLOCK_ID, 0, LAST_ID)
}

// Whether the molecule is not handed as a whole, or is so and has neither a centre nor a pair.
#[tactic(auto, unfolding(crate::specs::Sounding::handed_fine))]
fn handed_fine(table: &[i32; Table::SIZE]) -> bool
    ensures { result ≡ handed_fine table.now }
{
    ranges(table, Table::HANDED, 0, 0)
        || ranges(table, Table::HANDED, 1, 1)
            && cell(table, Table::CENTRE_COUNT) == 0
            && cell(table, Table::PAIR_COUNT) == 0
}

// Whether the counts, the texts' places and lengths, the number that says handed, and the two zeros behind it are fine.
#[tactic(auto, unfolding(crate::specs::Sounding::header_fine, crate::specs::Sounding::places_fine))]
fn header_fine(table: &[i32; Table::SIZE]) -> bool
    ensures { result ≡ header_fine table.now }
{
    counts_fine(table)
        && none_negative(&table[Table::FIRST_TEXT..Table::HANDED])
        && handed_fine(table)
        && all_zero(&table[FIRST_UNUSED..Table::FIRST_ATOM])
}

// A table whose header is fine, so that each count is within its list's limit.
#[derive(Clone, Copy)]
pub struct Headed<'a> {
    pub table: &'a [i32; Table::SIZE],

    ghost fine: { header_fine table.now ≡ true },
}

impl<'a> Headed<'a> {
    // The table, where its header is fine.
    pub fn of(table: &'a [i32; Table::SIZE]) -> Option<Headed<'a>>
        ensures { MatchOption result (header_fine table.now ≡ false) (λ h. h.table.now ≡ table.now) }
    {
        if header_fine(table) {
            return Some(Headed { table });
        }
        None
    }
}
