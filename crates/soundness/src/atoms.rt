// The atoms' records: document 01, "The structure table" ("element, mass (0 none), implied hydrogens, charge row, radical row (from 1; 0 none)").
ghost use Rattle.std.specs.Prelude.{◌≡◌, ◌≤◌, drop};
ghost use Rattle.lists.specs.Lists.{all, rows_from};
ghost use Rattle.soundness.specs.Sounding.{atom_fine, atoms_fine};

use crate::header::Headed;
use crate::parts::all_zero;
use cells::{cell, ranges};
use format::Table;

// How many elements there are; the highest mass, and the most hydrogens.
const ELEMENTS: u32 = 103;

const HIGHEST_MASS: u32 = 300;

const MOST_HYDROGENS: u32 = 15;

// Whether each number of the record that stands first is in its range.
#[tactic(auto, unfolding(crate::specs::Sounding::atom_fine))]
fn atom_fine(numbers: &[i32], charges: u32, radicals: u32) -> bool
    ensures { result ≡ atom_fine 103 charges radicals numbers.now }
{
    ranges(numbers, 0, 1, ELEMENTS)
        && ranges(numbers, 1, 0, HIGHEST_MASS)
        && ranges(numbers, 2, 0, MOST_HYDROGENS)
        && ranges(numbers, 3, 0, charges)
        && ranges(numbers, 4, 0, radicals)
}

// Whether each atom's record is fine.
#[tactic(auto, using(format::proofs::PlaceLaws::atom_small))]
fn each_atom_fine(table: &[i32; Table::SIZE], atoms: usize, charges: u32, radicals: u32) -> bool
    requires { atoms ≤ 256 }
    ensures { result ≡ all (λ b. b) (rows_from 5 (atom_fine 103 charges radicals) atoms (drop 16 table.now)) }
{
    for i in 0..atoms {
        if !atom_fine(&table[Table::atom(i)..], charges, radicals) {
            return false;
        }
    }
    true
}

// Whether the atoms' region is fine: the records, and 0 behind the last.
pub fn atoms_fine(headed: Headed<'_>) -> bool
    ensures { result ≡ atoms_fine 103 headed.entry.table.now }
{
    let table = headed.table;
    let atoms = cell(table, Table::ATOM_COUNT) as usize;
    let charges = cell(table, Table::CHARGE_COUNT);
    let radicals = cell(table, Table::RADICAL_COUNT);
    let from = Table::FIRST_BOND.min(Table::atom(atoms));
    each_atom_fine(table, atoms, charges, radicals) && all_zero(&table[from..Table::FIRST_BOND])
}
