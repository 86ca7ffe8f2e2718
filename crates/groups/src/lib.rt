// The lowest atom of each atom's group: document 02, L1, "each group of atoms joined by S, D, T or Q bonds, `A` not counting". No fragment is written here.
#![tactic(auto)]

ghost use Rattle.std.specs.Prelude.{◌≡◌, ◌≤◌, ◌<◌, length, drop};
ghost use Rattle.lists.specs.Lists.{rows_from};
ghost use Rattle.format.specs.Table.{bond_at};
ghost use Rattle.groups.specs.Grouping.{LowestAtoms, GroupsOf};

use crate::marks::is_one_group;
use crate::pointers::{join_bonds, settle, stand_alone};
use cells::count_at;
use format::Table;

mod marks; // marks.rt: whether all atoms are of one group
mod pointers; // pointers.rt: the lowest atom of each group, where there are several

// A kind is a number, as it stands in the table.
// The highest kind that joins, Q: "`A` not counting".
const LAST_JOINING: u32 = 4;

// For each atom the lowest of its group, by the first so many bonds of the table.
fn lowest_atoms(table: &[i32], bonds: usize, labels: &mut [u8])
    requires { (length labels.old ≤ 256) × (bonds ≤ 512) }
    ensures { LowestAtoms (length labels.old) (rows_from 3 bond_at bonds (drop 1296 table.now)) labels.new }
{
    if is_one_group(table, bonds, labels) {
        return;
    }
    stand_alone(labels);
    join_bonds(table, bonds, labels);
    settle(labels);
}

// The groups of a table's atoms: for each the index of its group's lowest atom, at the front of 256 labels that are lent; those behind the atoms stay. Answers how
// many atoms there are; where fewer labels are lent it answers 0, and they stay.
pub fn group_atoms(table: &[i32], labels: &mut [u8]) -> usize
    ensures few { length labels.old < 256 → (result ≡ 0) × (labels.new ≡ labels.old) }
    ensures grouped { 256 ≤ length labels.old → GroupsOf table.now labels.old result labels.new }
{
    if labels.len() < Table::ATOMS {
        return 0;
    }
    let atoms = count_at(table, Table::ATOM_COUNT, Table::ATOMS);
    let bonds = count_at(table, Table::BOND_COUNT, Table::BONDS);
    lowest_atoms(table, bonds, &mut labels[0..atoms]);
    atoms
}
