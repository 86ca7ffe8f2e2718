// Whether all atoms are of one group, as in most blocks: document 02, L1. An atom is marked where a bond joins it to a lower one; where every atom but the first is
// marked, which is told by their count, each leads down to the first, and no path need be followed.
ghost use Rattle.std.specs.Prelude.{◌≡◌, ◌+◌, ◌*◌, ◌≤◌, length, get_or, drop, pos};
ghost use Rattle.lists.specs.Lists.{share, rows_from};
ghost use Rattle.format.specs.Table.{bond_at};
ghost use Rattle.groups.specs.Marks.{marked_by, marked, ones, OneGroup};

use crate::LAST_JOINING;
use format::Table;

// How many numbers a bond has.
const WIDTH: usize = 3;

// The higher atom of a bond, which is its second number, if the bond joins. The first atom has none below it. Answers whether it was not marked before.
fn mark_bond(rows: &[i32], place: usize, marks: &mut [u8]) -> bool
    requires { place + 3 ≤ length rows.now }
    ensures { (marks.new ≡ marked_by (get_or rows.now (place + 1) (pos 0)) (get_or rows.now (place + 2) (pos 0)) marks.old) × (ones marks.new ≡ share result 1 + ones marks.old) }
{
    let number = rows[place + 2];
    if number < 1 {
        return false;
    }
    let kind = number as u32;
    if LAST_JOINING < kind {
        return false;
    }
    let second = rows[place + 1];
    if second < 2 {
        return false;
    }
    let higher = second as usize;
    if marks.len() < higher {
        return false;
    }
    let before = marks[higher - 1];
    marks[higher - 1] = 1;
    before == 0
}

// The first so many bonds, the last one first. Answers how many atoms more are marked.
fn mark_bonds(rows: &[i32], bonds: usize, marks: &mut [u8]) -> usize
    requires { (3 * bonds ≤ length rows.now) × (bonds ≤ 512) }
    ensures { (marks.new ≡ marked bonds rows.now marks.old) × (ones marks.new ≡ result + ones marks.old) × (result ≤ 512) }
{
    let mut count = 0;
    for i in (0..bonds).rev() {
        count += usize::from(mark_bond(rows, WIDTH * i, marks));
    }
    count
}

// Whether the first so many bonds of the table join all atoms; then each has the first atom's index, 0. A table that is too short is not looked at.
pub fn is_one_group(table: &[i32], bonds: usize, labels: &mut [u8]) -> bool
    requires { bonds ≤ 512 }
    ensures { (length labels.new ≡ length labels.old) × OneGroup (length labels.old) (rows_from 3 bond_at bonds (drop 1296 table.now)) result labels.new }
{
    if table.len() < Table::SIZE {
        return false;
    }
    labels.fill(0);
    let count = mark_bonds(
        &table[Table::FIRST_BOND..Table::FIRST_CHARGE],
        bonds,
        labels,
    );
    if count + 1 < labels.len() {
        return false;
    }
    labels.fill(0);
    true
}
