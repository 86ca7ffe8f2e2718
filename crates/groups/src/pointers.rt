// Each atom points, by index, to an atom of its group that is not higher, the lowest to itself: document 02, L1, "each group of atoms joined by S, D, T or Q bonds". A
// bond that joins makes one lowest atom point to the other. Paths are halved as they are followed, so that the work stays near to one step a bond.
// Each function asks for `Pointing`: a struct that kept it would hold the caller's labels by `&mut`, and each contract would need a lender's clause to give them back.
ghost use Rattle.std.specs.Prelude.{◌≡◌, List, map, ℕ, suc, ◌≤◌, ◌<◌, length, drop};
ghost use Rattle.lists.specs.Lists.{count_up, rows_from};
ghost use Rattle.format.specs.Table.{bond_at};
ghost use Rattle.groups.specs.Pointers.{Pointing, Leads, Changed, Found, Joins};
ghost use Rattle.groups.specs.Grouping.{JoinsBond, JoinsAll};

use crate::LAST_JOINING;
use cells::cell;
use format::Table;

// The lowest atom of an atom's group; each atom on the way points one further than before.
fn lowest_of(pointers: &mut [u8], atom: usize) -> usize
    requires { Pointing pointers.old × (atom < length pointers.old) }
    ensures { Found pointers.old atom pointers.new result }
{
    let mut at = atom;
    let mut up = usize::from(pointers[at]);
    while up < at {
        let over = pointers[up];
        pointers[at] = over;
        at = usize::from(over);
        up = usize::from(pointers[at]);
    }
    at
}

// Two atoms are of one group from here on: of the lowest atoms of theirs, the higher points to the lower.
fn join(pointers: &mut [u8], first: usize, second: usize)
    requires { Pointing pointers.old × (first < length pointers.old) × (second < length pointers.old) × (length pointers.old ≤ 256) }
    ensures { Joins pointers.old first second pointers.new }
{
    let a = lowest_of(pointers, first);
    let b = lowest_of(pointers, second);
    if a < b {
        pointers[b] = a as u8;
    } else if b < a {
        pointers[a] = b as u8;
    }
}

// A bond of the table, from its first number on, if it joins; one that names no atom does not.
fn join_bond(table: &[i32], place: usize, pointers: &mut [u8])
    requires { Pointing pointers.old × (length pointers.old ≤ 256) × (place ≤ 3856) }
    ensures { JoinsBond pointers.old (bond_at (drop place table.now)) pointers.new }
{
    let kind = cell(table, place + 2);
    if kind < 1 || LAST_JOINING < kind {
        return;
    }
    let atoms = pointers.len();
    let first = cell(table, place) as usize;
    let second = cell(table, place + 1) as usize;
    if first < 1 || atoms < first || second < 1 || atoms < second {
        return;
    }
    join(pointers, first - 1, second - 1);
}

// Each atom by itself.
pub fn stand_alone(pointers: &mut [u8])
    requires { length pointers.old ≤ 256 }
    ensures { pointers.new ≡ count_up 0 (length pointers.old) }
{
    for (i, pointer) in pointers.iter_mut().enumerate() {
        *pointer = i as u8;
    }
}

// The first so many bonds of the table, the last one first.
pub fn join_bonds(table: &[i32], bonds: usize, pointers: &mut [u8])
    requires { Pointing pointers.old × (length pointers.old ≤ 256) × (bonds ≤ 512) × (pointers.old ≡ count_up 0 (length pointers.old)) }
    ensures { JoinsAll pointers.old (rows_from 3 bond_at bonds (drop 1296 table.now)) pointers.new }
{
    for i in (0..bonds).rev() {
        join_bond(table, Table::bond(i), pointers);
    }
}

// Each atom points to the lowest of its group.
pub fn settle(pointers: &mut [u8])
    requires { Pointing pointers.old }
    ensures { Changed pointers.old pointers.new × ((ls : List ℕ) → Leads ls pointers.old → map suc pointers.new ≡ ls) }
{
    for i in 0..pointers.len() {
        let up = usize::from(pointers[i]);
        pointers[i] = pointers[up];
    }
}
