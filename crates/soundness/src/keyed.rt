// Lists that stand by their atoms, bonds, centres and pairs: document 01, "The structure table" ("Bonds, centres and pairs ascend by their atoms."). One test of
// a record for the three; what a record of each has is its shape, a constant where the test is called: the test is laid out at each call, so that no question about
// the shape is left in the loop.
ghost use Rattle.std.specs.Prelude.{◌≡◌, true, ◌+◌, ◌*◌, ◌≤◌, drop, get_or, pos};
ghost use Rattle.format.specs.Table.{cell as cell_of};
ghost use Rattle.soundness.specs.Sounding.{group_fine, mark_fine, atoms_key, record_key, records_fine, list_fine};

use crate::header::Headed;
use crate::parts::all_zero;
use crate::shapes::Shape;
use cells::{cell, ranges};
use format::Table;

// A key is the lower atom times this, plus the higher one.
const KEY: u32 = 1024;

// "group `0`, A to Z or a to z": 0, or its letter's byte.
#[tactic(auto, unfolding(crate::specs::Sounding::group_fine))]
fn group_fine(numbers: &[i32], at: usize) -> bool
    ensures { result ≡ group_fine true (get_or numbers.now at (pos 0)) }
{
    ranges(numbers, at, 0, 0)
        || ranges(numbers, at, u32::from(b'A'), u32::from(b'Z'))
        || ranges(numbers, at, u32::from(b'a'), u32::from(b'z'))
}

// The value that stands behind the members, and the group behind it.
#[tactic(auto, using(crate::proofs::TestLaws::mark_is))]
#[inline(always)]
fn mark_fine(numbers: &[i32], shape: Shape) -> bool
    ensures { result ≡ mark_fine shape.low shape.high shape.grouped (drop shape.members numbers.now) }
{
    let value = shape.members;
    ranges(numbers, value, shape.low, shape.high)
        && (!shape.grouped || group_fine(numbers, value + 1))
}

// The atoms that stand first as one number, the lower one first: 0 where one is not listed, or where the second does not follow the first.
#[tactic(auto, using(crate::proofs::TestLaws::key_out, crate::proofs::TestLaws::key_one, crate::proofs::TestLaws::key_astray, crate::proofs::TestLaws::key_two, crate::proofs::TestLaws::listed_small))]
#[inline(always)]
fn atoms_key(numbers: &[i32], paired: bool, atoms: u16) -> u32
    ensures { result ≡ atoms_key paired atoms numbers.now }
{
    let atoms = u32::from(atoms);
    if !ranges(numbers, 0, 1, atoms) {
        return 0;
    }
    let lower = cell(numbers, 0);
    if !paired {
        return KEY * lower;
    }
    if !ranges(numbers, 1, lower + 1, atoms) {
        return 0;
    }
    KEY * lower + cell(numbers, 1)
}

// The key of the record that stands first, 0 where something in it is not fine: no key of listed atoms is 0.
// No Option: the definition's keys are numbers too, and the loop asks one question of each, whether it is above the last, which answers this as well.
#[tactic(auto, using(crate::proofs::TestLaws::record_out, crate::proofs::TestLaws::record_in))]
#[inline(always)]
fn record_key(numbers: &[i32], shape: Shape, atoms: u16) -> u32
    ensures { result ≡ record_key shape.members shape.low shape.high shape.grouped atoms numbers.now }
{
    if !mark_fine(numbers, shape) {
        return 0;
    }
    atoms_key(numbers, 1 < shape.members, atoms)
}

// Whether the keys of so many records ascend from 0, so that each record is fine and no two have the same atoms.
#[inline(always)]
fn records_fine(table: &[i32; Table::SIZE], list: Shape, atoms: u16, rows: usize) -> bool
    requires { list.first + list.width * rows ≤ list.end }
    ensures { result ≡ records_fine list.members list.low list.high list.grouped list.width atoms rows (drop list.first table.now) }
{
    let mut last = 0;
    for i in 0..rows {
        let at = list.first + list.width * i;
        let key = record_key(&table[at..], list, atoms);
        if key <= last {
            return false;
        }
        last = key;
    }
    true
}

// Whether a list's region is fine: the records, and 0 behind the last.
#[inline(always)]
pub fn list_fine(headed: Headed<'_>, list: Shape) -> bool
    requires { list.first + list.width * cell_of headed.table.now list.count ≤ list.end }
    ensures { result ≡ list_fine list headed.entry.table.now }
{
    let table = headed.table;
    let atoms = cell(table, Table::ATOM_COUNT) as u16;
    let rows = cell(table, list.count) as usize;
    let from = list.first + list.width * rows;
    records_fine(table, list, atoms, rows) && all_zero(&table[from..list.end])
}
