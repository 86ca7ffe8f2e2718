// The formula's entries, gathered in one pass over the atoms of a table: document 01, "The one written form", and document 02, L1 ("one fragment for each group of
// atoms"). Each kind of atom has a key that orders it as the formula does, groups first; a group's implied hydrogens are summed beside while its atoms follow one
// another and counted when they end, "as hydrogen without mass".
#![tactic(auto)]

ghost use Rattle.std.specs.Prelude.{◌≡◌, ℕ, ◌<◌, ◌≤◌, None, [], length, drop, IsSome};
ghost use Rattle.tally.specs.Ranks.{key_if};
ghost use Rattle.tally.specs.Gathering.{Gathers, GathersAtoms, atom_no};

pub mod elements; // elements.rt: elements by their rank
pub mod entries; // entries.rt: entries by ascending key
mod ranks; // ranks.rt: the tables of elements in the formula's order

use cells::{cell, count_at};
use elements::{MASSES, key_of};
use entries::Tally;
use format::Table;

// How many entries there are at most: one for each atom, and one for the implied hydrogens of its group.
pub const ENTRIES: usize = 2 * Table::ATOMS;

// A key is its group's number times this, plus that of the element and its mass: more than any of those, so that keys tell groups apart.
pub const GROUPS: u32 = 65536;

// How many ranks a key may have: those below GROUPS / MASSES.
const RANKS: usize = 128;

// How many implied hydrogens an atom of a sound table has at most.
const HYDROGENS: u32 = 15;

// The key of the atom with this index; none where no atom of a sound table is of its kind.
fn key_at(table: &[i32], index: usize) -> Option<u32>
    requires { index < 256 }
    ensures { result ≡ key_if (atom_no table.now index).kind }
{
    let place = Table::atom(index);
    key_of(cell(table, place), cell(table, place + 1))
}

// Its implied hydrogens.
fn implied_at(table: &[i32], index: usize) -> u32
    requires { index < 256 }
    ensures { result ≡ (atom_no table.now index).hydrogens }
{
    cell(table, Table::atom(index) + 2)
}

// As many atoms as there are labels, in the table's front that has them, into a tally without entries. A group's implied hydrogens are summed until another group
// starts. Where an element was put last is remembered for each rank and looked at first: it is there again but for a few atoms of a block. An atom that no sound
// table has ends the pass with none.
fn gather_atoms(front: &[i32], labels: &[u8], tally: &mut Tally) -> Option<()>
    requires { (length labels.now ≤ 256) × (tally.old ≡ []) }
    ensures within { length tally.new ≤ 512 }
    ensures holds { IsSome result → GathersAtoms (drop 16 front.now) labels.now tally.new }
    ensures none { result ≡ None → GathersAtoms (drop 16 front.now) labels.now [] }
{
    let mut likely = [0u16; RANKS];
    let mut group = 0;
    let mut hydrogens = 0;
    for (i, &label) in labels.iter().enumerate() {
        let own = key_at(front, i)?;
        let more = implied_at(front, i);
        if HYDROGENS < more {
            return None;
        }
        if label != group {
            tally.close_group(group, hydrogens);
            (group, hydrogens) = (label, 0);
        }
        hydrogens += more;
        let key = GROUPS * u32::from(group) + own;
        let rank = (own / MASSES) as usize;
        let place = tally.find(usize::from(likely[rank]), key);
        likely[rank] = place as u16;
        tally.add(place, key, 1);
    }
    tally.close_group(group, hydrogens);
    Some(())
}

// The front of a table, up to where its atoms end, as far as the table goes: beyond either's end stands 0.
fn front_of(table: &[i32]) -> &[i32]
    ensures { (i : ℕ) → i < 256 → atom_no result.now i ≡ atom_no table.now i }
{
    let end = table.len().min(Table::FIRST_BOND);
    &table[..end]
}

// The formula's entries, fragment by fragment, each in the formula's order: "C, H, then by symbol, a shorter symbol before its extension; no mass before ascending
// masses". What the tally held is forgotten. An atom that no sound table has, or too few labels, leave it without entries.
pub fn gather(table: &[i32], labels: &[u8], tally: &mut Tally)
    ensures within { length tally.new ≤ 512 }
    ensures holds { Gathers table.now labels.now tally.new }
{
    tally.clear();
    let atoms = count_at(table, Table::ATOM_COUNT, Table::ATOMS);
    if labels.len() < atoms {
        return;
    }
    if gather_atoms(front_of(table), &labels[..atoms], tally).is_none() {
        tally.clear();
    }
}
