// The atoms' records and the values of charge and radical rows: document 01, "The structure table". Rows were numbered as they came; `order` has, for each such
// number, the row's number in the sorted list (0 for none).
ghost use Rattle.std.specs.Prelude.{◌≡◌, ◌≤◌, ◌<◌, length};
ghost use Rattle.filling.specs.Filled.{copied, value_of, value_out, number_in, atoms_out, FilledWhere};

use format::Table;
use sorted::scratch::Scratch;

// How many numbers of the table the atoms' records take, and the values of charge rows. Those of radical rows take as many and stand alike, one behind the other.
const ATOMS: usize = Table::FIRST_BOND - Table::FIRST_ATOM;

const VALUES: usize = Table::FIRST_RADICAL - Table::FIRST_CHARGE;

// What a value's code has more than the value.
const CODED: i64 = 100;

// A value, from its code; 0 for one that the table cannot hold.
#[tactic(auto, unfolding(crate::specs::Filled::value_of, crate::specs::Filled::signed_of))]
fn value(code: u32) -> i32
    ensures { result ≡ value_of code }
{
    i32::try_from(i64::from(code) - CODED).unwrap_or(0)
}

// "64 charge values, 64 radical values": the values in the order of the sorted rows.
pub fn fill_values(part: &mut [i32], values: &[u32], count: usize)
    ensures { FilledWhere ((length part.old ≡ 64) × (length values.now ≡ 64) × (count ≤ 64)) part.old part.new (copied 1 value_out 64 count values.now) }
{
    if part.len() != VALUES || values.len() != Table::CHARGES || Table::CHARGES < count {
        return;
    }
    part.fill(0);
    for i in 0..count {
        part[i] = value(values[i]);
    }
}

// The number that a row has in the sorted list; 0 for none.
fn number_in(members: &[u32], order: &[u32], i: usize) -> u32
    requires { i < length members.now }
    ensures { result ≡ number_in members.now order.now i }
{
    order.get(members[i] as usize).copied().unwrap_or(0)
}

// "256 atoms: element, mass (0 none), implied hydrogens, charge row, radical row (from 1; 0 none)".
pub fn fill_atoms(
    part: &mut [i32],
    kinds: &[u32],
    charges: &[u32],
    charge_order: &[u32],
    radicals: &[u32],
    radical_order: &[u32],
    count: usize,
)
    ensures { FilledWhere ((length part.old ≡ 1280) × (length kinds.now ≡ 768) × (256 ≤ length charges.now) × (256 ≤ length radicals.now) × (count ≤ 256)) part.old part.new (atoms_out kinds.now charges.now charge_order.now radicals.now radical_order.now count) }
{
    if part.len() != ATOMS
        || kinds.len() != Scratch::KINDS
        || charges.len() < Table::ATOMS
        || radicals.len() < Table::ATOMS
        || Table::ATOMS < count
    {
        return;
    }
    part.fill(0);
    for i in 0..count {
        let charge = number_in(charges, charge_order, i);
        let radical = number_in(radicals, radical_order, i);
        let record = [
            kinds[3 * i],
            kinds[3 * i + 1],
            kinds[3 * i + 2],
            charge,
            radical,
        ];
        crate::put_all(part, Table::atom(i) - Table::FIRST_ATOM, &record);
    }
}
