// Charge and radical rows renumbered at END: "Charge and radical rows ascend by lowest atom, the row without atoms last" (document 01, "The structure table"). One pass
// over the atoms: a row gets its number when its first atom is met.
#![tactic(auto)]

ghost use Rattle.std.specs.Prelude.{◌≡◌, Bool, List, [], map, ◌+◌, ◌≤◌, length};
ghost use Rattle.lists.specs.Lists.{filled};
ghost use Rattle.lists.specs.Order.{sort};
ghost use Rattle.format.specs.Rows.{Row};
ghost use Rattle.format.specs.Structure.{row_before};
ghost use Rattle.sorted.specs.Regions.{Fits, spread_region, coded};
ghost use Rattle.spread.specs.Members.{list_of};
ghost use Rattle.numbering.specs.Numbering.{is_new, next_after, order_after, with_void, Renumbered, put_at};
ghost use Rattle.numbering.specs.Renumbers.{Renumbering};

use format::Table;
use sorted::scratch::Scratch;

// 0 is for none in each cell, as in the regions and in the table that they come from and go to.
// How many numbers an order has: rows are numbered from 1 as they come, and 0 stands for no row.
const ORDER: usize = Table::CHARGES + 1;

// The row of an atom gets the next number where it has none; the answer is the number for the next such row.
#[tactic(auto, unfolding(crate::specs::Numbering::is_new))]
fn number_row(row: usize, next: u32, order: &mut [u32]) -> u32
    requires { next ≤ 1000 }
    ensures { (result ≤ next + 1) × (result ≡ next_after (is_new row order.old) next) × (order.new ≡ order_after (is_new row order.old) row next order.old) }
{
    if row == 0 || order.len() <= row || order[row] != 0 {
        return next;
    }
    order[row] = next;
    next + 1
}

// The row without atoms, where there is one, gets the last number.
#[tactic(auto, unfolding(crate::specs::Numbering::with_void))]
fn number_void(void: usize, rows: usize, order: &mut [u32])
    requires { rows ≤ 64 }
    ensures { order.new ≡ with_void void rows order.old }
{
    if 0 < void && void < order.len() {
        order[void] = rows as u32;
    }
}

// For each number that a row has as it came, 1 to `rows`, its number in the sorted list.
fn order_of(region: &[u32], atoms: usize, rows: usize, order: &mut [u32])
    requires { (length region.now ≡ 321) × (length order.old ≡ 65) × (atoms ≤ 256) × (rows ≤ 64) }
    ensures { (s : Bool) (rs : List Row) → length rs ≡ rows → Fits (list_of s) atoms rs → region.now ≡ spread_region rs → order.old ≡ filled 0 65 [] → Renumbered rs order.new }
{
    let mut next = 1;
    let members = &region[..atoms];
    for member in members {
        next = number_row(*member as usize, next, order);
    }
    number_void(region[Scratch::WITHOUT_ATOMS] as usize, rows, order);
}

// A value is put to the place that a number from 1 says.
#[tactic(auto, unfolding(crate::specs::Numbering::put_at))]
fn put_at(values: &mut [u32], place: usize, value: u32)
    ensures { values.new ≡ put_at place value values.old }
{
    if 0 < place && place <= values.len() {
        values[place - 1] = value;
    }
}

// The values of the rows, each as value + 100, in the order of the sorted rows.
fn sorted_values(region: &[u32], order: &[u32], rows: usize, values: &mut [u32])
    requires { (length region.now ≡ 321) × (length order.now ≡ 65) × (length values.old ≡ 64) × (rows ≤ 64) }
    ensures { (rs : List Row) → length rs ≡ rows → region.now ≡ spread_region rs → Renumbered rs order.now → values.old ≡ filled 0 64 [] → values.new ≡ filled 0 64 (map (λ r. coded r.value) (sort row_before rs)) }
{
    for i in 0..rows {
        put_at(values, order[i + 1] as usize, region[Table::ATOMS + i]);
    }
}

// The numbers and values of charge or radical rows in their sorted order, for tables of zeros.
pub fn renumber(region: &[u32], atoms: usize, rows: usize, order: &mut [u32], values: &mut [u32])
    ensures { Renumbering region.now atoms rows order.old values.old order.new values.new }
{
    if region.len() != Scratch::SPREAD
        || order.len() != ORDER
        || values.len() != Table::CHARGES
        || Table::ATOMS < atoms
        || Table::CHARGES < rows
    {
        return;
    }
    order_of(region, atoms, rows, order);
    sorted_values(region, order, rows, values);
}
