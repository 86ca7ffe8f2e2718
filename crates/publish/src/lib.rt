// An accepted block's structure in the lent table: document 01, "The structure table" ("3,856 signed 32-bit numbers; unused ones are 0"). Every one of the 3,856
// numbers is put there, whatever stood there before; those beyond stay.
#![tactic(auto)]

ghost use Rattle.std.specs.Prelude.{◌≡◌, ◌++◌, [], map, ℕ, ◌≤◌, length, drop};
ghost use Rattle.lists.specs.Lists.{filled};
ghost use Rattle.numbering.specs.Renumbers.{Renumbering};
ghost use Rattle.format.specs.Reading.{State, finished, span_of};
ghost use Rattle.format.specs.Table.{encode};
ghost use Rattle.gather.specs.Progress.{Counted, Bounded, Holding};
ghost use Rattle.publish.specs.Published.{spread_out, marked_out, rows_out, table_out};

use format::Table;
use gather::progress::Progress;
use sorted::scratch::Scratch;

// In the part of charges and radicals: where the radicals start, and how many numbers both have.
const RADICALS_AT: usize = Table::FIRST_RADICAL - Table::FIRST_CHARGE;

const SPREAD: usize = Table::FIRST_CENTRE - Table::FIRST_CHARGE;

// In the part of centres and pairs: where the pairs start, and how many numbers both have.
const PAIRS_AT: usize = Table::FIRST_PAIR - Table::FIRST_CENTRE;

const MARKED: usize = Table::SIZE - Table::FIRST_CENTRE;

// In the part of all five lists: where charges and radicals start, where centres and pairs start, and how many numbers all have.
const SPREAD_AT: usize = Table::FIRST_CHARGE - Table::FIRST_BOND;

const MARKED_AT: usize = Table::FIRST_CENTRE - Table::FIRST_BOND;

const ROWS: usize = Table::SIZE - Table::FIRST_BOND;

// How charge or radical rows are numbered: for each number that a row had as it came, its number among the sorted rows, and the sorted rows' values as codes.
#[derive(Drop)]
struct Renumbered {
    order: [u32; Table::CHARGES + 1],
    values: [u32; Table::CHARGES],
}

impl Renumbered {
    // No row is numbered.
    fn nothing() -> Renumbered
        ensures { (result.order ≡ filled 0 65 []) × (result.values ≡ filled 0 64 []) }
    {
        Renumbered {
            order: [0; Table::CHARGES + 1],
            values: [0; Table::CHARGES],
        }
    }

    // The rows of a region of charges or radicals, numbered as the table has them: where they stay, so that no array is copied.
    fn number(&mut self, region: &[u32], atoms: usize, rows: usize)
        ensures { Renumbering region.now atoms rows self.old.order self.old.values self.new.order self.new.values }
    {
        numbering::renumber(region, atoms, rows, &mut self.order, &mut self.values);
    }
}

// The charge values and the radical values, in the order of the sorted rows.
fn fill_spread(part: &mut [i32], p: Progress, charges: &Renumbered, radicals: &Renumbered)
    requires { (length part.old ≡ 128) × Counted p }
    ensures { part.new ≡ spread_out p charges.now.values radicals.now.values }
{
    filling::records::fill_values(&mut part[0..RADICALS_AT], &charges.values, p.charges);
    filling::records::fill_values(&mut part[RADICALS_AT..SPREAD], &radicals.values, p.radicals);
}

// The centres and the pairs.
fn fill_marked(part: &mut [i32], p: Progress, scratch: &[u32; Scratch::SIZE])
    requires { (length part.old ≡ 896) × Counted p }
    ensures { part.new ≡ marked_out p scratch.now }
{
    filling::keyed::fill_centres(
        &mut part[0..PAIRS_AT],
        &scratch[Scratch::FIRST_CENTRE..Scratch::FIRST_PAIR],
        p.centres,
    );
    filling::keyed::fill_pairs(
        &mut part[PAIRS_AT..MARKED],
        &scratch[Scratch::FIRST_PAIR..Scratch::FIRST_LABEL],
        p.pairs,
    );
}

// All five lists of rows.
fn fill_rows(
    part: &mut [i32],
    p: Progress,
    scratch: &[u32; Scratch::SIZE],
    charges: &Renumbered,
    radicals: &Renumbered,
)
    requires { (length part.old ≡ 2560) × Counted p }
    ensures { part.new ≡ rows_out p scratch.now charges.now.values radicals.now.values }
{
    filling::keyed::fill_bonds(
        &mut part[0..SPREAD_AT],
        &scratch[Scratch::FIRST_BOND..Scratch::FIRST_CENTRE],
        p.bonds,
    );
    fill_spread(&mut part[SPREAD_AT..MARKED_AT], p, charges, radicals);
    fill_marked(&mut part[MARKED_AT..ROWS], p, scratch);
}

// The whole table, region by region.
fn fill_table(
    table: &mut [i32],
    block: &[u8],
    p: Progress,
    scratch: &[u32; Scratch::SIZE],
    charges: &Renumbered,
    radicals: &Renumbered,
)
    requires { (3856 ≤ length table.old) × Bounded (length block.now) p × (length block.now ≤ 32768) }
    ensures { table.new ≡ table_out block.now p scratch.now charges.now.order charges.now.values radicals.now.order radicals.now.values ++ drop 3856 table.old }
{
    header::fill_header(&mut table[0..Table::FIRST_ATOM], block, p);
    filling::records::fill_atoms(
        &mut table[Table::FIRST_ATOM..Table::FIRST_BOND],
        &scratch[0..Scratch::FIRST_CHARGE],
        &scratch[Scratch::FIRST_CHARGE..Scratch::FIRST_RADICAL],
        &charges.order,
        &scratch[Scratch::FIRST_RADICAL..Scratch::FIRST_BOND],
        &radicals.order,
        p.atoms,
    );
    fill_rows(
        &mut table[Table::FIRST_BOND..Table::SIZE],
        p,
        scratch,
        charges,
        radicals,
    );
}

// The structure that progress and scratch hold.
fn put_structure(block: &[u8], p: Progress, scratch: &[u32; Scratch::SIZE], table: &mut [i32])
    requires { (3856 ≤ length table.old) × Bounded (length block.now) p × (length block.now ≤ 32768) }
    ensures { (k : ℕ) (st : State) → Holding k block.now p scratch.now st → k ≤ 103 → table.new ≡ encode (finished st.body) (map span_of st.texts) ++ drop 3856 table.old }
{
    let mut charges = Renumbered::nothing();
    charges.number(
        &scratch[Scratch::FIRST_CHARGE..Scratch::FIRST_RADICAL],
        p.atoms,
        p.charges,
    );
    let mut radicals = Renumbered::nothing();
    radicals.number(
        &scratch[Scratch::FIRST_RADICAL..Scratch::FIRST_BOND],
        p.atoms,
        p.radicals,
    );
    fill_table(table, block, p, scratch, &charges, &radicals);
}

// The structure that progress and scratch hold, in the lent table. It is untouched where it is shorter than 3,856, the scratch has another length, the block is too long or
// progress is none that a reading leaves.
pub fn publish(block: &[u8], p: Progress, scratch: &[u32], table: &mut [i32])
    ensures { (((3856 ≤ length table.old) × (length scratch.now ≡ 2973) × (length block.now ≤ 32768) × Bounded (length block.now) p → ⊥) → table.new ≡ table.old) × ((k : ℕ) (st : State) → 3856 ≤ length table.old → length scratch.now ≡ 2973 → length block.now ≤ 32768 → Bounded (length block.now) p →
        Holding k block.now p scratch.now st → k ≤ 103 → table.new ≡ encode (finished st.body) (map span_of st.texts) ++ drop 3856 table.old) }
{
    let Some(scratch) = scratch.as_array() else {
        return;
    };
    if table.len() < Table::SIZE
        || Table::BLOCK < block.len()
        || !header::guard::is_bounded(block.len(), p)
    {
        return;
    }
    put_structure(block, p, scratch, table);
}
