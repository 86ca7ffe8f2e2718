// The written form of one row: document 01, "The one written form" ("One line feed a line, one space between fields"). An atom or a row that no list holds, and
// a table that is too short, print nothing: the sheet stays as it was.
#![tactic(auto)]

ghost use Rattle.std.specs.Prelude.{◌≡◌, [], ◌∷◌, ◌++◌, ◌≤◌, ◌<◌, length};
ghost use Rattle.format.specs.Writing.{digits};
ghost use Rattle.printing.specs.Printing.{Printed};
ghost use Rattle.rowform.specs.Lines.{list_of, atom_line, RowLaid, Lent};

use crate::rows::{put_bond, put_centre, put_charge, put_pair, put_radical};
use cells::cell;
use format::Table;
use printing::Sheet;
use spelling::put_symbol;

mod rows; // rows.rt: a row of each list

// The lists that have rows.
#[derive(Clone, Copy)]
pub enum Listed {
    Bond,
    Charge,
    Radical,
    Centre,
    Pair,
}

// A number and the space behind it. One of one digit or two is laid with its space.
fn put_ahead(sheet: &mut Sheet, number: u32)
    ensures { Printed sheet.old (digits number ++ (32 ∷ [])) sheet.new }
{
    match number {
        0..=9 => sheet.bytes([b'0' + number as u8, b' ']),
        10..=99 => sheet.bytes([b'0' + (number / 10) as u8, b'0' + (number % 10) as u8, b' ']),
        _ => {
            sheet.number(number);
            sheet.byte(b' ');
        }
    }
}

// The line of an atom: "number, symbol, optional hydrogens"; "zero hydrogens .. left out".
pub fn put_atom(sheet: &mut Sheet, table: &[i32], i: usize)
    ensures { (i < 256 → Printed sheet.old (atom_line table.now i) sheet.new) × (256 ≤ i → sheet.new ≡ sheet.old) }
{
    if Table::ATOMS <= i {
        return;
    }
    let place = Table::atom(i);
    put_ahead(sheet, i as u32 + 1);
    put_symbol(sheet, cell(table, place), cell(table, place + 1));
    sheet.unless_zero(cell(table, place + 2));
    sheet.byte(b'\n');
}

// A row of a list, which holds at most 512.
pub fn put_row(list: Listed, sheet: &mut Sheet, table: &[i32], i: usize)
    ensures printed { ((i < 512) × (3856 ≤ length table.now) → RowLaid (list_of list) table.now i sheet.old sheet.new) × (512 ≤ i → sheet.new ≡ sheet.old) × (length table.now < 3856 → sheet.new ≡ sheet.old) }
    ensures lent { Lent sheet.old sheet.new }
{
    let Some(numbers) = table.first_chunk::<{ Table::SIZE }>() else {
        return;
    };
    if Table::BONDS <= i {
        return;
    }
    // A trait with a type for each list would be no plainer: its five impls would say no more than these five lines, and the callers go through all lists in turn.
    match list {
        Listed::Bond => put_bond(sheet, numbers, i),
        Listed::Charge => put_charge(sheet, numbers, i),
        Listed::Radical => put_radical(sheet, numbers, i),
        Listed::Centre => put_centre(sheet, numbers, i),
        Listed::Pair => put_pair(sheet, numbers, i),
    }
}
