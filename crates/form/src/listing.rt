// The atoms and the rows of every list: document 01, "The one written form". A list without rows is left out: "empty optional ones left out".
ghost use Rattle.std.specs.Prelude.{◌≡◌, [], ◌≤◌, length};
ghost use Rattle.lists.specs.Lists.{flat};
ghost use Rattle.format.specs.Structure.{rows_of, lists};
ghost use Rattle.format.specs.Table.{decode};
ghost use Rattle.format.specs.Writing.{list_label, print_record, print_atoms, print_rows};
ghost use Rattle.printing.specs.Printing.{Printed};
ghost use Rattle.rowform.specs.Lines.{list_of};
ghost use Rattle.form.specs.Listing.{RowsLaid, ListLaid, GroupsFit};

use cells::count_at;
use format::Table;
use printing::Sheet;
use rowform::{Listed, put_atom, put_row};

// The atoms, one line each.
pub fn put_atoms(sheet: &mut Sheet, table: &[i32; Table::SIZE])
    ensures { Printed sheet.old (print_atoms 1 (decode table.now).atoms) sheet.new }
{
    for i in 0..count_at(table, Table::ATOM_COUNT, Table::ATOMS) {
        put_atom(sheet, table, i);
    }
}

// By a match on the list, as `rowform::put_row` is: constants of a type for each list would say the same five lines elsewhere.
// How many rows a list has.
fn row_count(list: Listed, table: &[i32; Table::SIZE]) -> usize
    ensures { (result ≡ length (rows_of (list_of list) (decode table.now))) × (result ≤ 512) }
{
    match list {
        Listed::Bond => count_at(table, Table::BOND_COUNT, Table::BONDS),
        Listed::Charge => count_at(table, Table::CHARGE_COUNT, Table::CHARGES),
        Listed::Radical => count_at(table, Table::RADICAL_COUNT, Table::RADICALS),
        Listed::Centre => count_at(table, Table::CENTRE_COUNT, Table::CENTRES),
        Listed::Pair => count_at(table, Table::PAIR_COUNT, Table::PAIRS),
    }
}

// The label line of a list: "spelt as in the paper's Table I".
fn put_label(list: Listed, sheet: &mut Sheet)
    ensures { Printed sheet.old (print_record (list_label (list_of list)) []) sheet.new }
{
    match list {
        Listed::Bond => sheet.text(b"##BONDLIST=\n"),
        Listed::Charge => sheet.text(b"##CHARGE=\n"),
        Listed::Radical => sheet.text(b"##RADICAL=\n"),
        Listed::Centre => sheet.text(b"##STEREOCENTER=\n"),
        Listed::Pair => sheet.text(b"##STEREOPAIR=\n"),
    }
}

// The rows of a list.
fn put_rows(list: Listed, sheet: &mut Sheet, table: &[i32; Table::SIZE], count: usize)
    requires { (count ≡ length (rows_of (list_of list) (decode table.now))) × (count ≤ 512) }
    ensures { RowsLaid (list_of list) table.now sheet.old sheet.new }
{
    for i in 0..count {
        put_row(list, sheet, table, i);
    }
}

// A list with its label, if it has a row.
fn put_list(list: Listed, sheet: &mut Sheet, table: &[i32; Table::SIZE])
    ensures { ListLaid (list_of list) table.now sheet.old sheet.new }
{
    let count = row_count(list, table);
    if count != 0 {
        put_label(list, sheet);
        put_rows(list, sheet, table, count);
    }
}

// All lists: "BONDLIST, CHARGE, RADICAL, STEREOCENTER, STEREOPAIR".
pub fn put_lists(sheet: &mut Sheet, table: &[i32; Table::SIZE])
    ensures { GroupsFit table.now → Printed sheet.old (flat (λ l. print_rows l (rows_of l (decode table.now))) lists) sheet.new }
{
    put_list(Listed::Bond, sheet, table);
    put_list(Listed::Charge, sheet, table);
    put_list(Listed::Radical, sheet, table);
    put_list(Listed::Centre, sheet, table);
    put_list(Listed::Pair, sheet, table);
}
