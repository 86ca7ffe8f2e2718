// The formula, from its gathered entries: document 01, "The one written form" ("counts of 1 left out, no `/`"), and document 02, L1 ("one fragment for each group of
// atoms .., parted by ` * `").
ghost use Rattle.std.specs.Prelude.{◌++◌, ◌/◌, ◌%◌};
ghost use Rattle.format.specs.Writing.{print_entry};
ghost use Rattle.tally.specs.Gathering.{entry_of};
ghost use Rattle.printing.specs.Printing.{Printed};
ghost use Rattle.form.specs.Entries.{parted, entries_text, FormulaLaid};

use printing::Sheet;
use spelling::put_symbol;
use tally::GROUPS;
use tally::elements::{MASSES, element_of};
use tally::entries::Entry;

// An entry by its key and count: "counts of 1 left out".
fn put_entry(sheet: &mut Sheet, key: u32, count: u32)
    ensures { Printed sheet.old (print_entry (entry_of key count)) sheet.new }
{
    put_symbol(sheet, element_of(key / MASSES), key % MASSES);
    if count != 1 {
        sheet.number(count);
    }
}

// What parts an entry from the one before: a space within a fragment, ` * ` where another one starts.
fn put_parted(sheet: &mut Sheet, before: u32, group: u32)
    ensures { Printed sheet.old (parted before group) sheet.new }
{
    if before == group {
        sheet.byte(b' ');
    } else {
        sheet.bytes([b' ', b'*', b' ']);
    }
}

// An entry behind it.
fn put_next(sheet: &mut Sheet, before: u32, entry: Entry)
    ensures { Printed sheet.old (parted before (entry.key / 65536) ++ print_entry (entry_of (entry.key % 65536) entry.count)) sheet.new }
{
    put_parted(sheet, before, entry.key / GROUPS);
    put_entry(sheet, entry.key % GROUPS, entry.count);
}

// All entries, the first behind a space.
fn put_entries(sheet: &mut Sheet, entries: &[Entry])
    ensures { Printed sheet.old (entries_text entries.now) sheet.new }
{
    let [first, ..] = entries else {
        return;
    };
    let mut group = first.key / GROUPS;
    for entry in entries {
        put_next(sheet, group, *entry);
        group = entry.key / GROUPS;
    }
}

// The record of the formula.
pub fn put_formula(sheet: &mut Sheet, entries: &[Entry])
    ensures { FormulaLaid entries.now sheet.old sheet.new }
{
    sheet.text(b"##MOLFORM=");
    put_entries(sheet, entries);
    sheet.byte(b'\n');
}
