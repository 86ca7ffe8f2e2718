// The one written form of a table: document 01, "The one written form" ("Records in this order: TITLE, JCAMP-CS, ORIGIN, OWNER, BLOCK_ID, MOLFORM, ATOMLIST,
// BONDLIST, CHARGE, RADICAL, STEREOCENTER, STEREOPAIR, END"), and document 02, L4 (STEREOMOLECULE "after STEREOPAIR").
#![tactic(auto)]

ghost use Rattle.std.specs.Prelude.{◌≤◌, ◌<◌, length};
ghost use Rattle.printing.specs.Printing.{Untouched};
ghost use Rattle.form.specs.Forms.{FormLaid, FormPrinted};

use crate::formula::put_formula;
use crate::listing::{put_atoms, put_lists};
use crate::records::{put_id, put_span, put_yes};
use cells::cell;
use format::Table;
use printing::Sheet;
use tally::ENTRIES;
use tally::entries::Entry;

mod formula; // formula.rt: the record of the formula
mod listing; // listing.rt: the atoms and the rows of every list
mod records; // records.rt: texts, the block's number, handed as a whole

// The texts, as the table counts them: "title, origin, owner".
const TITLE: usize = 0;

const ORIGIN: usize = 1;

const OWNER: usize = 2;

// Every record.
fn put_records(sheet: &mut Sheet, table: &[i32; Table::SIZE], bytes: &[u8], entries: &[Entry])
    ensures { FormPrinted table.now bytes.now entries.now sheet.old sheet.new }
{
    put_span(sheet, b"##TITLE=", table, TITLE, bytes);
    sheet.text(b"##JCAMP-CS= 3.7\n");
    put_span(sheet, b"##ORIGIN=", table, ORIGIN, bytes);
    put_span(sheet, b"##OWNER=", table, OWNER, bytes);
    put_id(sheet, cell(table, Table::BLOCK_ID));
    put_formula(sheet, entries);
    sheet.text(b"##ATOMLIST=\n");
    put_atoms(sheet, table);
    put_lists(sheet, table);
    put_yes(sheet, cell(table, Table::HANDED));
    sheet.text(b"##END=\n");
}

// 0 is what it promises there (docs/PROMISES.md).
// The same for any caller, from the buffer's front on: a table that is too short, or more entries than a tally holds, print nothing: the buffer stays, and 0 is
// answered.
pub fn put_form(buffer: &mut [u8], table: &[i32], bytes: &[u8], entries: &[Entry]) -> usize
    ensures { ((3856 ≤ length table.now) × (length entries.now ≤ 512) → FormLaid table.now bytes.now entries.now buffer.old buffer.new result) × (length table.now < 3856 → Untouched buffer.old 0 buffer.new result) × (512 < length entries.now → Untouched buffer.old 0 buffer.new result) }
{
    if ENTRIES < entries.len() {
        return 0;
    }
    let Some(numbers) = table.first_chunk::<{ Table::SIZE }>() else {
        return 0;
    };
    let mut sheet = Sheet { buffer, at: 0 };
    put_records(&mut sheet, numbers, bytes, entries);
    sheet.at
}
