// Records with a value: document 01, "The one written form" ("`=` then a space and the value; no space where there is none"), and document 02, L4 ("written as a record
// after STEREOPAIR with the value on the label line").
ghost use Rattle.std.specs.Prelude.{◌++◌, ◌+◌, take, drop, eqb};
ghost use Rattle.format.specs.Table.{text_place, cell as cell_of};
ghost use Rattle.format.specs.Writing.{valued, print_id, print_yes};
ghost use Rattle.printing.specs.Printing.{Printed};

use cells::cell;
use format::Table;
use printing::Sheet;

// A label and its value.
fn put_record(sheet: &mut Sheet, label: &[u8], value: &[u8])
    ensures { Printed sheet.old (label.now ++ valued value.now) sheet.new }
{
    sheet.text(label);
    if !value.is_empty() {
        sheet.byte(b' ');
        sheet.text(value);
    }
    sheet.byte(b'\n');
}

// A label and the text that has this index: title 0, origin 1, owner 2.
pub fn put_span(
    sheet: &mut Sheet,
    label: &[u8],
    table: &[i32; Table::SIZE],
    index: usize,
    bytes: &[u8],
)
    ensures { Printed sheet.old (label.now ++ valued (take (cell_of table.now (text_place index + 1)) (drop (cell_of table.now (text_place index)) bytes.now))) sheet.new }
{
    let place = Table::text(index);
    let from = bytes.len().min(cell(table, place) as usize);
    let size = (bytes.len() - from).min(cell(table, place + 1) as usize);
    put_record(sheet, label, &bytes[from..from + size]);
}

// The block's number, if it has one.
pub fn put_id(sheet: &mut Sheet, id: u32)
    ensures { Printed sheet.old (print_id id) sheet.new }
{
    if id != 0 {
        sheet.text(b"##BLOCK_ID=");
        sheet.behind(id);
        sheet.byte(b'\n');
    }
}

// That the molecule is handed as a whole, where the table's number says so.
pub fn put_yes(sheet: &mut Sheet, flag: u32)
    ensures { Printed sheet.old (print_yes (eqb flag 1)) sheet.new }
{
    if flag == 1 {
        sheet.text(b"##STEREOMOLECULE= YES\n");
    }
}
