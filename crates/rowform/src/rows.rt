// A row of each list: document 01, "The one written form" ("One line feed a line, one space between fields"). A number of the table is read where it stands.
ghost use Rattle.std.specs.Prelude.{◌≡◌, [], ◌∷◌, ◌++◌, map, ◌<◌, eqb, get_or, pos};
ghost use Rattle.format.specs.Labels.{Bonds, Charges, Radicals, Centres, Pairs};
ghost use Rattle.format.specs.Table.{cell as cell_of, members_at, atom_records};
ghost use Rattle.format.specs.Writing.{digits, signed_of};
ghost use Rattle.printing.specs.Printing.{Printed, spaced};
ghost use Rattle.rowform.specs.Lines.{mark_words, mark_line, member_of, RowLaid, Lent};

use cells::{cell, count_at, is_negative};
use format::Table;
use printing::Sheet;

// A letter and a group behind what stands on the line, and the line's end: "group 0 left out". A group is a byte.
fn put_mark(sheet: &mut Sheet, letter: u8, group: u32)
    ensures printed { group < 256 → Printed sheet.old (spaced (mark_words letter group) ++ (10 ∷ [])) sheet.new }
    ensures lent { Lent sheet.old sheet.new }
{
    let [byte, ..] = group.to_le_bytes();
    if group == 0 {
        sheet.bytes([b' ', letter, b'\n']);
    } else {
        sheet.bytes([b' ', letter, b' ', byte, b'\n']);
    }
}

// The line of one atom, a letter and a group.
fn put_one(sheet: &mut Sheet, atom: u32, letter: u8, group: u32)
    ensures printed { group < 256 → Printed sheet.old (mark_line (atom ∷ []) letter group) sheet.new }
    ensures lent { Lent sheet.old sheet.new }
{
    sheet.number(atom);
    put_mark(sheet, letter, group);
}

// The line of two atoms, a letter and a group.
fn put_two(sheet: &mut Sheet, low: u32, high: u32, letter: u8, group: u32)
    ensures printed { group < 256 → Printed sheet.old (mark_line (low ∷ high ∷ []) letter group) sheet.new }
    ensures lent { Lent sheet.old sheet.new }
{
    sheet.number(low);
    sheet.behind(high);
    put_mark(sheet, letter, group);
}

// The letter that stands for a value; 0 where none does.
fn letter_of(letters: &[u8], value: u32) -> u8
    ensures { result ≡ get_or letters.now value 0 }
{
    letters.get(value as usize).copied().unwrap_or(0)
}

// The line of a bond: "two atoms and S, D, T, Q or A".
pub fn put_bond(sheet: &mut Sheet, table: &[i32; Table::SIZE], i: usize)
    ensures printed { RowLaid Bonds table.now i sheet.old sheet.new }
    ensures lent { Lent sheet.old sheet.new }
{
    let place = Table::bond(i);
    let low = cell(table, place);
    let high = cell(table, place + 1);
    let kind = letter_of(b"-SDTQA", cell(table, place + 2));
    put_two(sheet, low, high, kind, 0);
}

// The line of a centre: "atom, P or M, optional group"; "group 0 left out".
pub fn put_centre(sheet: &mut Sheet, table: &[i32; Table::SIZE], i: usize)
    ensures printed { RowLaid Centres table.now i sheet.old sheet.new }
    ensures lent { Lent sheet.old sheet.new }
{
    let place = Table::centre(i);
    let atom = cell(table, place);
    let side = letter_of(b"0PM", cell(table, place + 1));
    let group = cell(table, place + 2);
    put_one(sheet, atom, side, group);
}

// The line of a pair: "two atoms, P, M or 0, optional group".
pub fn put_pair(sheet: &mut Sheet, table: &[i32; Table::SIZE], i: usize)
    ensures printed { RowLaid Pairs table.now i sheet.old sheet.new }
    ensures lent { Lent sheet.old sheet.new }
{
    let place = Table::pair(i);
    let low = cell(table, place);
    let high = cell(table, place + 1);
    let side = letter_of(b"0PM", cell(table, place + 2));
    let group = cell(table, place + 3);
    put_two(sheet, low, high, side, group);
}

// An atom's number behind a space, if the number at `place` is j.
fn put_member(sheet: &mut Sheet, table: &[i32; Table::SIZE], place: usize, j: u32, number: u32)
    ensures { Printed sheet.old (member_of (eqb (cell_of table.now place) j) number) sheet.new }
{
    if cell(table, place) == j {
        sheet.behind(number);
    }
}

// The atoms that stand in row j, "members ascending", each behind a space, and the line's end: those whose number at `which` of their record is j.
fn put_members(sheet: &mut Sheet, table: &[i32; Table::SIZE], which: usize, j: u32)
    requires { which < 5 }
    ensures { Printed sheet.old (spaced (map digits (members_at which j 1 (atom_records table.now))) ++ (10 ∷ [])) sheet.new }
{
    for i in 0..count_at(table, Table::ATOM_COUNT, Table::ATOMS) {
        put_member(sheet, table, Table::atom(i) + which, j, i as u32 + 1);
    }
    sheet.byte(b'\n');
}

// A value with its sign: "charges signed".
fn put_signed(sheet: &mut Sheet, table: &[i32; Table::SIZE], place: usize)
    ensures { Printed sheet.old (signed_of (get_or table.now place (pos 0))) sheet.new }
{
    sheet.byte(if is_negative(table, place) {
        b'-'
    } else {
        b'+'
    });
    sheet.number(cell(table, place));
}

// The line of a charge: "signed value .. then no or more atoms".
pub fn put_charge(sheet: &mut Sheet, table: &[i32; Table::SIZE], i: usize)
    requires { i < 512 }
    ensures printed { RowLaid Charges table.now i sheet.old sheet.new }
    ensures lent { Lent sheet.old sheet.new }
{
    put_signed(sheet, table, Table::charge(i));
    put_members(sheet, table, 3, i as u32 + 1);
}

// The line of a radical: "unsigned .. then the same".
pub fn put_radical(sheet: &mut Sheet, table: &[i32; Table::SIZE], i: usize)
    requires { i < 512 }
    ensures printed { RowLaid Radicals table.now i sheet.old sheet.new }
    ensures lent { Lent sheet.old sheet.new }
{
    sheet.number(cell(table, Table::radical(i)));
    put_members(sheet, table, 4, i as u32 + 1);
}
