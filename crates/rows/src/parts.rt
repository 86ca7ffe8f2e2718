// What the rows share: atoms in front, an optional last field, nothing more: document 01, "Rows". For this crate alone.
ghost use Rattle.std.specs.Prelude.{◌≡◌, ◌≤◌, ◌<◌, length, drop, IfSome};
ghost use Rattle.lists.specs.Lists.{is_nil};
ghost use Rattle.format.specs.Bytes.{fields};
ghost use Rattle.format.specs.Rows.{optional, number, group};
ghost use Rattle.rows.specs.Parts.{ShowsAtom, ShowsTwo, ShowsLast};

use fields::{Field, next_field};
use numbers::number;
use symbols::groups::group;

// An atom's number and where its field ends.
#[derive(Clone, Copy)]
pub struct AtomAt {
    pub number: u32,
    pub to: usize,
}

// Two atoms' numbers and where the second one's field ends.
#[derive(Clone, Copy)]
pub struct TwoAtoms {
    pub first: u32,
    pub second: u32,
    pub to: usize,
}

// The first field from `at` on, read as a number.
pub fn atom_at(line: &[u8], at: usize) -> Option<AtomAt>
    requires { at ≤ length line.now }
    ensures { ShowsAtom line.now at result }
{
    let field = next_field(line, at);
    let number = number(&line[field.from..field.to])?;
    Some(AtomAt {
        number,
        to: field.to,
    })
}

// The first two fields, each read as a number.
pub fn two_atoms(line: &[u8]) -> Option<TwoAtoms>
    ensures { ShowsTwo line.now result }
{
    let first = atom_at(line, 0)?;
    let second = atom_at(line, first.to)?;
    Some(TwoAtoms {
        first: first.number,
        second: second.number,
        to: second.to,
    })
}

// Whether no field is left from `at` on.
pub fn at_end(line: &[u8], at: usize) -> bool
    ensures { result ≡ is_nil (fields (drop at line.now)) }
{
    let field = next_field(line, at);
    field.from == field.to
}

// The one field that is left from `at` on, or none; no answer where there are more.
fn last_field(line: &[u8], at: usize) -> Option<Option<Field>>
    requires { at ≤ length line.now }
    ensures { ShowsLast line.now at result }
{
    let field = next_field(line, at);
    if field.from == field.to {
        return Some(None);
    }
    if !at_end(line, field.to) {
        return None;
    }
    Some(Some(field))
}

// A last field that is a number, 0 where it is absent: "optional hydrogens 0 to 15 (absent means 0)".
pub fn last_number(line: &[u8], at: usize) -> Option<u32>
    requires { at ≤ length line.now }
    ensures says { result ≡ optional number (fields (drop at line.now)) }
    ensures small { IfSome result (λ n. n < 1000000) }
{
    match last_field(line, at)? {
        None => Some(0),
        Some(field) => number(&line[field.from..field.to]),
    }
}

// A last field that is a group, 0 where it is absent: "optional group `0`, A to Z or a to z (absent means 0)".
pub fn last_group(line: &[u8], at: usize) -> Option<u32>
    requires { at ≤ length line.now }
    ensures says { result ≡ optional group (fields (drop at line.now)) }
    ensures small { IfSome result (λ n. n < 123) }
{
    match last_field(line, at)? {
        None => Some(0),
        Some(field) => group(&line[field.from..field.to]),
    }
}
