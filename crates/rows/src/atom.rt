// A row of ATOMLIST: document 01, "Rows".
ghost use Rattle.std.specs.Prelude.{◌≡◌, IfOk, IfSome, option_map};
ghost use Rattle.format.specs.Bytes.{fields};
ghost use Rattle.format.specs.Rows.{atom_shape};
ghost use Rattle.rows.specs.Answers.{ShowsRow, atom_row_of, AtomSmall};

use crate::parts::{atom_at, last_number};
use fields::next_field;
use format::refusal::Refusal;
use symbols::{Mark, symbol};

// An atom's number, its symbol and its implied hydrogens.
#[derive(Clone, Copy)]
pub struct AtomRow {
    pub number: u32,
    pub mark: Mark,
    pub hydrogens: u32,
}

// The values of a row, if it has the shape of one.
fn atom_values(line: &[u8]) -> Option<AtomRow>
    ensures says { option_map atom_row_of result ≡ atom_shape (fields line.now) }
    ensures small { IfSome result AtomSmall }
{
    let atom = atom_at(line, 0)?;
    let field = next_field(line, atom.to);
    let mark = symbol(&line[field.from..field.to])?;
    let hydrogens = last_number(line, field.to)?;
    Some(AtomRow {
        number: atom.number,
        mark,
        hydrogens,
    })
}

// The values of a row: "number, symbol, optional hydrogens 0 to 15 (absent means 0)". The line is without its comment.
pub fn atom_row(line: &[u8]) -> Result<AtomRow, Refusal>
    ensures says { ShowsRow atom_row_of (atom_shape (fields line.now)) result }
    ensures small { IfOk result AtomSmall }
{
    atom_values(line).ok_or(Refusal::Shape)
}
