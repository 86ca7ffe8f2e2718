// A row of XYZ: document 02, L2 ("Rows are an atom and three signed numbers of 1 to 6 digits").
ghost use Rattle.std.specs.Prelude.{◌≡◌, ◌≤◌, length, IfOk, IfSome, option_map};
ghost use Rattle.format.specs.Bytes.{fields};
ghost use Rattle.format.specs.Coordinates.{xyz_shape};
ghost use Rattle.rows.specs.Answers.{ShowsRow};
ghost use Rattle.rows.specs.Raised.{xyz_row_of, XyzSmall};
ghost use Rattle.rows.specs.Parts.{ShowsRaised};

use crate::parts::{at_end, atom_at};
use fields::next_field;
use format::refusal::Refusal;
use numbers::signed;

// Raised, so that one kind of cell, natural numbers, keeps them: the scratch is lent as such.
// An atom and its three numbers, each 1,000,000 above what the row says.
#[derive(Clone, Copy)]
pub struct XyzRow {
    pub atom: u32,
    pub x: u32,
    pub y: u32,
    pub z: u32,
}

// A signed number, 1,000,000 above it, and where its field ends.
#[derive(Clone, Copy)]
pub struct RaisedAt {
    pub number: u32,
    pub to: usize,
}

// How far a signed number is raised, so that none is below 0.
pub const LIFT: u32 = 1000000;

// The first field from `at` on, read as a signed number.
fn raised_at(line: &[u8], at: usize) -> Option<RaisedAt>
    requires { at ≤ length line.now }
    ensures { ShowsRaised line.now at result }
{
    let field = next_field(line, at);
    let number = signed(&line[field.from..field.to])?;
    Some(RaisedAt {
        number: (number + LIFT as i32) as u32,
        to: field.to,
    })
}

// The values of a row, if it has the shape of one.
fn xyz_values(line: &[u8]) -> Option<XyzRow>
    ensures says { option_map xyz_row_of result ≡ xyz_shape (fields line.now) }
    ensures small { IfSome result XyzSmall }
{
    let atom = atom_at(line, 0)?;
    let x = raised_at(line, atom.to)?;
    let y = raised_at(line, x.to)?;
    let z = raised_at(line, y.to)?;
    if !at_end(line, z.to) {
        return None;
    }
    Some(XyzRow {
        atom: atom.number,
        x: x.number,
        y: y.number,
        z: z.number,
    })
}

// The values of a row: "an atom and three signed numbers of 1 to 6 digits". The line is without its comment.
pub fn xyz_row(line: &[u8]) -> Result<XyzRow, Refusal>
    ensures says { ShowsRow xyz_row_of (xyz_shape (fields line.now)) result }
    ensures small { IfOk result XyzSmall }
{
    xyz_values(line).ok_or(Refusal::Shape)
}
