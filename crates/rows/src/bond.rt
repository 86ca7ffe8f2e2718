// A row of BONDLIST: document 01, "Rows".
ghost use Rattle.std.specs.Prelude.{◌≡◌, IfOk, IfSome, option_map};
ghost use Rattle.format.specs.Bytes.{fields};
ghost use Rattle.format.specs.Labels.{Bonds};
ghost use Rattle.format.specs.Rows.{row_shape};
ghost use Rattle.rows.specs.Answers.{ShowsRow, bond_row_of, BondSmall};

use crate::parts::{at_end, two_atoms};
use fields::next_field;
use format::refusal::Refusal;
use symbols::groups::bond_kind;

// Two atoms and the kind, 1 to 5 for S, D, T, Q, A.
// The kind stays a number, as it stands in the table and in the definitions.
#[derive(Clone, Copy)]
pub struct BondRow {
    pub first: u32,
    pub second: u32,
    pub kind: u32,
}

// The values of a row, if it has the shape of one.
fn bond_values(line: &[u8]) -> Option<BondRow>
    ensures says { option_map bond_row_of result ≡ row_shape Bonds (fields line.now) }
    ensures small { IfSome result BondSmall }
{
    let atoms = two_atoms(line)?;
    let field = next_field(line, atoms.to);
    let kind = bond_kind(&line[field.from..field.to])?;
    if !at_end(line, field.to) {
        return None;
    }
    Some(BondRow {
        first: atoms.first,
        second: atoms.second,
        kind,
    })
}

// The values of a row: "two atoms and S, D, T, Q or A". The line is without its comment.
pub fn bond_row(line: &[u8]) -> Result<BondRow, Refusal>
    ensures says { ShowsRow bond_row_of (row_shape Bonds (fields line.now)) result }
    ensures small { IfOk result BondSmall }
{
    bond_values(line).ok_or(Refusal::Shape)
}
