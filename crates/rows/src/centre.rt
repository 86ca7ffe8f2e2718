// A row of STEREOCENTER: document 01, "Rows".
ghost use Rattle.std.specs.Prelude.{◌≡◌, IfOk, IfSome, option_map};
ghost use Rattle.format.specs.Bytes.{fields};
ghost use Rattle.format.specs.Labels.{Centres};
ghost use Rattle.format.specs.Rows.{row_shape};
ghost use Rattle.rows.specs.Answers.{ShowsRow, centre_row_of, CentreSmall};

use crate::parts::{atom_at, last_group};
use fields::next_field;
use format::refusal::Refusal;
use symbols::groups::hand;

// An atom, 1 for P or 2 for M, and the group's byte (0 for `0`).
#[derive(Clone, Copy)]
pub struct CentreRow {
    pub atom: u32,
    pub side: u32,
    pub group: u32,
}

// The values of a row, if it has the shape of one.
fn centre_values(line: &[u8]) -> Option<CentreRow>
    ensures says { option_map centre_row_of result ≡ row_shape Centres (fields line.now) }
    ensures small { IfSome result CentreSmall }
{
    let atom = atom_at(line, 0)?;
    let field = next_field(line, atom.to);
    let side = hand(&line[field.from..field.to])?;
    let group = last_group(line, field.to)?;
    Some(CentreRow {
        atom: atom.number,
        side,
        group,
    })
}

// The values of a row: "atom, P or M, optional group `0`, A to Z or a to z (absent means 0)". The line is without its comment.
pub fn centre_row(line: &[u8]) -> Result<CentreRow, Refusal>
    ensures says { ShowsRow centre_row_of (row_shape Centres (fields line.now)) result }
    ensures small { IfOk result CentreSmall }
{
    centre_values(line).ok_or(Refusal::Shape)
}
