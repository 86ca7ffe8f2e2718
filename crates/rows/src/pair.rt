// A row of STEREOPAIR: document 01, "Rows".
ghost use Rattle.std.specs.Prelude.{◌≡◌, IfOk, IfSome, option_map};
ghost use Rattle.format.specs.Bytes.{fields};
ghost use Rattle.format.specs.Labels.{Pairs};
ghost use Rattle.format.specs.Rows.{row_shape};
ghost use Rattle.rows.specs.Answers.{ShowsRow, pair_row_of, PairSmall};

use crate::parts::{last_group, two_atoms};
use fields::next_field;
use format::refusal::Refusal;
use symbols::groups::pair_hand;

// Two atoms, 0, 1 for P or 2 for M, and the group's byte (0 for `0`).
#[derive(Clone, Copy)]
pub struct PairRow {
    pub first: u32,
    pub second: u32,
    pub side: u32,
    pub group: u32,
}

// The values of a row, if it has the shape of one.
fn pair_values(line: &[u8]) -> Option<PairRow>
    ensures says { option_map pair_row_of result ≡ row_shape Pairs (fields line.now) }
    ensures small { IfSome result PairSmall }
{
    let atoms = two_atoms(line)?;
    let field = next_field(line, atoms.to);
    let side = pair_hand(&line[field.from..field.to])?;
    let group = last_group(line, field.to)?;
    Some(PairRow {
        first: atoms.first,
        second: atoms.second,
        side,
        group,
    })
}

// The values of a row: "two atoms, P, M or 0, optional group". The line is without its comment.
pub fn pair_row(line: &[u8]) -> Result<PairRow, Refusal>
    ensures says { ShowsRow pair_row_of (row_shape Pairs (fields line.now)) result }
    ensures small { IfOk result PairSmall }
{
    pair_values(line).ok_or(Refusal::Shape)
}
