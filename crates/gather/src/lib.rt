// One line of a list among the rows that are there: document 01, "Rows". The scratch lent has a region for each list, sorted or as the rows came.
#![tactic(auto)]

pub mod codes; // codes.rt: the codes of the known labels
pub mod progress; // progress.rt: what is known before a line
mod runs; // runs.rt: quick rows one behind the other
mod turns; // turns.rt: a line in its list's region of the scratch

ghost use Rattle.std.specs.Prelude.{◌≡◌, ◌≤◌, length};
ghost use Rattle.format.specs.Bytes.{Bytes, fields};
ghost use Rattle.format.specs.Reading.{State};
ghost use Rattle.gather.specs.Progress.{Counted, CountedTurn};
ghost use Rattle.gather.specs.Shows.{Shows, ShowsTurn};
ghost use Rattle.gather.specs.ListLine.{list_line, ListLent, TurnUntouched};
ghost use Rattle.gather.specs.Runs.{RowsRan};

use crate::codes::{ATOMLIST, BONDLIST};
use crate::progress::Progress;
use crate::runs::{atom_run, bond_run};
use crate::turns::{line_after, with_count};
use format::refusal::{Refusal, Refused};
use sorted::scratch::Scratch;

// A line of the list whose label has the code: 6 ATOMLIST, 7 BONDLIST, 8 CHARGE, 9 RADICAL, 10 STEREOCENTER, 11 STEREOPAIR. The line is without its comment; `place` is
// where it stands in its block. What no reading lends, another length, too many atoms or too many rows of the list, is answered Unlent, and nothing is touched.
pub fn list_turn(
    line: &[u8],
    place: usize,
    code: u32,
    last: u32,
    p: Progress,
    scratch: &mut [u32],
) -> Result<Progress, Refused>
    ensures { (length scratch.new ≡ length scratch.old) × (length scratch.old ≡ 2973 → Counted p → 1 ≤ last → 6 ≤ code → code ≤ 11 → CountedTurn p result × ((block : Bytes) (st : State) → Shows last block place p scratch.old st →
        ShowsTurn last block place result scratch.new (list_line code last st (fields line.now))))
        × ((ListLent code p scratch.old → ⊥) → TurnUntouched place scratch.old scratch.new result) }
{
    let Some(scratch) = scratch.as_mut_array::<{ Scratch::SIZE }>() else {
        return Err(Refusal::Unlent.at(place));
    };
    let count = line_after(line, place, code, last, p, scratch)?;
    Ok(with_count(code, count, p))
}

// The first line that a run did not gather, and what is known before it.
#[derive(Clone, Copy)]
pub struct Ran {
    pub place: usize,
    pub known: Progress,
}

// Gathers the quick rows from `at` on where ATOMLIST (6) or BONDLIST (7) runs; nothing elsewhere, and nothing before the first label.
pub fn rows_run(block: &[u8], at: usize, last: u32, p: Progress, scratch: &mut [u32]) -> Ran
    ensures { (length scratch.new ≡ length scratch.old) × RowsRan last block.now at p scratch.old scratch.new result }
{
    let still = Ran {
        place: at,
        known: p,
    };
    let Some(scratch) = scratch.as_mut_array::<{ Scratch::SIZE }>() else {
        return still;
    };
    if p.top == 0 {
        return still;
    }
    match p.running {
        ATOMLIST => {
            let run = atom_run(block, at, last, p.atoms, scratch);
            Ran {
                place: run.place,
                known: with_count(ATOMLIST, run.count, p),
            }
        }
        BONDLIST => {
            let run = bond_run(block, at, p.atoms, p.bonds, scratch);
            Ran {
                place: run.place,
                known: with_count(BONDLIST, run.count, p),
            }
        }
        _ => still,
    }
}
