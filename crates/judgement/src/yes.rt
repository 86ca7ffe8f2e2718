// STEREOMOLECULE, by which a molecule is handed as a whole: document 02, L4.
ghost use Rattle.std.specs.Prelude.{◌≡◌, ◌&&◌, not, List, ℕ, eqb};
ghost use Rattle.format.specs.Bytes.{Bytes, fields};
ghost use Rattle.format.specs.Reading.{State, yes_line};
ghost use Rattle.gather.specs.Progress.{Bounded, BoundedTurn};
ghost use Rattle.gather.specs.Shows.{Shows, ShowsTurn};
ghost use Rattle.judgement.specs.Lines.{SameRunning};

use crate::values::is_yes;
use format::refusal::{Refusal, Refused};
use gather::progress::Progress;
use lines::blank;

// The record's line without its comment, on the label line or behind it: 9 "another value or a second row".
pub fn yes_turn(line: &[u8], at: usize, p: Progress) -> Result<Progress, Refused>
    ensures { ((size : ℕ) → Bounded size p → BoundedTurn size result) × SameRunning p result × ((k : ℕ) (block : Bytes) (t : List ℕ) (st : State) → Shows k block at p t st →
        ShowsTurn k block at result t (yes_line st (fields line.now))) }
{
    if blank(line) {
        return Ok(p);
    }
    if p.handed {
        return Err(Refusal::Shape.at(at));
    }
    if !is_yes(line) {
        return Err(Refusal::Shape.at(at));
    }
    Ok(Progress { handed: true, ..p })
}

// 13 "YES beside any centre or pair row".
pub fn handed_twice(p: Progress) -> bool
    ensures { result ≡ (p.handed && not (eqb p.centres 0 && eqb p.pairs 0)) }
{
    if !p.handed {
        return false;
    }
    if p.centres != 0 {
        return true;
    }
    p.pairs != 0
}
