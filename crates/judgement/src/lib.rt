// Judging a block, its lines in turn: document 01, "Lines and labels", "Rows", "Refusal numbers".
#![tactic(auto)]

mod known; // known.rt: the rules once they are looked at
mod line; // line.rt: one line of a block
pub mod rules; // rules.rt: what a reading goes by
mod seen; // seen.rt: the labels seen so far and their order
mod values; // values.rt: values of one field
mod xyz; // xyz.rt: the records of the block's geometry
mod yes; // yes.rt: STEREOMOLECULE

ghost use Rattle.std.specs.Prelude.{◌≡◌, [], length};
ghost use Rattle.lists.specs.Lists.{filled};
ghost use Rattle.judgement.specs.Judging.{ShowsJudged, Judges, unread_yet, judged_end};

use crate::known::Known;
use crate::line::line_step;
use crate::rules::Rules;
use crate::xyz::xyz_rows;
use fields::Field;
use format::refusal::{Refusal, Refused};
use gather::codes::{ATOMLIST, BONDLIST, END, SKIPPED, XYZ};
use gather::progress::Progress;
use gather::rows_run;
use lines::clean_end;
use sorted::scratch::Scratch;

// What is known before the first line: no record runs, no label was seen, no list has a row.
fn unread() -> Progress
    ensures { result ≡ unread_yet }
{
    let nothing = Field { from: 0, to: 0 };
    Progress {
        running: SKIPPED,
        top: 0,
        title: nothing,
        origin: nothing,
        owner: nothing,
        formula: nothing,
        atoms: 0,
        bonds: 0,
        charges: 0,
        radicals: 0,
        centres: 0,
        pairs: 0,
        id: 0,
        handed: false,
    }
}

// The lines in turn. "The earliest line that breaks a rule decides"; 3 "a byte not allowed"; 4 "or the block is empty"; 16 "no END line", its place the block's length.
fn judge_lines(
    block: &[u8],
    u: Known,
    scratch: &mut [u32; Scratch::SIZE],
    store: &mut [i32],
) -> Result<Progress, Refused>
    ensures { (length store.new ≡ length store.old) × (scratch.old ≡ filled 0 2973 [] → ShowsJudged u.rules block.now scratch.new store.new result) }
{
    let mut p = unread();
    let mut at = 0;
    while at < block.len() {
        let Some(end) = clean_end(block, at) else {
            return Err(Refusal::ForbiddenByte.at(at));
        };
        p = line_step(block, at, end, u, p, scratch)?;
        at = end;
        // rows are kept or run where their list runs; most lines are of none
        if p.running == XYZ {
            at = xyz_rows(block, end, p.top, p.atoms, scratch, store);
        } else if p.running == ATOMLIST || p.running == BONDLIST {
            let ran = rows_run(block, end, u.rules.last, p, scratch);
            p = ran.known;
            at = ran.place;
        }
    }
    judged_end(p, at)
}

// What is judged where the block ends.
fn judged_end(p: Progress, at: usize) -> Result<Progress, Refused>
    ensures { result ≡ judged_end p at }
{
    if p.running == END {
        return Ok(p);
    }
    if p.top == 0 {
        return Err(Refusal::NoTitle.at(0));
    }
    Err(Refusal::NoEnd.at(at))
}

// Judges a block; the scratch lent is all zeros. The store keeps the rows of XYZ, four numbers a row, as far as it has room. What no reading lends, a scratch of another
// length, no known element or more than there are, is answered Unlent, which no block's refusal is, at place 0, and scratch and store stay as they were. That it is
// all zeros is not looked at: of one that is not, only the lengths are promised. Never laid into its caller: in a
// program, which calls it from one place, what it needs of the stack would else lie under all that is printed.
#[inline(never)]
pub fn judge(
    block: &[u8],
    u: Rules,
    scratch: &mut [u32],
    store: &mut [i32],
) -> Result<Progress, Refused>
    ensures { Judges u block.now scratch.old scratch.new store.old store.new result }
{
    let Some(known) = Known::of(u) else {
        return Err(Refusal::Unlent.at(0));
    };
    let Some(scratch) = scratch.as_mut_array::<{ Scratch::SIZE }>() else {
        return Err(Refusal::Unlent.at(0));
    };
    judge_lines(block, known, scratch, store)
}
