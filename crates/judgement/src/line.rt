// One line of a block: document 01, "Lines and labels" and "Refusal numbers". "The earliest line that breaks a rule decides, and on it the lowest number": on each
// line the tests stand in the order of their numbers. A line is the part of the block from `at` to `end`; a refusal is made with the place
// of its line.
ghost use Rattle.std.specs.Prelude.{◌≡◌, true, ◌&&◌, not, List, ℕ, ◌≤◌, ◌<◌, length, eqb};
ghost use Rattle.lists.specs.Lists.{all};
ghost use Rattle.format.specs.Bytes.{Bytes, allowed, fields};
ghost use Rattle.format.specs.Labels.{known};
ghost use Rattle.format.specs.Formula.{formula_shape};
ghost use Rattle.format.specs.Refusals.{number_of};
ghost use Rattle.format.specs.Reading.{State, version_turn, id_turn, formula_turn, blank_or, end_turn, value_turn, further_turn, line_step};
ghost use Rattle.labels.specs.ShownLines.{by_code};
ghost use Rattle.gather.specs.Progress.{part_of, Bounded, BoundedTurn, Flowing, FlowingTurn};
ghost use Rattle.gather.specs.Shows.{Shows, ShowsTurn};
ghost use Rattle.judgement.specs.Lines.{rules_of, KeptTurn, SameRunning, text_put, label_turn, totals_end, begun};

use crate::known::Known;
use crate::seen::{lacking, note, out_of_order, unanswered};
use crate::values::{block_id, is_version};
use crate::xyz::{geometry_end, geometry_turn};
use crate::yes::{handed_twice, yes_turn};
use fields::Field;
use format::refusal::{Refusal, Refused};
use gather::codes::{
    BLOCK_ID, END, MAX_XYZ, MOLFORM, ORIGIN, OWNER, SKIPPED, STEREOMOLECULE, TITLE, VERSION, XYZ,
    XYZ_FACTOR,
};
use gather::list_turn;
use gather::progress::Progress;
use labels::{LineKind, line_kind};
use lines::{blank, uncommented};
use molform::formula_verdict;
use sorted::scratch::Scratch;
use totals::agrees;

// The later tests of END: 15 "formula and atoms differ", then those of the geometry.
fn totals_end(
    block: &[u8],
    at: usize,
    u: Known,
    p: Progress,
    scratch: &[u32; Scratch::SIZE],
) -> Result<Progress, Refused>
    requires { Bounded (length block.now) p × (0 < p.atoms) }
    ensures { KeptTurn p result × ((st : State) → Shows u.rules.last block.now at p scratch.now st →
        ShowsTurn u.rules.last block.now at result scratch.now (totals_end (rules_of u.rules) st)) }
{
    if !u.rules.totals {
        return geometry_end(at, p, scratch);
    }
    if !agrees(
        &block[p.formula.from..p.formula.to],
        &scratch[0..Scratch::KINDS],
        p.atoms,
        u.rules.last,
    ) {
        return Err(Refusal::Totals.at(at));
    }
    geometry_end(at, p, scratch)
}

// The END line, its value from `from` to `to` without its comment: 8 a record missing, 9 a value, or STEREOMOLECULE without its own, 13 the YES beside a centre or a
// pair; then the later tests.
fn end_turn(
    block: &[u8],
    at: usize,
    from: usize,
    to: usize,
    u: Known,
    p: Progress,
    scratch: &[u32; Scratch::SIZE],
) -> Result<Progress, Refused>
    requires { Bounded (length block.now) p × (from ≤ to) × (to ≤ length block.now) }
    ensures { KeptTurn p result × ((st : State) → Shows u.rules.last block.now at p scratch.now st →
        ShowsTurn u.rules.last block.now at result scratch.now (end_turn (rules_of u.rules) st (fields (part_of block.now from to)))) }
{
    if lacking(&scratch[Scratch::FIRST_LABEL..Scratch::FIRST_GEOMETRY]) {
        return Err(Refusal::Missing.at(at));
    }
    if p.atoms == 0 {
        return Err(Refusal::Missing.at(at));
    }
    if !blank(&block[from..to]) {
        return Err(Refusal::Shape.at(at));
    }
    if unanswered(
        &scratch[Scratch::FIRST_LABEL..Scratch::FIRST_GEOMETRY],
        p.handed,
    ) {
        return Err(Refusal::Shape.at(at));
    }
    if handed_twice(p) {
        return Err(Refusal::Clash.at(at));
    }
    totals_end(block, at, u, p, scratch)
}

// The formula's value from `from` to `to` without its comment, or its refusal.
fn formula_turn(
    block: &[u8],
    at: usize,
    from: usize,
    to: usize,
    last: u32,
    p: Progress,
) -> Result<Progress, Refused>
    requires { Bounded (length block.now) p × (from ≤ to) × (to ≤ length block.now) × (1 ≤ last) }
    ensures { BoundedTurn (length block.now) result × SameRunning p result × ((t : List ℕ) (st : State) → Shows last block.now at p t st →
        ShowsTurn last block.now at result t (formula_turn last st (formula_shape (part_of block.now from to)))) }
{
    if let Err(refusal) = formula_verdict(&block[from..to], last) {
        return Err(refusal.at(at));
    }
    Ok(Progress {
        formula: Field { from, to },
        ..p
    })
}

// JCAMP-CS, the value without its comment.
fn version_turn(line: &[u8], at: usize, p: Progress) -> Result<Progress, Refused>
    ensures { KeptTurn p result × ((k : ℕ) (block : Bytes) (t : List ℕ) (st : State) → Shows k block at p t st →
        ShowsTurn k block at result t (version_turn st (fields line.now))) }
{
    if is_version(line) {
        return Ok(p);
    }
    Err(Refusal::Version.at(at))
}

// BLOCK_ID, the value without its comment.
fn id_turn(line: &[u8], at: usize, p: Progress) -> Result<Progress, Refused>
    ensures { ((size : ℕ) → Bounded size p → BoundedTurn size result) × SameRunning p result × ((k : ℕ) (block : Bytes) (t : List ℕ) (st : State) → Shows k block at p t st →
        ShowsTurn k block at result t (id_turn st (fields line.now))) }
{
    match block_id(line) {
        Ok(id) => Ok(Progress { id, ..p }),
        Err(refusal) => Err(refusal.at(at)),
    }
}

// A text that reaches up to `to`: its record's label line gives `from`, a further line only moves the end.
fn text_turn(from: usize, to: usize, p: Progress) -> Result<Progress, Refused>
    ensures { result ≡ Ok (text_put p.running (record { from = from; to = to }) p) }
{
    let text = Field { from, to };
    Ok(match p.running {
        TITLE => Progress { title: text, ..p },
        ORIGIN => Progress { origin: text, ..p },
        _ => Progress { owner: text, ..p },
    })
}

// "What follows `=` on a label line counts as the record's first line": the value from `from` to `end`; the label is noted already. Texts keep their `$$`: no comment is looked for.
fn value_turn(
    block: &[u8],
    at: usize,
    from: usize,
    end: usize,
    u: Known,
    p: Progress,
    scratch: &mut [u32; Scratch::SIZE],
) -> Result<Progress, Refused>
    requires { Bounded (length block.now) p × (from ≤ end) × (end ≤ length block.now) }
    ensures { BoundedTurn (length block.now) result × FlowingTurn end result × ((st : State) → Shows u.rules.last block.now at p scratch.old st →
        ShowsTurn u.rules.last block.now at result scratch.new (value_turn (rules_of u.rules) (by_code p.running known).holds st from (part_of block.now from end))) }
{
    let running = p.running;
    match running {
        SKIPPED => return Ok(p),
        TITLE | ORIGIN | OWNER => return text_turn(from, end, p),
        _ => {}
    }
    let to = from + uncommented(&block[from..end]);
    match running {
        VERSION => version_turn(&block[from..to], at, p),
        MOLFORM => formula_turn(block, at, from, to, u.rules.last, p),
        BLOCK_ID => id_turn(&block[from..to], at, p),
        END => end_turn(block, at, from, to, u, p, scratch),
        MAX_XYZ | XYZ_FACTOR | XYZ => geometry_turn(&block[from..to], at, running, p, scratch),
        STEREOMOLECULE => yes_turn(&block[from..to], at, p),
        _ => list_turn(&block[from..to], at, running, u.rules.last, p, scratch),
    }
}

// A further line of the record that runs: "a further row is refused 9"; 17 "a line with a non-blank byte after END".
fn further_turn(
    block: &[u8],
    at: usize,
    end: usize,
    u: Known,
    p: Progress,
    scratch: &mut [u32; Scratch::SIZE],
) -> Result<Progress, Refused>
    requires { Bounded (length block.now) p × Flowing at p × (at ≤ end) × (end ≤ length block.now) }
    ensures { BoundedTurn (length block.now) result × FlowingTurn end result × ((st : State) → Shows u.rules.last block.now at p scratch.old st →
        ShowsTurn u.rules.last block.now at result scratch.new (further_turn (rules_of u.rules) st.running st (part_of block.now at end))) }
{
    let running = p.running;
    match running {
        SKIPPED => return Ok(p),
        TITLE => return text_turn(p.title.from, end, p),
        ORIGIN => return text_turn(p.origin.from, end, p),
        OWNER => return text_turn(p.owner.from, end, p),
        END => return blank_or(&block[at..end], at, Refusal::BehindEnd, p),
        _ => {}
    }
    let to = at + uncommented(&block[at..end]);
    match running {
        VERSION | MOLFORM | BLOCK_ID | MAX_XYZ | XYZ_FACTOR => blank_or(
            &block[at..to],
            at,
            Refusal::Shape,
            p,
        ),
        XYZ => geometry_turn(&block[at..to], at, running, p, scratch),
        STEREOMOLECULE => yes_turn(&block[at..to], at, p),
        _ => list_turn(&block[at..to], at, running, u.rules.last, p, scratch),
    }
}

// A line where nothing may stand; a byte that is no gap is refused so.
fn blank_or(line: &[u8], at: usize, refusal: Refusal, p: Progress) -> Result<Progress, Refused>
    ensures { KeptTurn p result × ((k : ℕ) (block : Bytes) (t : List ℕ) (st : State) → Shows k block at p t st →
        ShowsTurn k block at result t (blank_or (number_of refusal) st line.now)) }
{
    if blank(line) {
        return Ok(p);
    }
    Err(refusal.at(at))
}

// A label line, its value from `from` on: 6 "known label repeated or out of order"; on a line after END 17.
fn label_turn(
    block: &[u8],
    at: usize,
    from: usize,
    end: usize,
    code: u8,
    u: Known,
    p: Progress,
    scratch: &mut [u32; Scratch::SIZE],
) -> Result<Progress, Refused>
    requires { Bounded (length block.now) p × (from ≤ end) × (end ≤ length block.now) × (code < 18) }
    ensures { BoundedTurn (length block.now) result × FlowingTurn end result × ((st : State) → Shows u.rules.last block.now at p scratch.old st →
        ShowsTurn u.rules.last block.now at result scratch.new (label_turn (rules_of u.rules) st from (by_code code known) (part_of block.now from end))) }
{
    let index = code as usize;
    if out_of_order(
        &scratch[Scratch::FIRST_LABEL..Scratch::FIRST_GEOMETRY],
        p.top,
        index,
    ) {
        return Err(Refusal::LabelOrder.at(at));
    }
    if p.running == END {
        return Err(Refusal::BehindEnd.at(at));
    }
    let top = note(
        &mut scratch[Scratch::FIRST_LABEL..Scratch::FIRST_GEOMETRY],
        p.top,
        index,
    );
    let next = Progress {
        running: code as u32,
        top,
        ..p
    };
    value_turn(block, at, from, end, u, next, scratch)
}

// Whether a label line that is no TITLE line would be the first: "first line is no TITLE line".
fn untitled(top: u32, code: u8) -> bool
    ensures { result ≡ (eqb top 0 && not (eqb code 1)) }
{
    if top != 0 {
        return false;
    }
    code != labels::TITLE
}

// The line from `at` to `end`, each byte of it allowed: 4 "first line is no TITLE line", 5 "label line without `=`", then its record's own tests.
pub fn line_step(
    block: &[u8],
    at: usize,
    end: usize,
    u: Known,
    p: Progress,
    scratch: &mut [u32; Scratch::SIZE],
) -> Result<Progress, Refused>
    requires { Bounded (length block.now) p × Flowing at p × (at ≤ end) × (end ≤ length block.now) × (all allowed (part_of block.now at end) ≡ true) }
    ensures { BoundedTurn (length block.now) result × FlowingTurn end result × ((st : State) → Shows u.rules.last block.now at p scratch.old st → begun st ≡ true →
        ShowsTurn u.rules.last block.now at result scratch.new (line_step (rules_of u.rules) st (part_of block.now at end))) }
{
    match line_kind(&block[at..end]) {
        LineKind::Plain => {
            if p.top == 0 {
                return Err(Refusal::NoTitle.at(at));
            }
            further_turn(block, at, end, u, p, scratch)
        }
        LineKind::Unparted => {
            if p.top == 0 {
                return Err(Refusal::NoTitle.at(at));
            }
            Err(Refusal::NoEquals.at(at))
        }
        LineKind::Labelled(code, value) => {
            if untitled(p.top, code) {
                return Err(Refusal::NoTitle.at(at));
            }
            label_turn(block, at, at + value, end, code, u, p, scratch)
        }
    }
}
