// The records of a block's geometry: document 02, L2. Their numbers stand in the last region of the scratch. The rows of XYZ are kept in a lent store until END, since
// XYZ_FACTOR may stand behind them.
ghost use Rattle.std.specs.Prelude.{ℕ};
ghost use Rattle.format.specs.Bytes.{Bytes, fields};
ghost use Rattle.format.specs.Reading.{State, xyz_value};
ghost use Rattle.geometry.specs.LineNoted.{record_of};
ghost use Rattle.gather.specs.Progress.{Counted};
ghost use Rattle.gather.specs.Shows.{Shows, ShowsTurn};
ghost use Rattle.judgement.specs.Lines.{KeptTurn, geometry_end};
ghost use Rattle.judgement.specs.Placing.{RowsPlaced};

use crate::seen::partly;
use format::refusal::{Refusal, Refused};
use gather::progress::Progress;
use geometry::latest::keep_latest;
use geometry::line::geometry_line;
use geometry::run::xyz_run;
use geometry::sizes::exceeds;
use sorted::scratch::Scratch;

// The value of MAX_XYZ (14) or XYZ_FACTOR (15), or a row of XYZ (16), without its comment.
pub fn geometry_turn(
    line: &[u8],
    at: usize,
    code: u32,
    p: Progress,
    scratch: &mut [u32; Scratch::SIZE],
) -> Result<Progress, Refused>
    requires { Counted p }
    ensures { KeptTurn p result × ((k : ℕ) (block : Bytes) (st : State) → Shows k block at p scratch.old st →
        ShowsTurn k block at result scratch.new (xyz_value (record_of code) st (fields line.now))) }
{
    let region = &mut scratch[Scratch::FIRST_GEOMETRY..Scratch::SIZE];
    geometry_line(line, at, code, p.atoms, region)?;
    Ok(p)
}

// The last tests of END: 41 "one or two of the three labels present without the rest", 42 "a value above MAX_XYZ".
pub fn geometry_end(
    at: usize,
    p: Progress,
    scratch: &[u32; Scratch::SIZE],
) -> Result<Progress, Refused>
    requires { Counted p }
    ensures { KeptTurn p result × ((k : ℕ) (block : Bytes) (st : State) → Shows k block at p scratch.now st → ShowsTurn k block at result scratch.now (geometry_end st)) }
{
    if partly(&scratch[Scratch::FIRST_LABEL..Scratch::FIRST_GEOMETRY]) {
        return Err(Refusal::PartGeometry.at(at));
    }
    if exceeds(&scratch[Scratch::FIRST_GEOMETRY..Scratch::SIZE]) {
        return Err(Refusal::AboveGreatest.at(at));
    }
    Ok(p)
}

// The rows of XYZ behind one of its lines: the line's own row into the store, then the quick rows from `at` on, `atoms` atoms listed; none before the first label. The
// answer is the place of the first line that was not gathered.
pub fn xyz_rows(
    block: &[u8],
    at: usize,
    top: u32,
    atoms: usize,
    scratch: &mut [u32; Scratch::SIZE],
    store: &mut [i32],
) -> usize
    ensures { RowsPlaced block.now at top atoms scratch.old scratch.new store.old store.new result }
{
    keep_latest(&scratch[Scratch::FIRST_GEOMETRY..Scratch::SIZE], store);
    if top == 0 {
        return at;
    }
    xyz_run(
        block,
        at,
        atoms,
        &mut scratch[Scratch::FIRST_GEOMETRY..Scratch::SIZE],
        store,
    )
}
