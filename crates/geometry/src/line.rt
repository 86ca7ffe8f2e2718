// A line of MAX_XYZ, XYZ_FACTOR or XYZ: document 02, L2. "A row is answered as its values or a refusal with its reason": a refusal is handed on with the line's place.
ghost use Rattle.std.specs.Prelude.{◌≡◌, ℕ, length};
ghost use Rattle.format.specs.Labels.{MaxXyz, XyzFactor, XyzRows};
ghost use Rattle.geometry.specs.LineNoted.{record_of, TurnNoted, LineNoted};

use crate::put::put_row;
use factor::values::{factor_value, greatest_value};
use format::refusal::{Refusal, Refused};
use rows::xyz::xyz_row;
use sorted::keyed::is_bare;
use sorted::scratch::Scratch;

// Numbers, since `geometry_line` answers for any code (docs/PROMISES.md). The codes of the labels with a value on their line.
const MAX_XYZ: u32 = 14;

const XYZ_FACTOR: u32 = 15;

// "MAX_XYZ is unsigned, 1 to 6 digits"; "an empty one .. is 9".
fn greatest_line(line: &[u8], region: &mut [u32]) -> Result<(), Refusal>
    requires { length region.old ≡ 9 }
    ensures { (atoms : ℕ) → TurnNoted MaxXyz line.now atoms region.old region.new result }
{
    let greatest = greatest_value(line).ok_or(Refusal::Shape)?;
    region[Scratch::GREATEST] = greatest;
    Ok(())
}

// "The factor is 1 to 9 digits with at most one point"; "a zero factor as 10".
fn factor_line(line: &[u8], region: &mut [u32]) -> Result<(), Refusal>
    requires { length region.old ≡ 9 }
    ensures { (atoms : ℕ) → TurnNoted XyzFactor line.now atoms region.old region.new result }
{
    let factor = factor_value(line)?;
    region[Scratch::DIGITS] = factor.digits;
    region[Scratch::DECIMALS] = factor.decimals;
    Ok(())
}

// "atoms ascending, not all needed": 11 for an atom that is not listed, then 13 for one not above the latest. There are never more rows than atoms.
fn row_line(line: &[u8], atoms: usize, region: &mut [u32]) -> Result<(), Refusal>
    requires { length region.old ≡ 9 }
    ensures { TurnNoted XyzRows line.now atoms region.old region.new result }
{
    if is_bare(line) {
        return Ok(());
    }
    let row = xyz_row(line)?;
    if row.atom < 1 || atoms < row.atom as usize {
        return Err(Refusal::AtomNumber);
    }
    if row.atom <= region[Scratch::LATEST] {
        return Err(Refusal::Clash);
    }
    put_row(region, row);
    Ok(())
}

// By the code.
fn turn_line(line: &[u8], code: u32, atoms: usize, region: &mut [u32]) -> Result<(), Refusal>
    requires { length region.old ≡ 9 }
    ensures { TurnNoted (record_of code) line.now atoms region.old region.new result }
{
    match code {
        MAX_XYZ => greatest_line(line, region),
        XYZ_FACTOR => factor_line(line, region),
        _ => row_line(line, atoms, region),
    }
}

// The line at `place`, without its comment, of the record with that code (14 MAX_XYZ, 15 XYZ_FACTOR, any other XYZ): the value on the label line, or a further row of XYZ.
// `atoms` atoms are listed. A region of another length is answered Unlent, and nothing is touched.
pub fn geometry_line(
    line: &[u8],
    place: usize,
    code: u32,
    atoms: usize,
    region: &mut [u32],
) -> Result<(), Refused>
    ensures { LineNoted line.now place code atoms region.old region.new result }
{
    if region.len() != Scratch::GEOMETRY {
        return Err(Refusal::Unlent.at(place));
    }
    turn_line(line, code, atoms, region).map_err(|refusal| refusal.at(place))
}
