// Lines of ATOMLIST: document 01, "Rows". "Numbers run 1, 2, 3 and on.", so that an atom joins behind those that are there. A refusal is handed on with the line's
// place. What no reading lends, another length or more atoms than 256, is answered Unlent, and nothing is touched.
#![tactic(auto)]

ghost use Rattle.std.specs.Prelude.{◌≡◌, List, [], ◌∷◌, ◌*◌, ◌≤◌, ◌<◌, length};
ghost use Rattle.std.specs.declared.option.Option.TheVariants.{Some};
ghost use Rattle.std.proofs.lemmas.List.Edits.{sets};
ghost use Rattle.format.specs.Bytes.{fields};
ghost use Rattle.format.specs.Structure.{Atom};
ghost use Rattle.rows.specs.Answers.{atom_row_of};
ghost use Rattle.sorted.specs.Steps.{atom_after, atom_step};
ghost use Rattle.sorted.specs.Regions.{kinds_region};
ghost use Rattle.sorted.specs.Shown.{ShowsAfter, ShowsLine, KeptWithin, LineUntouched};

use format::Table;
use format::refusal::{Refusal, Refused};
use rows::atom::{AtomRow, atom_row};
use sorted::keyed::is_bare;
use sorted::scratch::Scratch;

// One atom more behind those that are there: its element, its mass and its implied hydrogens. A region of another length or without room is untouched.
pub fn put_atom(region: &mut [u32], atoms: usize, element: u32, mass: u32, hydrogens: u32)
    ensures { (length region.new ≡ length region.old) × (length region.old ≡ 768 → atoms < 256 → region.new ≡ sets region.old (3 * atoms) (element ∷ mass ∷ hydrogens ∷ []))
        × ((length region.old ≡ 768 → ⊥) → region.new ≡ region.old) × (256 ≤ atoms → region.new ≡ region.old) }
{
    if region.len() != Scratch::KINDS || Table::ATOMS <= atoms {
        return;
    }
    let at = 3 * atoms;
    region[at] = element;
    region[at + 1] = mass;
    region[at + 2] = hydrogens;
}

// What an atom whose values are in hand leaves of the atoms, so many there and the elements known up to `last`: 10 out of range, 11 another number than the next, 12
// an unknown symbol, 14 one atom too many.
fn atom_joined(row: AtomRow, last: u32, atoms: usize, region: &mut [u32]) -> Result<usize, Refusal>
    requires { (length region.old ≡ 768) × (atoms ≤ 256) }
    ensures { (length region.new ≡ length region.old) × KeptWithin 256 result × ((listed : List Atom) → length listed ≡ atoms → region.old ≡ kinds_region listed →
        ShowsAfter kinds_region region.new result (atom_after last listed (Some (atom_row_of row)))) }
{
    if !elements::mass_fits(row.mark) || 15 < row.hydrogens {
        return Err(Refusal::Range);
    }
    let next = atoms + 1;
    if row.number as usize != next {
        return Err(Refusal::AtomNumber);
    }
    let isotope = elements::isotope_of(row.mark, last);
    if isotope.element == 0 {
        return Err(Refusal::Symbol);
    }
    if Table::ATOMS <= atoms {
        return Err(Refusal::Full);
    }
    put_atom(region, atoms, isotope.element, isotope.mass, row.hydrogens);
    Ok(next)
}

// A line without a field leaves the atoms as they are, a row joins them.
fn line_joined(line: &[u8], last: u32, atoms: usize, region: &mut [u32]) -> Result<usize, Refusal>
    requires { (length region.old ≡ 768) × (atoms ≤ 256) }
    ensures { (length region.new ≡ length region.old) × KeptWithin 256 result × ((listed : List Atom) → length listed ≡ atoms → region.old ≡ kinds_region listed →
        ShowsAfter kinds_region region.new result (atom_step last listed (fields line.now))) }
{
    if is_bare(line) {
        return Ok(atoms);
    }
    let row = atom_row(line)?;
    atom_joined(row, last, atoms, region)
}

// What a line of ATOMLIST leaves of the atoms: "number, symbol, optional hydrogens 0 to 15 (absent means 0)". The line is without its comment; `place` is where it
// stands in its block.
pub fn atom_line(
    line: &[u8],
    place: usize,
    last: u32,
    atoms: usize,
    region: &mut [u32],
) -> Result<usize, Refused>
    ensures { (length region.new ≡ length region.old) × (length region.old ≡ 768 → atoms ≤ 256 → KeptWithin 256 result × ((listed : List Atom) → length listed ≡ atoms → region.old ≡ kinds_region listed →
        ShowsLine kinds_region place region.new result (atom_step last listed (fields line.now))))
        × ((length region.old ≡ 768 → atoms ≤ 256 → ⊥) → LineUntouched place region.old region.new result) }
{
    if region.len() != Scratch::KINDS || Table::ATOMS < atoms {
        return Err(Refusal::Unlent.at(place));
    }
    line_joined(line, last, atoms, region).map_err(|refusal| refusal.at(place))
}
