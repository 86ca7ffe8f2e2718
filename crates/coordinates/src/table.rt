// The lent table of positions: document 02, L2 ("1,024 64-bit floats (per atom 1 if given, X, Y, Z; else four 0), cleared on refusals other than 1").
ghost use Rattle.std.specs.Prelude.{◌≡◌, ◌++◌, ◌∷◌, [], ◌+◌, ◌≤◌, ◌<◌, length, take, drop};
ghost use Rattle.format.specs.Table.{noughts};
ghost use Rattle.coordinates.specs.ShownPositions.{shown_position, has_place, placed, position_at, fronted};

use crate::Point;
use format::Table;

// The caller lends the numbers, so the type holds nothing of its own.
#[derive(Clone, Copy)]
pub struct Positions;

impl Positions {
    // How many numbers the table has, how many atoms, and how many numbers an atom.
    pub const SIZE: usize = Self::WIDTH * Self::ATOMS;

    pub const ATOMS: usize = Table::ATOMS;

    pub const WIDTH: usize = 4;
}

// 1 and the coordinates, or four zeros: C hosts read the lent floats so.
const GIVEN: f64 = 1.0;

const NOUGHT: f64 = 0.0;

// Whether a table of so many numbers has a place for the atom, which is numbered from 1.
#[tactic(auto, unfolding(crate::specs::ShownPositions::has_place, format::specs::Bytes::within))]
pub(crate) fn has_place(length: usize, atom: u32) -> bool
    ensures { result ≡ has_place length atom }
{
    let atom = atom as usize;
    1 <= atom && atom <= Positions::ATOMS && Positions::WIDTH * atom <= length
}

// Four numbers of the table.
fn put(positions: &mut [f64], at: usize, given: f64, x: f64, y: f64, z: f64)
    requires { at + 4 ≤ length positions.old }
    ensures { positions.new ≡ take at positions.old ++ ((given ∷ x ∷ y ∷ z ∷ []) ++ drop (at + 4) positions.old) }
{
    positions[at] = given;
    positions[at + 1] = x;
    positions[at + 2] = y;
    positions[at + 3] = z;
}

// An atom's position in the table; where the table has no place for the atom, nothing is touched.
pub fn place(positions: &mut [f64], atom: u32, position: Option<Point>)
    ensures { positions.new ≡ placed positions.old atom (shown_position position) }
{
    if !has_place(positions.len(), atom) {
        return;
    }
    let at = Positions::WIDTH * (atom as usize - 1);
    match position {
        Some(point) => put(positions, at, GIVEN, point.x, point.y, point.z),
        None => put(positions, at, NOUGHT, NOUGHT, NOUGHT, NOUGHT),
    }
}

// The position that the table has for an atom: none where its first number is not 1, or where the table has no place for the atom.
pub fn position(positions: &[f64], atom: u32) -> Option<Point>
    ensures { shown_position result ≡ position_at positions.now atom }
{
    if !has_place(positions.len(), atom) {
        return None;
    }
    let at = Positions::WIDTH * (atom as usize - 1);
    if positions[at] == GIVEN {
        return Some(Point {
            x: positions[at + 1],
            y: positions[at + 2],
            z: positions[at + 3],
        });
    }
    None
}

// The 1,024 numbers are 0; those beyond stay. A table shorter than that is untouched.
pub fn clear(positions: &mut [f64])
    ensures { positions.new ≡ fronted (noughts 1024) positions.old }
{
    if positions.len() < Positions::SIZE {
        return;
    }
    positions[..Positions::SIZE].fill(NOUGHT);
}
