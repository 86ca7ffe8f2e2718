// Positions of atoms: document 02, L2 ("An atom's position is either three coordinates in Angstrom or not given").
#![tactic(auto)]

pub mod fill; // fill.rt: the whole table from the kept rows
pub mod kept; // kept.rt: the rows' whole numbers, kept until the factor is known
pub mod table; // table.rt: the lent table of 1,024 floats

ghost use Rattle.std.specs.Prelude.{◌≡◌};
ghost use Rattle.rows.specs.Raised.{xyz_row_of};
ghost use Rattle.factor.specs.ShownFactors.{factor_of};
ghost use Rattle.coordinates.specs.ShownPositions.{shown_point, row_position};

use factor::Factor;
use factor::scale::coordinate;
use rows::xyz::XyzRow;

// Three coordinates in Angstrom: a position that is given.
#[derive(Clone, Copy)]
pub struct Point {
    pub x: f64,
    pub y: f64,
    pub z: f64,
}

// The position that a row's three numbers give by the factor.
pub fn row_position(factor: Factor, row: XyzRow) -> Point
    ensures { shown_point result ≡ row_position (factor_of factor) (xyz_row_of row) }
{
    Point {
        x: coordinate(factor, row.x),
        y: coordinate(factor, row.y),
        z: coordinate(factor, row.z),
    }
}
