// One row of XYZ more in the region of the geometry: document 02, L2 ("Rows are an atom and three signed numbers"). For this crate alone.
ghost use Rattle.std.specs.Prelude.{◌≡◌, length};
ghost use Rattle.geometry.specs.Cells.{size_of, largest_by, row_put};

use rows::xyz::{LIFT, XyzRow};
use sorted::scratch::Scratch;
use std::num::wrapping_add_u32;

// How far a number is from 0, given 1,000,000 above it.
fn size_of(raised: u32) -> u32
    ensures { result ≡ size_of raised }
{
    raised.abs_diff(LIFT)
}

// The largest size among a row's numbers and that of the rows before.
fn largest_by(row: XyzRow, before: u32) -> u32
    ensures { result ≡ largest_by row before }
{
    size_of(row.x).max(size_of(row.y).max(size_of(row.z).max(before)))
}

// The row as the latest one, counted, and the largest size.
pub fn put_row(region: &mut [u32], row: XyzRow)
    requires { length region.old ≡ 9 }
    ensures { region.new ≡ row_put region.old row }
{
    let count = wrapping_add_u32(region[Scratch::ROWS], 1);
    let largest = largest_by(row, region[Scratch::LARGEST]);
    region[Scratch::ROWS] = count;
    region[Scratch::LARGEST] = largest;
    region[Scratch::LATEST] = row.atom;
    region[Scratch::LATEST + 1] = row.x;
    region[Scratch::LATEST + 2] = row.y;
    region[Scratch::LATEST + 3] = row.z;
}
