// A quick row of XYZ: document 02, L2 ("Rows are an atom and three signed numbers of 1 to 6 digits").
ghost use Rattle.std.specs.Prelude.{IfSome};
ghost use Rattle.quick.specs.Quick.{XyzAt};

use crate::parts::{end_at, number_at, signed_at, spaced_at};
use rows::xyz::XyzRow;

// A row's values and the next line's place.
#[derive(Clone, Copy)]
pub struct QuickXyz {
    pub row: XyzRow,
    pub next: usize,
}

// The longest row: `123 -123456 -123456 -123456`, and a line's end.
const LONGEST: usize = 29;

// The row at a line's first byte: "an atom and three signed numbers", the atom of at most three digits, one space between them and nothing else on the line. The longest
// is 29 bytes; one that stands so near to the block's end that these are not there is not read here.
pub fn quick_xyz(block: &[u8], at: usize) -> Option<QuickXyz>
    ensures { IfSome result (XyzAt block.now at) }
{
    if block.len() < LONGEST || block.len() - LONGEST < at {
        return None;
    }
    let atom = number_at(block, at)?;
    let x = spaced_at(block, atom.to)?;
    let y = spaced_at(block, x.to)?;
    let z = signed_at(block, y.to)?;
    let next = end_at(block, z.to)?;
    let row = XyzRow {
        atom: atom.number,
        x: x.number,
        y: y.number,
        z: z.number,
    };
    Some(QuickXyz { row, next })
}
