// A quick row of ATOMLIST: document 01, "Rows".
ghost use Rattle.std.specs.Prelude.{IfSome};
ghost use Rattle.quick.specs.Quick.{AtomIs};

use crate::parts::{number_at, symbol_at, tail_at};
use rows::atom::AtomRow;

// A row's values and the next line's place.
#[derive(Clone, Copy)]
pub struct QuickAtom {
    pub row: AtomRow,
    pub next: usize,
}

// The longest row: `123 Cl 15`, and a line's end.
const LONGEST: usize = 10;

// The row at a line's first byte: "number, symbol, optional hydrogens", the symbol without `^`, one space between them and nothing else on the line. The longest is
// 10 bytes; one that stands so near to the block's end that these are not there is not read here.
pub fn quick_atom(block: &[u8], at: usize) -> Option<QuickAtom>
    ensures { IfSome result (AtomIs block.now at) }
{
    if block.len() < LONGEST || block.len() - LONGEST < at {
        return None;
    }
    let atom = number_at(block, at)?;
    let symbol = symbol_at(block, atom.to)?;
    let tail = tail_at(block, symbol.to)?;
    let row = AtomRow {
        number: atom.number,
        mark: symbol.mark,
        hydrogens: tail.hydrogens,
    };
    Some(QuickAtom {
        row,
        next: tail.next,
    })
}
