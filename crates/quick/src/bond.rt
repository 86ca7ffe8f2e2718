// A quick row of BONDLIST: document 01, "Rows".
ghost use Rattle.std.specs.Prelude.{IfSome};
ghost use Rattle.quick.specs.Pieces.{KindIs};
ghost use Rattle.quick.specs.Quick.{BondIs};

use crate::parts::{end_at, number_at};
use rows::bond::BondRow;

// A row's values and the next line's place.
#[derive(Clone, Copy)]
pub struct QuickBond {
    pub row: BondRow,
    pub next: usize,
}

// The longest row: `123 456 S`, and a line's end.
const LONGEST: usize = 11;

// "S, D, T, Q or A": the kinds of A to T, three bits a letter, 0 for one that is none. One number, since a table would be laid out anew at each use.
const KINDS: u64 = 451485862643893253;

// The kind that a letter says, if it says one.
fn kind_of(letter: u8) -> Option<u32>
    ensures { IfSome result (KindIs letter) }
{
    if letter < b'A' || b'T' < letter {
        return None;
    }
    let shift = 3 * u64::from(letter - b'A');
    let kind = ((KINDS >> shift) % 8) as u32;
    if kind == 0 {
        return None;
    }
    Some(kind)
}

// The row at a line's first byte: "two atoms and S, D, T, Q or A", one space between them and nothing else on the line. The longest is 11 bytes; one that stands so
// near to the block's end that these are not there is not read here.
pub fn quick_bond(block: &[u8], at: usize) -> Option<QuickBond>
    ensures { IfSome result (BondIs block.now at) }
{
    if block.len() < LONGEST || block.len() - LONGEST < at {
        return None;
    }
    let first = number_at(block, at)?;
    let second = number_at(block, first.to)?;
    let kind = kind_of(block[second.to])?;
    let next = end_at(block, second.to + 1)?;
    let row = BondRow {
        first: first.number,
        second: second.number,
        kind,
    };
    Some(QuickBond { row, next })
}
