// The elements by their rank in the formula, and the number that an element with its mass has there: document 01, "The one written form": "C, H, then by symbol,
// a shorter symbol before its extension; no mass before ascending masses".
ghost use Rattle.std.specs.Prelude.{◌≡◌, ◌≤◌};
ghost use Rattle.format.specs.Structure.{isotope_of};
ghost use Rattle.tally.specs.Ranks.{rank_of, element_of, key_if};

use crate::ranks::{ELEMENTS, RANKS};

// A key is the rank times this, plus the mass: more than the highest mass, so that keys tell rank and mass apart.
pub const MASSES: u32 = 512;

// The key of hydrogen without mass, whose rank is 2.
pub(crate) const HYDROGEN: u32 = 2 * MASSES;

// An element's rank. Most atoms are C, H, N or O, which are not looked up: a table is laid on the stack where it is read.
fn rank_of(element: u32) -> u32
    requires { (1 ≤ element) × (element ≤ 103) }
    ensures { (result ≤ 103) × (result ≡ rank_of element) }
{
    match element {
        1 => 2,
        6 => 1,
        7 => 55,
        8 => 63,
        _ => u32::from(RANKS[element as usize]),
    }
}

// 0 for none is the definition's own answer, `element_of`, and it is printed as no symbol.
// The element that has a rank, 1 to 103, by the table; 0 for any other number.
fn listed(rank: u32) -> u32
    ensures { result ≡ element_of rank }
{
    ELEMENTS
        .get(rank as usize)
        .map_or(0, |&element| u32::from(element))
}

// The same, with C, H, N and O told at once.
pub fn element_of(rank: u32) -> u32
    ensures { result ≡ element_of rank }
{
    match rank {
        1 => 6,
        2 => 1,
        55 => 7,
        63 => 8,
        _ => listed(rank),
    }
}

// The key of an element and a mass; none where no atom of a sound table has them.
pub fn key_of(element: u32, mass: u32) -> Option<u32>
    ensures { result ≡ key_if (isotope_of element mass) }
{
    if element < 1 || 103 < element || 300 < mass {
        return None;
    }
    Some(MASSES * rank_of(element) + mass)
}
