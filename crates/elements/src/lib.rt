// The element and the mass of a symbol: document 01, "Rows", ATOMLIST.
#![tactic(auto)]

mod places; // places.rt: the elements by their letters

ghost use Rattle.std.specs.Prelude.{◌≡◌, false, [], ◌∷◌, take};
ghost use Rattle.format.specs.Rows.{sym_of};
ghost use Rattle.format.specs.Structure.{symbols, place_of, letters, isotope, mass_ok, heavy};
ghost use Rattle.elements.specs.Spelling.{up_to};
ghost use Rattle.symbols.specs.ShownSymbols.{sym_of_mark};
ghost use Rattle.elements.specs.Shown.{isotope_shown};

use crate::places::entry_at;
use symbols::Mark;

// An element (0 unknown) and a mass (0 none): the zeros are the definitions' own, and the table has them in its cells.
#[derive(Clone, Copy, Debug, PartialEq, Eq)]
pub struct Isotope {
    pub element: u32,
    pub mass: u32,
}

// "Symbols are those of elements 1 (H) to 103 (Lr)": the element of one letter; 0 where there is none. Most atoms have one letter.
fn letter_element(letter: u8) -> u32
    ensures { result ≡ place_of 1 (letter ∷ []) symbols }
{
    match letter {
        b'B' => 5,
        b'C' => 6,
        b'F' => 9,
        b'H' => 1,
        b'I' => 53,
        b'K' => 19,
        b'N' => 7,
        b'O' => 8,
        b'P' => 15,
        b'S' => 16,
        b'U' => 92,
        b'V' => 23,
        b'W' => 74,
        b'Y' => 39,
        _ => 0,
    }
}

// An element that is among the first `last`, or 0.
fn among(element: u32, last: u32) -> u32
    ensures { result ≡ up_to last element }
{
    if element <= last { element } else { 0 }
}

// The element, 1 to `last`, of a symbol of one letter (second 0) or two; 0 where there is none. "Symbols are those of elements 1 (H) to 103 (Lr)."
fn element_of(first: u8, second: u8, last: u32) -> u32
    ensures { result ≡ place_of 1 (letters (sym_of false 0 first second)) (take last symbols) }
{
    match (first, second) {
        (_, 0) => among(letter_element(first), last),
        (b'A'..=b'Z', b'a'..=b'z') => {
            let upper = usize::from(first - b'A');
            let lower = usize::from(second - b'a');
            among(entry_at(upper * 27 + lower + 1), last)
        }
        _ => 0,
    }
}

// Hydrogen of a mass that has a letter of its own, "and take no `^`".
fn heavy_hydrogen(caret: bool, mass: u32) -> Isotope
    ensures { isotope_shown result ≡ heavy caret mass }
{
    if caret {
        return Isotope {
            element: 0,
            mass: 0,
        };
    }
    Isotope { element: 1, mass }
}

// The element, 1 to `last`, and the mass of a symbol; element 0 where it is unknown. "D and T are hydrogen of mass 2 and 3 and take no `^` (refused 12)."
// Laid into its callers, but for the table's words: the run of quick rows asks it of every atom.
#[inline(always)]
pub fn isotope_of(mark: Mark, last: u32) -> Isotope
    ensures { isotope_shown result ≡ isotope last (sym_of_mark mark) }
{
    match (mark.first, mark.second) {
        (b'D', 0) => heavy_hydrogen(mark.caret, 2),
        (b'T', 0) => heavy_hydrogen(mark.caret, 3),
        (first, second) => Isotope {
            element: element_of(first, second, last),
            mass: mark.mass,
        },
    }
}

// Whether the mass is in its range: "mass 1 to 300".
pub fn mass_fits(mark: Mark) -> bool
    ensures { result ≡ mass_ok (sym_of_mark mark) }
{
    !mark.caret || matches!(mark.mass, 1..=300)
}
