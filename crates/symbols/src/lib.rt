// A symbol: document 01, "Rows" ("A symbol is an upper-case letter and at most one lower-case letter, before it optionally `^` and 1 to 3 digits").
#![tactic(auto)]

pub mod groups; // groups.rt: words of one letter

ghost use Rattle.std.specs.Prelude.{◌≡◌, ◌<◌, false, IfSome};
ghost use Rattle.std.specs.Option.{option_map};
ghost use Rattle.format.specs.Rows.{lettered, massed, symbol};
ghost use Rattle.symbols.specs.ShownSymbols.{sym_of_mark};

use alphabet::kind::{Digits, run_end};
use alphabet::{is_lower, is_upper};

// Caret and mass stand side by side as in the definitions' symbol, which a mark is field by field.
// A symbol's caret, its mass (0 where there is none) and its letters; the second is 0 where there is one letter.
#[derive(Clone, Copy, Debug, PartialEq, Eq)]
pub struct Mark {
    pub caret: bool,
    pub mass: u32,
    pub first: u8,
    pub second: u8,
}

impl Mark {
    // The symbol of these letters, without a caret.
    pub fn plain(first: u8, second: u8) -> Mark
        ensures { result ≡ record { caret = false; mass = 0; first = first; second = second } }
    {
        Mark {
            caret: false,
            mass: 0,
            first,
            second,
        }
    }
}

// The letters of a symbol: "an upper-case letter and at most one lower-case letter".
fn letters(caret: bool, mass: u32, word: &[u8]) -> Option<Mark>
    ensures says { option_map sym_of_mark result ≡ lettered caret mass word.now }
    ensures kept { IfSome result (λ m. m.mass ≡ mass) }
{
    match *word {
        [first] => is_upper(first).then_some(Mark {
            caret,
            mass,
            first,
            second: 0,
        }),
        [first, second] => (is_upper(first) && is_lower(second)).then_some(Mark {
            caret,
            mass,
            first,
            second,
        }),
        _ => None,
    }
}

// What stands behind a `^`: "1 to 3 digits", and the letters.
fn with_mass(word: &[u8]) -> Option<Mark>
    ensures says { option_map sym_of_mark result ≡ massed word.now }
    ensures small { IfSome result (λ m. m.mass < 1000) }
{
    let end = run_end::<Digits>(word, 0);
    let mass = numbers::mass(&word[..end])?;
    letters(true, mass, &word[end..])
}

// The symbol that a word is.
pub fn symbol(word: &[u8]) -> Option<Mark>
    ensures says { option_map sym_of_mark result ≡ symbol word.now }
    ensures small { IfSome result (λ m. m.mass < 1000) }
{
    let (first, rest) = word.split_first()?;
    if *first == b'^' {
        return with_mass(rest);
    }
    letters(false, 0, word)
}
