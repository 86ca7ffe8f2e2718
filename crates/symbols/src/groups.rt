// Words of one letter: groups, kinds of bonds, P and M: document 01, "Rows".
ghost use Rattle.std.specs.Prelude.{◌≡◌, ◌+◌, ◌<◌, length, IfSome};
ghost use Rattle.format.specs.Bytes.{bytes};
ghost use Rattle.format.specs.Rows.{group, place_in};

use alphabet::{is_lower, is_upper};

// "optional group `0`, A to Z or a to z": the group's byte, 0 for `0`.
pub fn group(word: &[u8]) -> Option<u32>
    ensures says { result ≡ group word.now }
    ensures small { IfSome result (λ n. n < 123) }
{
    let [letter] = *word else {
        return None;
    };
    if letter == b'0' {
        return Some(0);
    }
    (is_upper(letter) || is_lower(letter)).then_some(u32::from(letter))
}

// The place of a word of one byte among some letters, counted from `first`. It stays a number: the table has the number in a cell, and the definitions say no more.
fn place_in(word: &[u8], letters: &[u8], first: u32) -> Option<u32>
    requires { first + length letters.now < 10 }
    ensures says { result ≡ place_in first word.now letters.now }
    ensures small { IfSome result (λ n. n < first + length letters.now) }
{
    let [letter] = *word else {
        return None;
    };
    for (i, known) in letters.iter().enumerate() {
        if *known == letter {
            return Some(first + i as u32);
        }
    }
    None
}

// "two atoms and S, D, T, Q or A": 1 to 5.
pub fn bond_kind(word: &[u8]) -> Option<u32>
    ensures says { result ≡ place_in 1 word.now (bytes "SDTQA") }
    ensures small { IfSome result (λ n. n < 6) }
{
    place_in(word, b"SDTQA", 1)
}

// "atom, P or M": 1 or 2.
pub fn hand(word: &[u8]) -> Option<u32>
    ensures says { result ≡ place_in 1 word.now (bytes "PM") }
    ensures small { IfSome result (λ n. n < 3) }
{
    place_in(word, b"PM", 1)
}

// "two atoms, P, M or 0": 0 for `0`, else 1 or 2.
pub fn pair_hand(word: &[u8]) -> Option<u32>
    ensures says { result ≡ place_in 0 word.now (bytes "0PM") }
    ensures small { IfSome result (λ n. n < 3) }
{
    place_in(word, b"0PM", 0)
}
