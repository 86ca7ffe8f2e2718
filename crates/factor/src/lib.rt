// The factor of XYZ rows: document 02, L2 ("The factor is 1 to 9 digits with at most one point, anywhere, no sign or exponent").
#![tactic(auto)]

pub mod scale; // scale.rt: a row's whole number in Angstrom
pub mod values; // values.rt: the values of MAX_XYZ and XYZ_FACTOR on their label lines

ghost use Rattle.std.specs.Prelude.{◌≡◌, suc, ◌-◌, ◌^◌, ◌≤◌, ◌<◌, ◌++◌, length, take, drop, IfSome, IfOk};
ghost use Rattle.lists.specs.Lists.{span};
ghost use Rattle.format.specs.Rows.{digits_of, number_from};
ghost use Rattle.format.specs.Coordinates.{unpointed, factor_shape};
ghost use Rattle.factor.specs.ShownFactors.{shown_factor, judged, factor_from, FactorSmall};

use alphabet::digit;
use format::refusal::Refusal;

// "The factor is kept with its value as a float beside its digits": the digits without the point, how many stood behind it, and the value.
#[derive(Clone, Copy)]
pub struct Factor {
    pub digits: u32,
    pub decimals: u32,
    pub value: f64,
}

// A word parted at its first point: what stands in front of it and what behind it.
#[derive(Clone, Copy)]
struct Parts<'a> {
    front: &'a [u8],
    behind: &'a [u8],
}

const MOST_DIGITS: usize = 9;

// The two parts of a word; all of it is in front where it has no point.
fn parts_of(word: &[u8]) -> Parts<'_>
    ensures front { result.front.now ≡ take (span unpointed word.now) word.now }
    ensures behind { result.behind.now ≡ drop (suc (span unpointed word.now)) word.now }
{
    match word.iter().position(|b| *b == b'.') {
        Some(point) => Parts {
            front: &word[..point],
            behind: &word[point + 1..],
        },
        None => Parts {
            front: word,
            behind: &[],
        },
    }
}

// Beside `numbers::digits`: a reader for both would ask its callers for a bound on `before`, and nothing that another crate calls may.
// The number that the digits of a part say behind those that say `before`.
fn digits_behind(before: u32, part: &[u8]) -> Option<u32>
    requires { (length part.now ≤ 9) × (before < 10 ^ (9 - length part.now)) }
    ensures says { result ≡ number_from before part.now }
    ensures small { IfSome result (λ n. n < 1000000000) }
{
    let mut n = before;
    for d in part {
        n = n * 10 + digit(*d)?;
    }
    Some(n)
}

// The number that the word says without its first point, in 1 to 9 digits.
fn digits_of(parts: Parts<'_>) -> Option<u32>
    ensures says { result ≡ digits_of 9 (parts.entry.front.now ++ parts.entry.behind.now) }
    ensures small { IfSome result (λ n. n < 1000000000) }
{
    let count = parts.front.len() + parts.behind.len();
    if count < 1 || MOST_DIGITS < count {
        return None;
    }
    let front = digits_behind(0, parts.front)?;
    digits_behind(front, parts.behind)
}

// The factor of these digits and decimals, with its value.
pub fn factor_from(digits: u32, decimals: u32) -> Factor
    ensures { result ≡ factor_from digits decimals }
{
    let value = scale::quotient(i64::from(digits), decimals);
    Factor {
        digits,
        decimals,
        value,
    }
}

// The value of XYZ_FACTOR, which is the field's: "shape .. faults as 9", "a zero factor as 10".
pub fn factor_of(word: &[u8]) -> Result<Factor, Refusal>
    ensures says { shown_factor result ≡ judged (factor_shape word.now) }
    ensures small { IfOk result FactorSmall }
{
    let parts = parts_of(word);
    let digits = digits_of(parts).ok_or(Refusal::Shape)?;
    if digits == 0 {
        return Err(Refusal::Range);
    }
    let decimals = parts.behind.len() as u32;
    Ok(factor_from(digits, decimals))
}
