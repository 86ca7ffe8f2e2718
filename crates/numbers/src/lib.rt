// Numbers that a word says: document 01, "Rows".
#![tactic(auto)]

ghost use Rattle.std.specs.Prelude.{◌≡◌, ◌≤◌, ◌<◌, ◌^◌, nat_abs, IfSome};
ghost use Rattle.format.specs.Rows.{digits_of, number, natural, negative, signed};

// The number that 1 to `most` digits say.
fn digits(word: &[u8], most: usize) -> Option<u32>
    requires { most ≤ 6 }
    ensures says { result ≡ digits_of most word.now }
    ensures small { IfSome result (λ n. n < 10 ^ most) }
{
    if word.is_empty() {
        return None;
    }
    if most < word.len() {
        return None;
    }
    let mut n = 0;
    for d in word {
        n = n * 10 + alphabet::digit(*d)?;
    }
    Some(n)
}

// "An unsigned number is 1 to 6 digits"
pub fn number(word: &[u8]) -> Option<u32>
    ensures says { result ≡ number word.now }
    ensures small { IfSome result (λ n. n < 1000000) }
{
    digits(word, 6)
}

// The digits of a mass: "before it optionally `^` and 1 to 3 digits"
pub fn mass(word: &[u8]) -> Option<u32>
    ensures says { result ≡ digits_of 3 word.now }
    ensures small { IfSome result (λ n. n < 1000) }
{
    digits(word, 3)
}

// A number without a sign, or behind a plus.
pub fn natural(word: &[u8]) -> Option<i32>
    ensures says { result ≡ natural word.now }
    ensures small { IfSome result (λ z. nat_abs z < 1000000) }
{
    let n = number(word)?;
    Some(n as i32)
}

// A number behind a minus.
fn negative(word: &[u8]) -> Option<i32>
    ensures says { result ≡ negative word.now }
    ensures small { IfSome result (λ z. nat_abs z < 1000000) }
{
    let n = number(word)?;
    Some(-(n as i32))
}

// "a signed one may have `+` or `-` before them"
pub fn signed(word: &[u8]) -> Option<i32>
    ensures says { result ≡ signed word.now }
    ensures small { IfSome result (λ z. nat_abs z < 1000000) }
{
    let (sign, rest) = word.split_first()?;
    match *sign {
        b'+' => natural(rest),
        b'-' => negative(rest),
        _ => natural(word),
    }
}
