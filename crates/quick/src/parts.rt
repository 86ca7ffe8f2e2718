// The pieces of quick rows: a number and the space behind it, a signed one, a symbol, a line's end, what may stand behind a symbol: document 01, "Lines and labels" and "Rows". For
// this crate alone.
ghost use Rattle.std.specs.Prelude.{◌≡◌, true, ◌+◌, ◌-◌, ◌<◌, ◌≤◌, length, IfSome};
ghost use Rattle.format.specs.Rows.{digit};
ghost use Rattle.quick.specs.Pieces.{NumberIs, EndIs, SymbolIs, TailIs, behind_minus, lifted_by, DigitsAre, SignedIs, SpacedIs};

use alphabet::{digit, is_digit, is_lower, is_upper};
use rows::xyz::LIFT;
use symbols::Mark;

// A number and the place behind its space.
#[derive(Clone, Copy)]
pub struct NumberAt {
    pub number: u32,
    pub to: usize,
}

// A symbol and the place behind it.
#[derive(Clone, Copy)]
pub struct SymbolAt {
    pub mark: Mark,
    pub to: usize,
}

// The implied hydrogens and the next line's place.
#[derive(Clone, Copy)]
pub struct Tail {
    pub hydrogens: u32,
    pub next: usize,
}

// What digits say, and the place behind them.
#[derive(Clone, Copy)]
pub struct Digits {
    pub value: u32,
    pub to: usize,
}

// A signed number, 1,000,000 above it, and the place behind it or behind its space.
#[derive(Clone, Copy)]
pub struct SignedAt {
    pub number: u32,
    pub to: usize,
}

// A signed number has at most so many digits.
const MOST_DIGITS: usize = 6;

// What a digit says. By a test and this, not by `alphabet::digit`: the Option of that is compiled into two comparisons more at each digit of a run of rows.
fn digit_value(byte: u8) -> u32
    requires { digit byte ≡ true }
    ensures { (result ≡ byte - 48) × (result < 10) }
{
    u32::from(byte - b'0')
}

// A number of 1 to 3 digits with one space behind it: "Fields are parted by blanks."
pub fn number_at(block: &[u8], at: usize) -> Option<NumberAt>
    requires { at + 4 ≤ length block.now }
    ensures { IfSome result (NumberIs block.now at) }
{
    let one = block[at];
    if !is_digit(one) {
        return None;
    }
    let units = digit_value(one);
    let two = block[at + 1];
    if two == b' ' {
        return Some(NumberAt {
            number: units,
            to: at + 2,
        });
    }
    if !is_digit(two) {
        return None;
    }
    let tens = units * 10 + digit_value(two);
    let three = block[at + 2];
    if three == b' ' {
        return Some(NumberAt {
            number: tens,
            to: at + 3,
        });
    }
    if !is_digit(three) {
        return None;
    }
    if block[at + 3] != b' ' {
        return None;
    }
    Some(NumberAt {
        number: tens * 10 + digit_value(three),
        to: at + 4,
    })
}

// A line feed, or a carriage return and a line feed: "A line ends with a line feed (10)", and a carriage return is a blank.
pub fn end_at(block: &[u8], at: usize) -> Option<usize>
    requires { at + 2 ≤ length block.now }
    ensures { IfSome result (EndIs block.now at) }
{
    let byte = block[at];
    if byte == b'\n' {
        return Some(at + 1);
    }
    if byte != b'\r' || block[at + 1] != b'\n' {
        return None;
    }
    Some(at + 2)
}

// A symbol without `^`: "an upper-case letter and at most one lower-case letter".
pub fn symbol_at(block: &[u8], at: usize) -> Option<SymbolAt>
    requires { at + 2 ≤ length block.now }
    ensures { IfSome result (SymbolIs block.now at) }
{
    let first = block[at];
    if !is_upper(first) {
        return None;
    }
    let second = block[at + 1];
    if is_lower(second) {
        return Some(SymbolAt {
            mark: Mark::plain(first, second),
            to: at + 2,
        });
    }
    Some(SymbolAt {
        mark: Mark::plain(first, 0),
        to: at + 1,
    })
}

// What stands behind the symbol: "optional hydrogens 0 to 15 (absent means 0)", here one space and one digit, and the line's end.
pub fn tail_at(block: &[u8], at: usize) -> Option<Tail>
    requires { at + 4 ≤ length block.now }
    ensures { IfSome result (TailIs block.now at) }
{
    if block[at] == b' ' {
        let hydrogens = digit(block[at + 1])?;
        let next = end_at(block, at + 2)?;
        return Some(Tail { hydrogens, next });
    }
    let next = end_at(block, at)?;
    Some(Tail { hydrogens: 0, next })
}

// The digits from `at` on, none or at most six.
fn digits_at(block: &[u8], at: usize) -> Digits
    requires { at + 6 ≤ length block.now }
    ensures { DigitsAre block.now at result }
{
    let mut value = 0;
    for to in at..at + MOST_DIGITS {
        let byte = block[to];
        if !is_digit(byte) {
            return Digits { value, to };
        }
        value = value * 10 + digit_value(byte);
    }
    Digits {
        value,
        to: at + MOST_DIGITS,
    }
}

// By two small functions, not by a `match`: so the run of rows has no branch more.
// The place behind a minus, if one stands at `at`.
fn behind_minus(block: &[u8], at: usize) -> usize
    requires { at < length block.now }
    ensures { result ≡ behind_minus block.now at }
{
    if block[at] == b'-' {
        return at + 1;
    }
    at
}

// A number of at most six digits, negative or not, 1,000,000 above it.
fn lifted_by(negative: bool, value: u32) -> u32
    requires { value < 1000000 }
    ensures { result ≡ lifted_by negative value }
{
    if negative { LIFT - value } else { LIFT + value }
}

// "signed numbers of 1 to 6 digits": here with a minus or no sign.
pub fn signed_at(block: &[u8], at: usize) -> Option<SignedAt>
    requires { at + 7 ≤ length block.now }
    ensures { IfSome result (SignedIs block.now at) }
{
    let from = behind_minus(block, at);
    let digits = digits_at(block, from);
    if digits.to == from {
        return None;
    }
    Some(SignedAt {
        number: lifted_by(at < from, digits.value),
        to: digits.to,
    })
}

// The same with one space behind it: "Fields are parted by blanks."
pub fn spaced_at(block: &[u8], at: usize) -> Option<SignedAt>
    requires { at + 8 ≤ length block.now }
    ensures { IfSome result (SpacedIs block.now at) }
{
    let signed = signed_at(block, at)?;
    if block[signed.to] != b' ' {
        return None;
    }
    Some(SignedAt {
        number: signed.number,
        to: signed.to + 1,
    })
}
