// A row's whole number in Angstrom: document 02, L2 ("Each coordinate is the whole product of row value and factor digits, divided once by its power of ten").
ghost use Rattle.std.specs.Prelude.{◌≡◌, ◌≤◌, pos, nat_abs, ◌*ℤ◌};
ghost use Rattle.rows.specs.Raised.{lowered};
ghost use Rattle.factor.specs.ShownFactors.{factor_of, quotient_of, scaled};

use crate::Factor;
use rows::xyz::LIFT;

// A row's number stands so far above the signed one, and no row has a number twice as high.
const RAISE: i64 = LIFT as i64;

const MOST_RAISED: u32 = 2 * LIFT;

// The powers of ten, by the number of decimals; a factor has at most 9 digits, so as many decimals at most.
const POWERS: [u64; 10] = [
    1, 10, 100, 1000, 10000, 100000, 1000000, 10000000, 100000000, 1000000000,
];

// The whole number p, which is exact as a float, over a power of ten, rounded once; 0 where no factor has so many decimals.
pub(crate) fn quotient(p: i64, decimals: u32) -> f64
    requires { nat_abs p ≤ 9007199254740992 }
    ensures { result ≡ quotient_of p decimals }
{
    match POWERS.get(decimals as usize) {
        Some(power) => (p as f64) / (*power as f64),
        None => 0.0,
    }
}

// The whole product of a row's value, 1,000,000 above, and the factor's digits.
fn product(digits: u32, value: u32) -> i64
    requires { value ≤ 2000000 }
    ensures { (result ≡ lowered value *ℤ pos digits) × (nat_abs result ≤ 9007199254740992) }
{
    (i64::from(value) - RAISE) * i64::from(digits)
}

// The coordinate of a row's value, 1,000,000 above, by the factor; 0 where no row has such a value.
pub fn coordinate(factor: Factor, value: u32) -> f64
    ensures { result ≡ scaled (factor_of factor) (lowered value) }
{
    if MOST_RAISED < value {
        return 0.0;
    }
    quotient(product(factor.digits, value), factor.decimals)
}
