// The values of MAX_XYZ and XYZ_FACTOR: document 02, L2 ("Both stand on their label line; an empty one or a further row is 9"). A value is without its comment.
ghost use Rattle.std.specs.Prelude.{◌≡◌, ◌<◌, IfSome, IfOk};
ghost use Rattle.format.specs.Bytes.{fields};
ghost use Rattle.format.specs.Rows.{number};
ghost use Rattle.format.specs.Coordinates.{factor_shape};
ghost use Rattle.format.specs.Reading.{only_field};
ghost use Rattle.factor.specs.ShownFactors.{OnlyIs, shown_factor, judged, FactorSmall};

use crate::{Factor, factor_of};
use fields::{Field, next_field};
use format::refusal::Refusal;
use numbers::number;

// The one field of a value; an empty part where it has none or more than one.
fn only_field(value: &[u8]) -> Field
    ensures { OnlyIs value.now result }
{
    let first = next_field(value, 0);
    let second = next_field(value, first.to);
    if second.from < second.to {
        return Field { from: 0, to: 0 };
    }
    first
}

// "MAX_XYZ is unsigned, 1 to 6 digits"
pub fn greatest_value(value: &[u8]) -> Option<u32>
    ensures says { result ≡ number (only_field (fields value.now)) }
    ensures small { IfSome result (λ n. n < 1000000) }
{
    let field = only_field(value);
    number(&value[field.from..field.to])
}

// The factor, or 9 where the value has no shape of one and 10 where it is zero.
pub fn factor_value(value: &[u8]) -> Result<Factor, Refusal>
    ensures says { shown_factor result ≡ judged (factor_shape (only_field (fields value.now))) }
    ensures small { IfOk result FactorSmall }
{
    let field = only_field(value);
    factor_of(&value[field.from..field.to])
}
