// A text without what is cut from its ends: document 01, "Lines and labels" ("with blanks and line feeds cut from both ends, the inside kept byte for byte").
ghost use Rattle.fields.specs.Trims.{Trimmed};

use crate::Field;
use alphabet::kind::{Gaps, run_end};

// The part of the text that is kept.
pub fn trimmed(text: &[u8]) -> Field
    ensures { Trimmed text.now result }
{
    let from = run_end::<Gaps>(text, 0);
    match text[from..].iter().rposition(|b| !alphabet::is_gap(*b)) {
        Some(last) => Field {
            from,
            to: from + last + 1,
        },
        None => Field { from, to: from },
    }
}
