// Fields of a line: "Fields are parted by blanks." The line's own line feed parts them too.
#![tactic(auto)]

pub mod texts; // texts.rt: a text without what is cut from its ends

ghost use Rattle.std.specs.Prelude.{◌≡◌, eqb};
ghost use Rattle.fields.specs.NextFields.{NextField};

use alphabet::kind::{Gaps, Ink, run_end};

// The part of a slice from one index up to another; where the two are equal there is none.
#[derive(Clone, Copy, Debug, PartialEq, Eq)]
pub struct Field {
    pub from: usize,
    pub to: usize,
}

impl Field {
    // Whether there is none.
    pub fn is_empty(self) -> bool
        ensures { result ≡ eqb self.from self.to }
    {
        self.from == self.to
    }
}

// The first field from `at` on; where there is none, its two ends are equal.
pub fn next_field(line: &[u8], at: usize) -> Field
    ensures { NextField line.now at result }
{
    let from = run_end::<Gaps>(line, at);
    let to = run_end::<Ink>(line, from);
    Field { from, to }
}
