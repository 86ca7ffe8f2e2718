// Kinds of bytes as types, and where a run of bytes of one kind ends: document 01, "Rows" ("Fields are parted by blanks"; a number's digits).
ghost use Rattle.std.specs.Prelude.{◌≡◌, Bool, ℕ, not};
ghost use Rattle.format.specs.Bytes.{gap, ink};
ghost use Rattle.format.specs.Rows.{digit};
ghost use Rattle.alphabet.specs.Runs.{RunEnd};

use crate::{is_digit, is_gap};

// A kind of bytes.
pub trait Kind {
    ghost holds: { ℕ → Bool };

    // Whether a byte is of the kind.
    fn has(b: u8) -> bool
        ensures { result ≡ holds b };
}

// Blanks and line feeds.
pub struct Gaps;

impl Kind for Gaps {
    ghost holds = { gap };

    fn has(b: u8) -> bool {
        is_gap(b)
    }
}

// All other bytes.
pub struct Ink;

impl Kind for Ink {
    ghost holds = { ink };

    fn has(b: u8) -> bool {
        !is_gap(b)
    }
}

// 0 to 9
pub struct Digits;

impl Kind for Digits {
    ghost holds = { digit };

    fn has(b: u8) -> bool {
        is_digit(b)
    }
}

// Where the run of bytes of the kind ends that starts at `at`.
pub fn run_end<K: Kind>(line: &[u8], at: usize) -> usize
    ensures { RunEnd K.holds line.now at result }
{
    for i in at..line.len() {
        if !K::has(line[i]) {
            return i;
        }
    }
    at.max(line.len())
}
