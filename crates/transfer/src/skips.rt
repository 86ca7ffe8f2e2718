// Lines that cannot matter are passed over, byte by byte, with no look at their labels: those that do not start with `#`, and for the walk those whose label starts with
// another letter than TITLE and END.
ghost use Rattle.std.specs.Prelude.{◌≡◌, true, ◌+◌, ◌≤◌, ◌<◌, length, drop};
ghost use Rattle.transfer.specs.Skipping.{any_byte, turning, starts, skipped, starts_at};

use alphabet::kind::Kind;

// Any byte: every label counts.
pub(crate) struct Any;

impl Kind for Any {
    ghost holds = { any_byte };

    fn has(_b: u8) -> bool {
        true
    }
}

// A byte that is no letter of another label than TITLE and END: "For comparison letters become upper case".
pub(crate) struct Turning;

impl Kind for Turning {
    ghost holds = { turning };

    #[tactic(auto, unfolding(crate::specs::Skipping::turning, crate::specs::Skipping::foreign, lists::specs::Lists::any, format::specs::Rows::upper, format::specs::Rows::lower, format::specs::Bytes::within))]
    fn has(b: u8) -> bool {
        match b {
            b'T' | b't' | b'E' | b'e' => true,
            b'A'..=b'Z' | b'a'..=b'z' => false,
            _ => true,
        }
    }
}

// What stands for a byte that is not there, in the definition too; it is of no letter's kind.
const NONE: u8 = 0;

// Whether a line with these bytes in front is looked at: it starts with `#`, and the first byte of its label is of the kind that counts.
fn heeded<K: Kind>(rest: &[u8]) -> bool
    requires { 0 < length rest.now }
    ensures { result ≡ starts K.holds rest.now }
{
    rest[0] == b'#' && K::has(rest.get(2).copied().unwrap_or(NONE))
}

// Whether a line that is looked at starts at `i`, where a line starts at `at`: a line feed, or the place it started from, stands before it.
fn starts_at<K: Kind>(file: &[u8], at: usize, i: usize) -> bool
    requires { (at ≤ i) × (i < length file.now) }
    ensures { result ≡ starts_at K.holds file.now at i }
{
    heeded::<K>(&file[i..]) && (i == at || file[i - 1] == b'\n')
}

// Where the first line from `at` on starts that is looked at; no other can be a label line, or where only TITLE and END count, one of theirs.
pub(crate) fn skip_to_label<K: Kind>(file: &[u8], at: usize) -> usize
    ensures { result ≡ at + skipped K.holds true (drop at file.now) }
{
    for i in at..file.len() {
        if starts_at::<K>(file, at, i) {
            return i;
        }
    }
    at.max(file.len())
}
