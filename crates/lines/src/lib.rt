// Lines of a block, and what one line holds: document 01, "Lines and labels" ("A line ends with a line feed (10) or with the input", "Allowed bytes", comments).
#![tactic(auto)]

mod plain; // plain.rt: bytes from 32 to 126, eight at a time

ghost use Rattle.std.specs.Prelude.{◌≡◌};
ghost use Rattle.lists.specs.Lists.{all};
ghost use Rattle.format.specs.Bytes.{gap};
ghost use Rattle.lines.specs.Cuts.{LineEnd, Uncommented};
ghost use Rattle.lines.specs.Looks.{ShowsLooked};

use crate::plain::plain_to;

// Where the line that starts at `at` ends, its line feed counted: "A line ends with a line feed (10) or with the input".
pub fn line_end(block: &[u8], at: usize) -> usize
    ensures { LineEnd block.now at result }
{
    let from = plain_to(block, at);
    for i in from..block.len() {
        if block[i] == b'\n' {
            return i + 1;
        }
    }
    from.max(block.len())
}

// Where the line that starts at `at` ends, if each byte of it is allowed: "Allowed bytes: 9, 10, 13 and 32 to 126." One pass for both; most bytes are passed eight at a time.
pub fn clean_end(block: &[u8], at: usize) -> Option<usize>
    ensures { ShowsLooked block.now at result }
{
    let from = plain_to(block, at);
    for i in from..block.len() {
        let b = block[i];
        if b' ' <= b && b <= b'~' {
            continue;
        }
        if b == b'\n' {
            return Some(i + 1);
        }
        if !alphabet::is_allowed(b) {
            return None;
        }
    }
    Some(from.max(block.len()))
}

// Whether the line holds blanks and line feeds alone.
pub fn blank(line: &[u8]) -> bool
    ensures { result ≡ all gap line.now }
{
    line.iter().all(|b| alphabet::is_gap(*b))
}

// How much of the line stands before its comment: "Other known records lose `$$` and the rest of that line".
pub fn uncommented(line: &[u8]) -> usize
    ensures { Uncommented line.now result }
{
    let comment = line.windows(2).position(|two| matches!(two, [b'$', b'$']));
    comment.unwrap_or(line.len())
}
