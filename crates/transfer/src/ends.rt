// Where a text, a block or a stray run ends: document 01, "Walking a transfer file". Each goes on up to a line of its own.
ghost use Rattle.std.specs.Prelude.{◌≡◌, true, false, None, Option, take, drop};
ghost use Rattle.format.specs.Bytes.{Bytes, cut, line_len};
ghost use Rattle.transfer.specs.Ending.{label_tells, turn_tells, title_tells, ending};
ghost use Rattle.transfer.specs.Skipping.{starts};
ghost use Rattle.transfer.specs.declared.ends.Side.{Side};

use crate::skips::{Any, Turning, skip_to_label};
use alphabet::kind::Kind;
use labels::line_kind;

// On which side of a line what is open ends.
#[derive(Clone, Copy, Debug, PartialEq, Eq)]
pub(crate) enum Side {
    Before,
    Behind,
}

// What goes on from line to line.
pub(crate) trait Ends {
    // A line whose label starts with no byte of this kind is not looked at.
    type Heeds: Kind;

    ghost tells: { Bytes → Option Side };

    // Whether it ends at the line, and where.
    fn tells(line: &[u8]) -> Option<Side>
        ensures { result ≡ tells line.now };
}

// A text: it goes on up to the next label line.
pub(crate) struct Text;

impl Ends for Text {
    type Heeds = Any;

    ghost tells = { label_tells };

    fn tells(line: &[u8]) -> Option<Side> {
        line.starts_with(b"##").then_some(Side::Before)
    }
}

// A block: "It ends after its first END line, or before the next TITLE line, or with the file."
pub(crate) struct Block;

impl Ends for Block {
    type Heeds = Turning;

    ghost tells = { turn_tells };

    fn tells(line: &[u8]) -> Option<Side> {
        match line_kind(line).code() {
            labels::TITLE => Some(Side::Before),
            labels::END => Some(Side::Behind),
            _ => None,
        }
    }
}

// A stray run: "stray runs, as long as they can be", up to a TITLE line.
pub(crate) struct Stray;

impl Ends for Stray {
    type Heeds = Turning;

    ghost tells = { title_tells };

    fn tells(line: &[u8]) -> Option<Side> {
        (line_kind(line).code() == labels::TITLE).then_some(Side::Before)
    }
}

// Where it ends, from the line at `at` on. No line ends it that is not looked at.
pub(crate) fn end_of<E: Ends>(file: &[u8], at: usize) -> usize
    requires { (s : Bytes) → starts E.Heeds.holds s ≡ false → E.tells (take (line_len s) s) ≡ None }
    ensures { result ≡ ending E.tells at (cut (drop at file.now)) }
{
    let mut i = skip_to_label::<E::Heeds>(file, at);
    while i < file.len() {
        let next = lines::line_end(file, i);
        match E::tells(&file[i..next]) {
            Some(Side::Before) => return i,
            Some(Side::Behind) => return next,
            None => i = skip_to_label::<E::Heeds>(file, next),
        }
    }
    i
}
