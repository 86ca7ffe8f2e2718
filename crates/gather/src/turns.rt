// One line of a list, in the list's own region of the scratch, and the count that it leaves: document 01, "Rows". A list is told by its label's code, a
// number, since public `list_turn` answers any. The line lent is without its comment.
ghost use Rattle.std.specs.Prelude.{◌≡◌, ◌≤◌};
ghost use Rattle.format.specs.Bytes.{fields};
ghost use Rattle.gather.specs.Progress.{with_count};
ghost use Rattle.sorted.specs.Shown.{LineUntouched};
ghost use Rattle.gather.specs.ListLine.{turn_of, Gathers, ListLent};

use crate::codes::{ATOMLIST, BONDLIST, CHARGE, RADICAL, STEREOCENTER};
use crate::progress::Progress;
use atoms::atom_line;
use format::refusal::Refused;
use sorted::keyed::{bond_line, centre_line, pair_line};
use sorted::scratch::Scratch;
use spread::spread_line;

// What the line leaves of its list: each list's region is lent on to the list's own line.
pub fn line_after(
    line: &[u8],
    place: usize,
    code: u32,
    last: u32,
    p: Progress,
    scratch: &mut [u32; Scratch::SIZE],
) -> Result<usize, Refused>
    ensures { Gathers code last place (fields line.now) p scratch.old scratch.new (turn_of code p result)
        × ((ListLent code p scratch.old → ⊥) → LineUntouched place scratch.old scratch.new result) }
{
    match code {
        ATOMLIST => atom_line(line, place, last, p.atoms, &mut scratch[0..Scratch::KINDS]),
        BONDLIST => {
            let region = &mut scratch[Scratch::FIRST_BOND..Scratch::FIRST_CENTRE];
            bond_line(line, place, p.atoms, p.bonds, region)
        }
        CHARGE => {
            let region = &mut scratch[Scratch::FIRST_CHARGE..Scratch::FIRST_RADICAL];
            spread_line(line, place, true, p.atoms, p.charges, region)
        }
        RADICAL => {
            let region = &mut scratch[Scratch::FIRST_RADICAL..Scratch::FIRST_BOND];
            spread_line(line, place, false, p.atoms, p.radicals, region)
        }
        STEREOCENTER => {
            let region = &mut scratch[Scratch::FIRST_CENTRE..Scratch::FIRST_PAIR];
            centre_line(line, place, p.atoms, p.centres, region)
        }
        _ => {
            let region = &mut scratch[Scratch::FIRST_PAIR..Scratch::FIRST_LABEL];
            pair_line(line, place, p.atoms, p.pairs, region)
        }
    }
}

// What is known, with the count that the list has now.
pub fn with_count(code: u32, count: usize, p: Progress) -> Progress
    ensures { 6 ≤ code → code ≤ 11 → result ≡ with_count code count p }
{
    match code {
        ATOMLIST => Progress { atoms: count, ..p },
        BONDLIST => Progress { bonds: count, ..p },
        CHARGE => Progress {
            charges: count,
            ..p
        },
        RADICAL => Progress {
            radicals: count,
            ..p
        },
        STEREOCENTER => Progress {
            centres: count,
            ..p
        },
        _ => Progress { pairs: count, ..p },
    }
}
