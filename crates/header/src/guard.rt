// Whether progress is one that a reading leaves: its counts within their limits, its parts within the block.
ghost use Rattle.gather.specs.Progress.{Counted, Within, Bounded};
ghost use Rattle.header.specs.Header.{Tells};

use fields::Field;
use format::Table;
use gather::progress::Progress;

// The highest code of a line that runs on, and the largest block id.
const LAST_CODE: u32 = 17;

const LARGEST_ID: u32 = 999999;

// Whether a part lies in a block of so many bytes.
fn lies_in(size: usize, part: Field) -> bool
    ensures { Tells result (Within size part) }
{
    part.from <= part.to && part.to <= size
}

// Whether each list has no more rows than its limit.
fn is_counted(p: Progress) -> bool
    ensures { Tells result (Counted p) }
{
    p.atoms <= Table::ATOMS
        && p.bonds <= Table::BONDS
        && p.charges <= Table::CHARGES
        && p.radicals <= Table::RADICALS
        && p.centres <= Table::CENTRES
        && p.pairs <= Table::PAIRS
}

// Whether all of it is: the counts, the code, the id and the parts.
pub fn is_bounded(size: usize, p: Progress) -> bool
    ensures { Tells result (Bounded size p) }
{
    is_counted(p)
        && p.running <= LAST_CODE
        && p.id <= LARGEST_ID
        && lies_in(size, p.title)
        && lies_in(size, p.origin)
        && lies_in(size, p.owner)
        && lies_in(size, p.formula)
}
