// Quick rows one behind the other, as programs write them: document 01, "Rows", ATOMLIST and BONDLIST. A run refuses nothing: it stops before the first line that is
// no quick row or whose row does not join its list, and the ordinary step judges that line.
ghost use Rattle.gather.specs.Runs.{AtomsRan, BondsRan};

use atoms::put_atom;
use elements::isotope_of;
use format::Table;
use quick::atom::quick_atom;
use quick::bond::quick_bond;
use sorted::keyed::bond_joined;
use sorted::scratch::Scratch;

// The first line that was not gathered, and how many rows the list has before it.
#[derive(Clone, Copy)]
pub struct Run {
    pub place: usize,
    pub count: usize,
}

// The quick rows of ATOMLIST from `at` on, `atoms` atoms there and the elements known up to `last`: "Numbers run 1, 2, 3 and on."
pub fn atom_run(
    block: &[u8],
    at: usize,
    last: u32,
    atoms: usize,
    scratch: &mut [u32; Scratch::SIZE],
) -> Run
    ensures { AtomsRan last block.now at atoms scratch.old scratch.new result }
{
    let mut place = at;
    let mut count = atoms;
    while count < Table::ATOMS {
        let Some(quick) = quick_atom(block, place) else {
            return Run { place, count };
        };
        let listed = count + 1;
        if quick.row.number as usize != listed {
            return Run { place, count };
        }
        let isotope = isotope_of(quick.row.mark, last);
        if isotope.element == 0 {
            return Run { place, count };
        }
        put_atom(
            &mut scratch[0..Scratch::KINDS],
            count,
            isotope.element,
            isotope.mass,
            quick.row.hydrogens,
        );
        count = listed;
        place = quick.next;
    }
    Run { place, count }
}

// The quick rows of BONDLIST from `at` on, `bonds` bonds there and `atoms` atoms listed.
pub fn bond_run(
    block: &[u8],
    at: usize,
    atoms: usize,
    bonds: usize,
    scratch: &mut [u32; Scratch::SIZE],
) -> Run
    ensures { BondsRan block.now at atoms bonds scratch.old scratch.new result }
{
    let mut place = at;
    let mut count = bonds;
    if Table::ATOMS < atoms || Table::BONDS < bonds {
        return Run { place, count };
    }
    while place < block.len() {
        let Some(quick) = quick_bond(block, place) else {
            return Run { place, count };
        };
        let joined = bond_joined(
            quick.row.first,
            quick.row.second,
            quick.row.kind,
            atoms,
            count,
            &mut scratch[Scratch::FIRST_BOND..Scratch::FIRST_CENTRE],
        );
        let Ok(more) = joined else {
            return Run { place, count };
        };
        count = more;
        place = quick.next;
    }
    Run { place, count }
}
