// Quick rows of XYZ one behind the other, as programs write them: document 02, L2. A run refuses nothing: it stops before the first line that is no quick row or whose
// row does not join, and the ordinary step judges that line.
ghost use Rattle.geometry.specs.XyzRuns.{XyzRan};

use crate::put::put_row;
use coordinates::kept::keep;
use quick::xyz::quick_xyz;
use sorted::scratch::Scratch;

// The place of the first line from `at` on that was not gathered, `atoms` atoms listed. Each row goes into the region and into the store. An atom that is not listed, or
// not above the latest row's, does not join: atom 0 is above none.
pub fn xyz_run(
    block: &[u8],
    at: usize,
    atoms: usize,
    region: &mut [u32],
    store: &mut [i32],
) -> usize
    ensures { XyzRan block.now at atoms region.old region.new store.old store.new result }
{
    let mut place = at;
    if region.len() != Scratch::GEOMETRY {
        return place;
    }
    while let Some(quick) = quick_xyz(block, place) {
        let row = quick.row;
        if atoms < row.atom as usize || row.atom <= region[Scratch::LATEST] {
            break;
        }
        keep(store, region[Scratch::ROWS] as usize, row);
        put_row(region, row);
        place = quick.next;
    }
    place
}
