// The latest row of XYZ in the store of rows: document 02, L2 ("in any order with the other shell labels": the factor may stand after the rows, so they are stored).
ghost use Rattle.geometry.specs.LatestStored.{LatestStored};

use coordinates::kept::keep;
use rows::xyz::XyzRow;
use sorted::scratch::Scratch;

// The region's latest row into the store, behind the rows before it; nothing where there is none. A store without room for it is untouched.
pub fn keep_latest(region: &[u32], store: &mut [i32])
    ensures { LatestStored region.now store.old store.new }
{
    if region.len() != Scratch::GEOMETRY {
        return;
    }
    let rows = region[Scratch::ROWS] as usize;
    if rows < 1 {
        return;
    }
    let row = XyzRow {
        atom: region[Scratch::LATEST],
        x: region[Scratch::LATEST + 1],
        y: region[Scratch::LATEST + 2],
        z: region[Scratch::LATEST + 3],
    };
    keep(store, rows - 1, row);
}
