// The largest size among the rows' numbers against MAX_XYZ: document 02, L2 ("MAX_XYZ .. bounds each absolute value"; "42 a value above MAX_XYZ").
ghost use Rattle.geometry.specs.SizesTold.{SizesTold};

use sorted::scratch::Scratch;

// Whether a value is above MAX_XYZ: the rows' whole numbers, not what they give in Angstrom.
pub fn exceeds(region: &[u32]) -> bool
    ensures { SizesTold region.now result }
{
    if region.len() != Scratch::GEOMETRY {
        return false;
    }
    region[Scratch::GREATEST] < region[Scratch::LARGEST]
}
