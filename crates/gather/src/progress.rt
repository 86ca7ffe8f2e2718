// What is known before a line, but for what stands in the scratch: the record that runs, where the texts and the formula stand, how many rows each list has.

use fields::Field;

// Codes and counts stay numbers, 0 for none: `publish` and `is_bounded` answer for any progress (docs/PROMISES.md). `running` is the code of the running record's label (0: skipped), `top` the highest beginning of an interval among the labels seen (0: none was seen). `handed` is
// whether the YES of STEREOMOLECULE stands.
#[derive(Clone, Copy)]
pub struct Progress {
    pub running: u32,
    pub top: u32,
    pub title: Field,
    pub origin: Field,
    pub owner: Field,
    pub formula: Field,
    pub atoms: usize,
    pub bonds: usize,
    pub charges: usize,
    pub radicals: usize,
    pub centres: usize,
    pub pairs: usize,
    pub id: u32,
    pub handed: bool,
}
