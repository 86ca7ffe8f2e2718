// The cells of what is left of the atoms: document 01, "At END, for every element and mass, the formula's total over all fragments equals the atoms listed".
ghost use Rattle.std.specs.Prelude.{◌≡◌, length};

use format::Table;

// "Symbols are those of elements 1 (H) to 103 (Lr)": a count for each of them; the first, of no element, stays 0.
pub const ELEMENTS: u32 = 103;

pub const COUNTS: usize = 104;

// How many atoms of each element have no mass, and a cell for each place of the table, with the element and the mass (0 no atom) of an atom that has a mass.
#[derive(Drop)]
pub struct Left {
    pub counts: [u32; COUNTS],
    pub elements: [u32; Table::ATOMS],
    pub masses: [u32; Table::ATOMS],
    ghost counts_long: { length counts ≡ 104 },
    ghost elements_long: { length elements ≡ 256 },
    ghost masses_long: { length masses ≡ 256 },
}
