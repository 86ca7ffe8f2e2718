// The reader's scratch: where each list's rows stand in it, and how many numbers they take. Each follows from a limit of the table's type.
use format::Table;

// One lent buffer of fixed length with regions by place: no heap, and `judge`, `list_turn`, `rows_run` and `publish` answer for a buffer of any length (docs/PROMISES.md).
// Natural numbers that a reading lends; the type holds nothing of its own.
#[derive(Clone, Copy)]
pub struct Scratch;

impl Scratch {
    // How many numbers a list's region has: three for each atom; for charges and for radicals a row's number for each atom, the rows' values and the row without atoms; two
    // for each bond, centre and pair; one for each label; nine for the geometry.
    pub const KINDS: usize = 3 * Table::ATOMS;

    pub const SPREAD: usize = Table::ATOMS + Table::CHARGES + 1;

    pub const BONDS: usize = 2 * Table::BONDS;

    pub const CENTRES: usize = 2 * Table::CENTRES;

    pub const PAIRS: usize = 2 * Table::PAIRS;

    pub const LABELS: usize = 18;

    pub const GEOMETRY: usize = 9;

    // Where each region starts; the atoms' at 0.
    pub const FIRST_CHARGE: usize = Self::KINDS;

    pub const FIRST_RADICAL: usize = Self::FIRST_CHARGE + Self::SPREAD;

    pub const FIRST_BOND: usize = Self::FIRST_RADICAL + Self::SPREAD;

    pub const FIRST_CENTRE: usize = Self::FIRST_BOND + Self::BONDS;

    pub const FIRST_PAIR: usize = Self::FIRST_CENTRE + Self::CENTRES;

    pub const FIRST_LABEL: usize = Self::FIRST_PAIR + Self::PAIRS;

    pub const FIRST_GEOMETRY: usize = Self::FIRST_LABEL + Self::LABELS;

    // How many numbers the scratch has.
    pub const SIZE: usize = Self::FIRST_GEOMETRY + Self::GEOMETRY;

    // In the region of the geometry: where MAX_XYZ, the factor's digits and decimals, the count of rows, the largest size among their numbers, and the latest row's atom and
    // three numbers stand.
    pub const GREATEST: usize = 0;

    pub const DIGITS: usize = 1;

    pub const DECIMALS: usize = 2;

    pub const ROWS: usize = 3;

    pub const LARGEST: usize = 4;

    pub const LATEST: usize = 5;

    // In a region of charges or radicals: where the row without atoms stands.
    pub const WITHOUT_ATOMS: usize = Table::ATOMS + Table::CHARGES;

    // A key is the lower atom times this, plus the higher one; a payload is the value times this, plus the group's byte.
    pub const KEY: u32 = 1024;

    pub const PAYLOAD: u32 = 256;
}
