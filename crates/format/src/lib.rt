// The structure table's type: document 01, "The structure table". Every limit of the format is a constant of it, and beside them stand the functions that
// give each record's place. What the numbers mean is in specs/; no parsing here.
#![tactic(auto)]

pub mod refusal; // refusal.rt: why something is refused

ghost use Rattle.std.specs.Prelude.{◌≡◌};
ghost use Rattle.format.specs.Labels.{Bonds, Charges, Radicals, Centres, Pairs};
ghost use Rattle.format.specs.Table.{text_place, atom_place, row_place};

// "3,856 signed 32-bit numbers": the caller lends them, so the type holds nothing of its own.
#[derive(Clone, Copy)]
pub struct Table;

impl Table {
    // How many numbers a table has, and how many bytes a block and a transfer file have at most.
    pub const SIZE: usize = Self::FIRST_PAIR + 4 * Self::PAIRS;

    pub const BLOCK: usize = 32768;

    pub const FILE: usize = 16777216;

    // How many records each list holds.
    pub const TEXTS: usize = 3;

    pub const ATOMS: usize = 256;

    pub const BONDS: usize = 512;

    pub const CHARGES: usize = 64;

    pub const RADICALS: usize = 64;

    pub const CENTRES: usize = 128;

    pub const PAIRS: usize = 128;

    // Where each list's first record stands.
    pub const FIRST_TEXT: usize = 7;

    pub const FIRST_ATOM: usize = 16;

    pub const FIRST_BOND: usize = Self::FIRST_ATOM + 5 * Self::ATOMS;

    pub const FIRST_CHARGE: usize = Self::FIRST_BOND + 3 * Self::BONDS;

    pub const FIRST_RADICAL: usize = Self::FIRST_CHARGE + Self::CHARGES;

    pub const FIRST_CENTRE: usize = Self::FIRST_RADICAL + Self::RADICALS;

    pub const FIRST_PAIR: usize = Self::FIRST_CENTRE + 3 * Self::CENTRES;

    // The numbers that count: "atoms, bonds, charge rows, radical rows, centres, pairs, block id".
    pub const ATOM_COUNT: usize = 0;

    pub const BOND_COUNT: usize = 1;

    pub const CHARGE_COUNT: usize = 2;

    pub const RADICAL_COUNT: usize = 3;

    pub const CENTRE_COUNT: usize = 4;

    pub const PAIR_COUNT: usize = 5;

    pub const BLOCK_ID: usize = 6;

    // The number behind the texts' places: 1 where the molecule is handed as a whole, else 0.
    pub const HANDED: usize = Self::FIRST_TEXT + 2 * Self::TEXTS;

    // Where a text's start and length stand: title 0, origin 1, owner 2. For every place below: an index beyond the list's last answers the table's size.
    pub fn text(index: usize) -> usize
        ensures { result ≡ text_place index }
    {
        if index < Self::TEXTS {
            return Self::FIRST_TEXT + 2 * index;
        }
        Self::SIZE
    }

    // Where an atom's record stands; atom 1 has index 0.
    pub fn atom(index: usize) -> usize
        ensures { result ≡ atom_place index }
    {
        if index < Self::ATOMS {
            return Self::FIRST_ATOM + 5 * index;
        }
        Self::SIZE
    }

    // Where a bond's record stands.
    pub fn bond(index: usize) -> usize
        ensures { result ≡ row_place Bonds index }
    {
        if index < Self::BONDS {
            return Self::FIRST_BOND + 3 * index;
        }
        Self::SIZE
    }

    // Where a charge row's value stands.
    pub fn charge(index: usize) -> usize
        ensures { result ≡ row_place Charges index }
    {
        if index < Self::CHARGES {
            return Self::FIRST_CHARGE + index;
        }
        Self::SIZE
    }

    // Where a radical row's value stands.
    pub fn radical(index: usize) -> usize
        ensures { result ≡ row_place Radicals index }
    {
        if index < Self::RADICALS {
            return Self::FIRST_RADICAL + index;
        }
        Self::SIZE
    }

    // Where a centre's record stands.
    pub fn centre(index: usize) -> usize
        ensures { result ≡ row_place Centres index }
    {
        if index < Self::CENTRES {
            return Self::FIRST_CENTRE + 3 * index;
        }
        Self::SIZE
    }

    // Where a pair's record stands.
    pub fn pair(index: usize) -> usize
        ensures { result ≡ row_place Pairs index }
    {
        if index < Self::PAIRS {
            return Self::FIRST_PAIR + 4 * index;
        }
        Self::SIZE
    }
}
