// The lists that stand by their atoms, and what a record of each has: document 01, "The structure table".
ghost use Rattle.std.specs.Prelude.{◌≤◌};

use format::Table;

// A list, and what a record of it has: where its records are counted, where the first stands and where the region ends, how many numbers a record has, how many
// atoms are its members, its value's range, whether a group follows.
#[derive(Clone, Copy)]
pub struct Shape {
    pub count: usize,
    pub first: usize,
    pub end: usize,
    pub width: usize,
    pub members: usize,
    pub low: u32,
    pub high: u32,
    pub grouped: bool,

    ghost inside: { end ≤ 3856 },

    ghost few: { members ≤ 2 },
}

impl Shape {
    // "512 bonds: lower atom, higher atom, kind 1 to 5 for S, D, T, Q, A".
    pub const BONDS: Shape = Shape {
        count: Table::BOND_COUNT,
        first: Table::FIRST_BOND,
        end: Table::FIRST_CHARGE,
        width: 3,
        members: 2,
        low: 1,
        high: 5,
        grouped: false,
    };

    // "128 centres: atom, 1 P or 2 M, group byte (0 for `0`)".
    pub const CENTRES: Shape = Shape {
        count: Table::CENTRE_COUNT,
        first: Table::FIRST_CENTRE,
        end: Table::FIRST_PAIR,
        width: 3,
        members: 1,
        low: 1,
        high: 2,
        grouped: true,
    };

    // "128 pairs: lower, higher, 0, 1 P or 2 M, group byte".
    pub const PAIRS: Shape = Shape {
        count: Table::PAIR_COUNT,
        first: Table::FIRST_PAIR,
        end: Table::SIZE,
        width: 4,
        members: 2,
        low: 0,
        high: 2,
        grouped: true,
    };
}
