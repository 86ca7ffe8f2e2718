// The lists whose rows stand by key: BONDLIST, STEREOCENTER, STEREOPAIR. A letter's value is always in its list's range, so that none of these rows is refused 10.
ghost use Rattle.std.specs.Prelude.{◌≡◌, ℕ, Bool, true, false, leb, refl};
ghost use Rattle.format.specs.Labels.{ListOf, Bonds, Centres, Pairs};
ghost use Rattle.format.specs.Structure.{most};
ghost use Rattle.sorted.specs.Keyed.{keyed, drops, bonds_limit, marks_limit, most_bonds, most_centres, most_pairs, ShowsKeyedRow};

use crate::scratch::Scratch;
use format::Table;
use format::refusal::Refusal;
use rows::bond::bond_row;
use rows::centre::centre_row;
use rows::pair::pair_row;

// A row as it joins its list: its atoms as they stand in its line, and its value and group as one payload.
#[derive(Clone, Copy)]
pub struct KeyedRow {
    pub first: u32,
    pub second: Option<u32>,
    pub payload: u32,
}

// A list whose rows stand by key: how many rows it has at most, whether a row that repeats another is dropped, and what a line's row says.
pub trait KeyedList {
    ghost list: { ListOf };

    ghost MOST: { ℕ };

    const MOST: usize;

    ghost DROPS: { Bool };

    const DROPS: bool;

    // The row that a line says.
    fn row(line: &[u8]) -> Result<KeyedRow, Refusal>
        ensures { ShowsKeyedRow list line.now result };

    ghost by_key: { keyed list ≡ true };

    ghost at_most: { most list ≡ MOST };

    ghost dropping: { drops list ≡ DROPS };

    ghost small: { leb MOST 512 ≡ true };
}

// Values and kinds are numbers here: the row's cells in the lent region are.
// BONDLIST: "The same pair and kind again is dropped".
pub struct BondList;

impl KeyedList for BondList {
    ghost list = { Bonds };

    ghost MOST = { bonds_limit };

    const MOST: usize = Table::BONDS;

    ghost DROPS = { true };

    const DROPS: bool = true;

    fn row(line: &[u8]) -> Result<KeyedRow, Refusal> {
        let row = bond_row(line)?;
        Ok(KeyedRow {
            first: row.first,
            second: Some(row.second),
            payload: Scratch::PAYLOAD * row.kind,
        })
    }

    ghost by_key = { refl };

    ghost at_most = { most_bonds };

    ghost dropping = { refl };

    ghost small = { refl };
}

// STEREOCENTER.
pub struct CentreList;

impl KeyedList for CentreList {
    ghost list = { Centres };

    ghost MOST = { marks_limit };

    const MOST: usize = Table::CENTRES;

    ghost DROPS = { false };

    const DROPS: bool = false;

    fn row(line: &[u8]) -> Result<KeyedRow, Refusal> {
        let row = centre_row(line)?;
        Ok(KeyedRow {
            first: row.atom,
            second: None,
            payload: Scratch::PAYLOAD * row.side + row.group,
        })
    }

    ghost by_key = { refl };

    ghost at_most = { most_centres };

    ghost dropping = { refl };

    ghost small = { refl };
}

// STEREOPAIR.
pub struct PairList;

impl KeyedList for PairList {
    ghost list = { Pairs };

    ghost MOST = { marks_limit };

    const MOST: usize = Table::PAIRS;

    ghost DROPS = { false };

    const DROPS: bool = false;

    fn row(line: &[u8]) -> Result<KeyedRow, Refusal> {
        let row = pair_row(line)?;
        Ok(KeyedRow {
            first: row.first,
            second: Some(row.second),
            payload: Scratch::PAYLOAD * row.side + row.group,
        })
    }

    ghost by_key = { refl };

    ghost at_most = { most_pairs };

    ghost dropping = { refl };

    ghost small = { refl };
}
