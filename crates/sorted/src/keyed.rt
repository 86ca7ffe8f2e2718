// Lines of BONDLIST, STEREOCENTER and STEREOPAIR: document 01, "Rows". "A row is answered as its values or a refusal with its reason, and the caller of a row goes
// on only with the values in hand": a refusal is handed on with the line's place. What no reading lends, another length or a count over its limit, is answered
// Unlent, and nothing is touched.
ghost use Rattle.std.specs.Prelude.{◌≡◌, true, false, [], ◌∷◌, ◌*◌, ◌≤◌, ◌<◌, length};
ghost use Rattle.lists.specs.Lists.{is_nil};
ghost use Rattle.format.specs.Bytes.{within, fields};
ghost use Rattle.format.specs.Labels.{Bonds, Centres, Pairs};
ghost use Rattle.sorted.specs.Shown.{KeptWithin, StopLeaves, LineUntouched};
ghost use Rattle.sorted.specs.Keyed.{region_fits, in_order, atoms_in, key_answer, RowShows, StepShows, LineShows};

use crate::join::join;
use crate::kinds::{BondList, CentreList, KeyedList, KeyedRow, PairList};
use crate::scratch::Scratch;
use format::Table;
use format::refusal::{Refusal, Refused};

// Whether the line has no field: "lines then blank are skipped".
pub fn is_bare(line: &[u8]) -> bool
    ensures { result ≡ is_nil (fields line.now) }
{
    fields::next_field(line, 0).is_empty()
}

// Whether the atom is one of the atoms listed.
pub fn is_listed(atom: u32, atoms: usize) -> bool
    ensures { result ≡ within 1 atoms atom }
{
    0 < atom && atom as usize <= atoms
}

// The key of a row's atoms, the lower one first, or its refusal: 11 where an atom is not listed, 13 for "an atom with itself".
fn key_of(row: KeyedRow, atoms: usize) -> Result<u32, Refusal>
    requires { atoms ≤ 256 }
    ensures { result ≡ key_answer atoms (atoms_in row) }
{
    if !is_listed(row.first, atoms) {
        return Err(Refusal::AtomNumber);
    }
    let Some(second) = row.second else {
        return Ok(Scratch::KEY * row.first);
    };
    if !is_listed(second, atoms) {
        return Err(Refusal::AtomNumber);
    }
    if row.first == second {
        return Err(Refusal::Clash);
    }
    Ok(Scratch::KEY * row.first.min(second) + row.first.max(second))
}

// A row joins its list, or its refusal.
fn row_joined<L: KeyedList>(
    row: KeyedRow,
    atoms: usize,
    count: usize,
    region: &mut [u32],
) -> Result<usize, Refusal>
    requires { (length region.old ≡ 2 * L.MOST) × (count ≤ L.MOST) × (atoms ≤ 256) }
    ensures { (length region.new ≡ length region.old) × KeptWithin L.MOST result × RowShows L.list (atoms_in row) row.payload atoms count region.old region.new result
        × StopLeaves region.old region.new result }
{
    let key = key_of(row, atoms)?;
    join::<L>(region, count, key, row.payload)
}

// A line without a field leaves its list as it is, a row joins it.
fn line_joined<L: KeyedList>(
    line: &[u8],
    atoms: usize,
    count: usize,
    region: &mut [u32],
) -> Result<usize, Refusal>
    requires { (length region.old ≡ 2 * L.MOST) × (count ≤ L.MOST) × (atoms ≤ 256) }
    ensures { (length region.new ≡ length region.old) × KeptWithin L.MOST result × StepShows L.list atoms count line.now region.old region.new result }
{
    if is_bare(line) {
        return Ok(count);
    }
    let row = L::row(line)?;
    row_joined::<L>(row, atoms, count, region)
}

// What a line leaves of its list, `count` rows there and `atoms` atoms listed.
fn keyed_line<L: KeyedList>(
    line: &[u8],
    place: usize,
    atoms: usize,
    count: usize,
    region: &mut [u32],
) -> Result<usize, Refused>
    ensures { (length region.new ≡ length region.old) × (length region.old ≡ 2 * L.MOST → count ≤ L.MOST → atoms ≤ 256 → KeptWithin L.MOST result × LineShows L.list atoms count line.now place region.old region.new result)
        × ((length region.old ≡ 2 * L.MOST → count ≤ L.MOST → atoms ≤ 256 → ⊥) → LineUntouched place region.old region.new result) }
{
    if !region_fits(region.len(), 2 * L::MOST, count, L::MOST, atoms) {
        return Err(Refusal::Unlent.at(place));
    }
    line_joined::<L>(line, atoms, count, region).map_err(|refusal| refusal.at(place))
}

// Whether the region is one that a reading lends: of its list's size, with no more rows and atoms than there may be.
pub fn region_fits(length: usize, size: usize, count: usize, most: usize, atoms: usize) -> bool
    ensures { result ≡ region_fits length size count most atoms }
{
    length == size && count <= most && atoms <= Table::ATOMS
}

// Whether both atoms are listed, the lower one first, as programs write them: in three comparisons, since the run of quick rows asks it of every bond.
fn is_ordered(first: u32, second: u32, atoms: usize) -> bool
    ensures { result ≡ in_order atoms first second }
{
    if first == 0 {
        return false;
    }
    first < second && second as usize <= atoms
}

// What a bond whose values are in hand leaves of its list, `count` bonds there and `atoms` atoms listed; a refusal leaves the region as it is. Its one caller is the
// run of quick rows, so that the compiler lays it into that loop.
pub fn bond_joined(
    first: u32,
    second: u32,
    kind: u32,
    atoms: usize,
    count: usize,
    region: &mut [u32],
) -> Result<usize, Refusal>
    ensures { (length region.new ≡ length region.old) × StopLeaves region.old region.new result × (length region.old ≡ 1024 → count ≤ 512 → atoms ≤ 256 → kind < 6 →
        KeptWithin 512 result × RowShows Bonds (first ∷ second ∷ []) (256 * kind) atoms count region.old region.new result) }
{
    if !region_fits(region.len(), Scratch::BONDS, count, Table::BONDS, atoms) {
        return Err(Refusal::Unlent);
    }
    if 5 < kind {
        return Err(Refusal::Unlent);
    }
    let payload = Scratch::PAYLOAD * kind;
    if is_ordered(first, second, atoms) {
        let key = Scratch::KEY * first + second;
        return join::<BondList>(region, count, key, payload);
    }
    let row = KeyedRow {
        first,
        second: Some(second),
        payload,
    };
    row_joined::<BondList>(row, atoms, count, region)
}

// What a line of BONDLIST leaves of its list, `count` bonds there and `atoms` atoms listed: "two atoms and S, D, T, Q or A". The line is without its comment;
// `place` is where it stands in its block.
pub fn bond_line(
    line: &[u8],
    place: usize,
    atoms: usize,
    count: usize,
    region: &mut [u32],
) -> Result<usize, Refused>
    ensures { (length region.new ≡ length region.old) × (length region.old ≡ 1024 → count ≤ 512 → atoms ≤ 256 → KeptWithin 512 result × LineShows Bonds atoms count line.now place region.old region.new result)
        × ((length region.old ≡ 1024 → count ≤ 512 → atoms ≤ 256 → ⊥) → LineUntouched place region.old region.new result) }
{
    keyed_line::<BondList>(line, place, atoms, count, region)
}

// What a line of STEREOCENTER leaves of its list: "atom, P or M, optional group `0`, A to Z or a to z".
pub fn centre_line(
    line: &[u8],
    place: usize,
    atoms: usize,
    count: usize,
    region: &mut [u32],
) -> Result<usize, Refused>
    ensures { (length region.new ≡ length region.old) × (length region.old ≡ 256 → count ≤ 128 → atoms ≤ 256 → KeptWithin 128 result × LineShows Centres atoms count line.now place region.old region.new result)
        × ((length region.old ≡ 256 → count ≤ 128 → atoms ≤ 256 → ⊥) → LineUntouched place region.old region.new result) }
{
    keyed_line::<CentreList>(line, place, atoms, count, region)
}

// What a line of STEREOPAIR leaves of its list: "two atoms, P, M or 0, optional group".
pub fn pair_line(
    line: &[u8],
    place: usize,
    atoms: usize,
    count: usize,
    region: &mut [u32],
) -> Result<usize, Refused>
    ensures { (length region.new ≡ length region.old) × (length region.old ≡ 256 → count ≤ 128 → atoms ≤ 256 → KeptWithin 128 result × LineShows Pairs atoms count line.now place region.old region.new result)
        × ((length region.old ≡ 256 → count ≤ 128 → atoms ≤ 256 → ⊥) → LineUntouched place region.old region.new result) }
{
    keyed_line::<PairList>(line, place, atoms, count, region)
}
