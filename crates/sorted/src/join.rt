// A row put to its place among the rows of a sorted list, which stand in a region that is lent, two numbers a row: the atoms as one key, the value and the group
// as one payload. Rows mostly come in order, so the last row is compared first, and only where that does not settle it a place is searched for.
ghost use Rattle.std.specs.Prelude.{◌≡◌, ◌&&◌, ◌+◌, ◌*◌, ◌≤◌, ◌<◌, length, eqb, ltb};
ghost use Rattle.sorted.specs.Shown.{KeptWithin, StopLeaves};
ghost use Rattle.sorted.specs.Keyed.{KeysAscend, Between, key_at, behind, opened, with_row, JoinShows};

use crate::kinds::KeyedList;
use format::refusal::Refusal;

// The cells from `from` up to `to` move up by w, the last first.
fn open_gap(region: &mut [u32], from: usize, to: usize, w: usize)
    requires { (from ≤ to) × (to + w ≤ length region.old) × (0 < w) }
    ensures { (length region.new ≡ length region.old) × (region.new ≡ opened region.old from to w) }
{
    for i in (from..to).rev() {
        region[i + w] = region[i];
    }
}

// How many of the rows have a lower key.
fn place_of(region: &[u32], count: usize, key: u32) -> usize
    requires { (2 * count ≤ length region.now) × (count ≤ 512) }
    ensures { (result ≤ count) × (KeysAscend count region.now → Between region.now count key result result) }
{
    let (rows, _) = region[..2 * count].as_chunks::<2>();
    rows.partition_point(|row| row[0] < key)
}

// Whether there is a row at the place, and it has the key.
fn stands_at(region: &[u32], count: usize, place: usize, key: u32) -> bool
    requires { (2 * count ≤ length region.now) × (count ≤ 512) }
    ensures { result ≡ (ltb place count && eqb (key_at region.now place) key) }
{
    place < count && region[2 * place] == key
}

// The row goes to its place among the rows.
fn put_row(region: &mut [u32], place: usize, count: usize, key: u32, payload: u32)
    requires { (place ≤ count) × (2 * count + 2 ≤ length region.old) × (count ≤ 512) }
    ensures { (length region.new ≡ length region.old) × (region.new ≡ with_row region.old place count key payload) }
{
    let from = 2 * place;
    let to = 2 * count;
    open_gap(region, from, to, 2);
    region[from] = key;
    region[from + 1] = payload;
}

// Whether the key is above those of all rows, which ascend.
fn is_behind(region: &[u32], count: usize, key: u32) -> bool
    requires { (2 * count ≤ length region.now) × (count ≤ 512) }
    ensures { result ≡ behind region.now count key }
{
    count == 0 || region[2 * (count - 1)] < key
}

// The list with a row more, its place searched for: "The same pair and kind again is dropped; another kind for the pair .. is a clash"; "Counting a repeated bond
// against the 512" is wrong, so that 14 is told last.
fn join_among<L: KeyedList>(
    region: &mut [u32],
    count: usize,
    key: u32,
    payload: u32,
) -> Result<usize, Refusal>
    requires { (length region.old ≡ 2 * L.MOST) × (count ≤ L.MOST) }
    ensures { (length region.new ≡ length region.old) × KeptWithin L.MOST result × JoinShows L.list key payload count region.old region.new result
        × StopLeaves region.old region.new result }
{
    let place = place_of(region, count, key);
    if stands_at(region, count, place, key) {
        if L::DROPS && region[2 * place + 1] == payload {
            return Ok(count);
        }
        return Err(Refusal::Clash);
    }
    if count == L::MOST {
        return Err(Refusal::Full);
    }
    put_row(region, place, count, key, payload);
    Ok(count + 1)
}

// The list with a row more, whichever way it comes.
pub fn join<L: KeyedList>(
    region: &mut [u32],
    count: usize,
    key: u32,
    payload: u32,
) -> Result<usize, Refusal>
    requires { (length region.old ≡ 2 * L.MOST) × (count ≤ L.MOST) }
    ensures { (length region.new ≡ length region.old) × KeptWithin L.MOST result × JoinShows L.list key payload count region.old region.new result
        × StopLeaves region.old region.new result }
{
    if count < L::MOST && is_behind(region, count, key) {
        put_row(region, count, count, key, payload);
        return Ok(count + 1);
    }
    join_among::<L>(region, count, key, payload)
}
