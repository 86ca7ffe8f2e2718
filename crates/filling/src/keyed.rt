// The regions of bonds, centres and pairs, whatever stood there: document 01, "The structure table". A row of the scratch is a key and a payload.
ghost use Rattle.std.specs.Prelude.{◌≡◌, ◌*◌, ◌^◌, ◌≤◌, ◌<◌, ℕ, ℤ, List, refl, length, map, get_or};
ghost use Rattle.filling.specs.Filled.{signed_of, bond_out, centre_out, pair_out, copied, FilledWhere};

use format::Table;
use sorted::scratch::Scratch;

// How a list's rows stand in the table, each as a record of WIDTH numbers.
trait Keyed<const WIDTH: usize> {
    ghost out: { List ℕ → List ℤ };

    // A row's record, from its key and its payload.
    fn record(key: u32, payload: u32) -> [u32; WIDTH]
        ensures { (t : List ℕ) → get_or t 0 0 ≡ key → get_or t 1 0 ≡ payload → map signed_of result ≡ out t };

    ghost wide: { (t : List ℕ) → length (out t) ≡ WIDTH };
}

// "lower atom, higher atom, kind".
struct Bonds;

impl Keyed<3> for Bonds {
    ghost out = { bond_out };

    ghost wide = { λ t. refl };

    fn record(key: u32, payload: u32) -> [u32; 3] {
        let lower = key / Scratch::KEY;
        let higher = key % Scratch::KEY;
        [lower, higher, payload / Scratch::PAYLOAD]
    }
}

// "atom, 1 P or 2 M, group byte".
struct Centres;

impl Keyed<3> for Centres {
    ghost out = { centre_out };

    ghost wide = { λ t. refl };

    fn record(key: u32, payload: u32) -> [u32; 3] {
        let hand = payload / Scratch::PAYLOAD;
        [key / Scratch::KEY, hand, payload % Scratch::PAYLOAD]
    }
}

// "lower, higher, 0, 1 P or 2 M, group byte".
struct Pairs;

impl Keyed<4> for Pairs {
    ghost out = { pair_out };

    ghost wide = { λ t. refl };

    fn record(key: u32, payload: u32) -> [u32; 4] {
        let lower = key / Scratch::KEY;
        let higher = key % Scratch::KEY;
        let hand = payload / Scratch::PAYLOAD;
        [lower, higher, hand, payload % Scratch::PAYLOAD]
    }
}

// A list's region: its first `count` rows, each as its record; zeros behind them.
fn fill<const WIDTH: usize, const MOST: usize, L: Keyed<WIDTH>>(
    part: &mut [i32],
    region: &[u32],
    count: usize,
)
    requires few { WIDTH * MOST < 2 ^ 16 }
    requires rows { MOST < 2 ^ 16 }
    ensures { FilledWhere ((length part.old ≡ WIDTH * MOST) × (length region.now ≡ 2 * MOST) × (count ≤ MOST)) part.old part.new (copied 2 L.out (WIDTH * MOST) count region.now) }
{
    if part.len() != WIDTH * MOST || region.len() != 2 * MOST || MOST < count {
        return;
    }
    part.fill(0);
    for i in 0..count {
        crate::put_all(
            part,
            WIDTH * i,
            &L::record(region[2 * i], region[2 * i + 1]),
        );
    }
}

// The bonds' region.
pub fn fill_bonds(part: &mut [i32], region: &[u32], count: usize)
    ensures { FilledWhere ((length part.old ≡ 1536) × (length region.now ≡ 1024) × (count ≤ 512)) part.old part.new (copied 2 bond_out 1536 count region.now) }
{
    fill::<3, { Table::BONDS }, Bonds>(part, region, count);
}

// The centres' region.
pub fn fill_centres(part: &mut [i32], region: &[u32], count: usize)
    ensures { FilledWhere ((length part.old ≡ 384) × (length region.now ≡ 256) × (count ≤ 128)) part.old part.new (copied 2 centre_out 384 count region.now) }
{
    fill::<3, { Table::CENTRES }, Centres>(part, region, count);
}

// The pairs' region.
pub fn fill_pairs(part: &mut [i32], region: &[u32], count: usize)
    ensures { FilledWhere ((length part.old ≡ 512) × (length region.now ≡ 256) × (count ≤ 128)) part.old part.new (copied 2 pair_out 512 count region.now) }
{
    fill::<4, { Table::PAIRS }, Pairs>(part, region, count);
}
