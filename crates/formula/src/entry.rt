// An entry of MOLFORM, and quick entries: entries as programs write them, a symbol without `^`, its count, and a gap (a blank or a line feed) behind them, read in
// one pass with no machine's state: document 01, "Rows", MOLFORM. What is no such entry is answered None and refused nowhere here: the machine judges it.
ghost use Rattle.std.specs.Prelude.{IfSome};
ghost use Rattle.formula.specs.Entries.{LettersAre, CountIs, EntryIs};

use alphabet::kind::{Gaps, run_end};
use alphabet::{digit, is_gap, is_lower, is_upper};
use symbols::Mark;

// An entry: "a symbol and an optional count", 1 where there is none.
#[derive(Clone, Copy, Debug, PartialEq, Eq)]
pub struct Entry {
    pub mark: Mark,
    pub count: u32,
}

// A quick entry, and the place behind its gap.
#[derive(Clone, Copy, Debug, PartialEq, Eq)]
pub struct QuickEntry {
    pub entry: Entry,
    pub next: usize,
}

// The digits of a quick entry's count, at most.
const COUNT_DIGITS: usize = 4;

// A symbol that does not end the value, and the place behind it: "an upper-case letter and at most one lower-case letter".
fn letters_at(value: &[u8], at: usize) -> Option<(Mark, usize)>
    ensures { IfSome result (λ p. LettersAre value.now at p.0 p.1) }
{
    let first = *value.get(at)?;
    let to = at + 1;
    let second = *value.get(to)?;
    if !is_upper(first) {
        return None;
    }
    if is_lower(second) {
        return Some((Mark::plain(first, second), to + 1));
    }
    Some((Mark::plain(first, 0), to))
}

// Behind a symbol: "an optional count 1 to 9,999", here of at most 4 digits, and a gap; 1 where there is none. The count, and the place behind the gap.
fn count_at(value: &[u8], at: usize) -> Option<(u32, usize)>
    ensures { IfSome result (λ p. CountIs value.now at p.0 p.1) }
{
    let mut count = 0;
    for i in at..value.len() {
        let byte = value[i];
        if is_gap(byte) {
            let told = if i == at { 1 } else { count };
            return Some((told, i + 1));
        }
        if i - at == COUNT_DIGITS {
            return None;
        }
        count = count * 10 + digit(byte)?;
    }
    None
}

// The entry at a place between entries, the gaps before it passed over: "entries of a symbol and an optional count", here with a gap behind it.
pub fn quick_entry(value: &[u8], at: usize) -> Option<QuickEntry>
    ensures { IfSome result (λ q. EntryIs value.now at q.entry q.next) }
{
    let from = run_end::<Gaps>(value, at);
    let (mark, to) = letters_at(value, from)?;
    let (count, next) = count_at(value, to)?;
    let entry = Entry { mark, count };
    Some(QuickEntry { entry, next })
}
