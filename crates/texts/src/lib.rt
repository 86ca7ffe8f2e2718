// The texts that a table names: document 01, "Refusal numbers" ("a text out of bounds, untrimmed, with a byte not allowed, or with `##` right after a line feed").
#![tactic(auto)]

ghost use Rattle.std.specs.Prelude.{◌≡◌, not, ◌&&◌, ◌<◌, length, get_or, drop};
ghost use Rattle.lists.specs.Lists.{all};
ghost use Rattle.format.specs.Bytes.{allowed};
ghost use Rattle.format.specs.Table.{text_place, span_at, spans_of, text_fine, text_ok};
ghost use Rattle.texts.specs.Spans.{span, label_after, plain_text};

use cells::cell;
use format::Table;

// The start of a label line, with the line feed before it.
const LABEL: &[u8] = b"\n##";

// Whether a line feed stands first, with "`##` right after" it.
fn label_after(rest: &[u8]) -> bool
    ensures { result ≡ label_after rest.now }
{
    rest.starts_with(LABEL)
}

// Whether the byte there is allowed, and no line feed with a label behind it: "a byte not allowed, or .. `##` right after a line feed". Most bytes end at the first test.
#[tactic(auto, using(crate::proofs::TextSpanLaws::byte_seen))]
fn byte_fine(text: &[u8], at: usize) -> bool
    requires { at < length text.now }
    ensures { result ≡ (allowed (get_or text.now at 0) && not (label_after (drop at text.now))) }
{
    match text[at] {
        b' '..=b'~' => true,
        byte => alphabet::is_allowed(byte) && !label_after(&text[at..]),
    }
}

// Whether each byte is: every byte is allowed, and no line but the first is a label line.
#[tactic(auto, using(crate::proofs::TextSpanLaws::plain_turn, crate::proofs::TextSpanLaws::plain_end))]
fn plain(text: &[u8]) -> bool
    ensures { result ≡ plain_text text.now }
{
    for at in 0..text.len() {
        if !byte_fine(text, at) {
            return false;
        }
    }
    true
}

// Whether a text is trimmed, of allowed bytes, and has no label line inside. What is kept of a trimmed text is all of it.
fn fine(text: &[u8]) -> bool
    ensures { result ≡ text_fine text.now }
{
    let kept = fields::texts::trimmed(text);
    text.len() <= kept.to - kept.from && plain(text)
}

// Whether a text of that place and size stands in the bytes and is fine: "(empty: 0, 0)".
#[tactic(auto, using(crate::proofs::TextSpanLaws::ok_empty, crate::proofs::TextSpanLaws::ok_inside, crate::proofs::TextSpanLaws::ok_outside))]
fn stands(bytes: &[u8], place: u32, size: u32) -> bool
    ensures { result ≡ text_ok bytes.now (span place size) }
{
    if size == 0 {
        return place == 0;
    }
    let from = place as usize;
    let to = from + size as usize;
    bytes.get(from..to).is_some_and(fine)
}

// The same of the text whose place and size the table has there: title 0, origin 1, owner 2.
#[tactic(auto, using(format::proofs::PlaceLaws::text_small))]
fn named(table: &[i32], bytes: &[u8], index: usize) -> bool
    ensures { result ≡ text_ok bytes.now (span_at (drop (text_place index) table.now)) }
{
    let at = Table::text(index);
    stands(bytes, cell(table, at), cell(table, at + 1))
}

// Whether each of "title, origin, owner" stands in the bytes and is fine.
#[tactic(auto, using(crate::proofs::TextSpanLaws::spans_turn, crate::proofs::TextSpanLaws::spans_end))]
pub fn texts_fine(table: &[i32], bytes: &[u8]) -> bool
    ensures { result ≡ all (text_ok bytes.now) (spans_of table.now) }
{
    for index in 0..Table::TEXTS {
        if !named(table, bytes, index) {
            return false;
        }
    }
    true
}
