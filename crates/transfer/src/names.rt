// The name to show for a block: document 01, "Walking a transfer file".
ghost use Rattle.std.specs.Prelude.{◌≡◌};
ghost use Rattle.transfer.specs.Texts.{Named, TextEnd, Titled, ValueAt};

use crate::ends::{Text, end_of};
use fields::Field;
use labels::LineKind;

// Where the text ends that goes on at `at`: at the next label line.
fn text_end(block: &[u8], at: usize) -> usize
    ensures { TextEnd block.now at result }
{
    end_of::<Text>(block, at)
}

// Where the value of a label line starts, behind its `=`; the line's end where it is no label line or has none.
fn value_at(line: &[u8]) -> usize
    ensures { ValueAt line.now result }
{
    match labels::line_kind(line) {
        LineKind::Labelled(_, from) => from,
        LineKind::Plain | LineKind::Unparted => line.len(),
    }
}

// The part of the block that is its title; its ends are equal where the title is empty or the first line is no TITLE line.
pub fn title(block: &[u8]) -> Field
    ensures { Titled block.now result }
{
    let end = lines::line_end(block, 0);
    let line = &block[..end];
    if !labels::is_title_line(line) {
        return Field { from: 0, to: 0 };
    }
    let from = value_at(line);
    let to = text_end(block, end);
    let text = &block[from..to];
    let kept = fields::texts::trimmed(text);
    Field {
        from: from + kept.from,
        to: from + kept.to,
    }
}

// The title of the block, or the stand-in, both lent for one time.
fn title_or<'a>(block: &'a [u8], stand_in: &'a [u8]) -> &'a [u8]
    ensures { Named block.now stand_in.now result.now }
{
    let part = title(block);
    if part.is_empty() {
        return stand_in;
    }
    &block[part.from..part.to]
}

// "The name to show is a part of the block, its title, or the caller's stand-in bytes where the title is empty or the first line is no TITLE line." The block
// may be lent for longer than the stand-in; the name is lent for as long as both are.
pub fn name<'a, 'b: 'a>(block: &'b [u8], stand_in: &'a [u8]) -> &'a [u8]
    ensures { Named block.now stand_in.now result.now }
{
    title_or(block, stand_in)
}
