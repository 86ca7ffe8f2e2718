// Values of one field: JCAMP-CS, BLOCK_ID, STEREOMOLECULE. Document 01, "Rows"; document 02, L4. The line lent is without its comment.
ghost use Rattle.std.specs.Prelude.{◌≡◌, ◌&&◌, [], ◌∷◌, drop};
ghost use Rattle.lists.specs.Lists.{is_nil};
ghost use Rattle.format.specs.Bytes.{bytes, same, fields};
ghost use Rattle.format.specs.Rows.{field};
ghost use Rattle.format.specs.Reading.{only_field};
ghost use Rattle.judgement.specs.Values.{ShowsId};

use fields::next_field;
use format::refusal::Refusal;
use lines::blank;
use numbers::number;

// Whether the line has one field alone, and it is this word.
fn is_only(line: &[u8], word: &[u8]) -> bool
    ensures { result ≡ same (field 0 (fields line.now)) word.now && is_nil (drop 1 (fields line.now)) }
{
    let first = next_field(line, 0);
    if &line[first.from..first.to] != word {
        return false;
    }
    blank(&line[first.to..])
}

// "JCAMP-CS: `3.7` only."
pub fn is_version(line: &[u8]) -> bool
    ensures { result ≡ same (field 0 (fields line.now)) (bytes "3.7") && is_nil (drop 1 (fields line.now)) }
{
    is_only(line, b"3.7")
}

// STEREOMOLECULE: "its only value is `YES`".
pub fn is_yes(line: &[u8]) -> bool
    ensures { result ≡ same (only_field (fields line.now)) (bytes "YES") }
{
    is_only(line, b"YES")
}

// "BLOCK_ID: one unsigned number, 1 to 999,999."
pub fn block_id(line: &[u8]) -> Result<u32, Refusal>
    ensures { ShowsId (fields line.now) result }
{
    let word = next_field(line, 0);
    let Some(id) = number(&line[word.from..word.to]) else {
        return Err(Refusal::Shape);
    };
    if !blank(&line[word.to..]) {
        return Err(Refusal::Shape);
    }
    if id == 0 {
        return Err(Refusal::Range);
    }
    Ok(id)
}
