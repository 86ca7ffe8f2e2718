// The walk of a transfer file: document 01, "Walking a transfer file".
ghost use Rattle.std.specs.Prelude.{◌≡◌};
ghost use Rattle.format.specs.Walking.{walk_at, walk_result};
ghost use Rattle.transfer.specs.Shown.{shown};

use crate::ends::{Block, Stray, end_of};
use format::Table;
use format::refusal::Refusal;

// The kinds of pieces: "Outside a block, a block starts at a TITLE line .. All other stretches, blank ones too, are stray runs".
#[derive(Clone, Copy, Debug, PartialEq, Eq)]
pub enum PieceKind {
    Block,
    Stray,
}

// A piece of the file, from its first byte up to a place.
#[derive(Clone, Copy, Debug, PartialEq, Eq)]
pub struct Piece {
    pub kind: PieceKind,
    pub from: usize,
    pub to: usize,
}

// The piece from `place` on, or none at the end. "The walk takes a file and a place, and treats the bytes from the place as a file, counting its answers in the whole
// one. Over 16,777,216 bytes: refusal 31. Place beyond the end: 32. At the end: finished." "31 comes first."
pub fn walk(file: &[u8], place: usize) -> Result<Option<Piece>, Refusal>
    ensures { shown result ≡ walk_result (walk_at file.now place) }
{
    if Table::FILE < file.len() {
        return Err(Refusal::LongFile);
    }
    if file.len() < place {
        return Err(Refusal::BeyondFile);
    }
    if place == file.len() {
        return Ok(None);
    }
    let end = lines::line_end(file, place);
    let (kind, to) = if labels::is_title_line(&file[place..end]) {
        (PieceKind::Block, end_of::<Block>(file, end))
    } else {
        (PieceKind::Stray, end_of::<Stray>(file, end))
    };
    Ok(Some(Piece {
        kind,
        from: place,
        to,
    }))
}
