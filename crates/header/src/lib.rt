// The table's first sixteen numbers: document 01, "The structure table" ("atoms, bonds, charge rows, radical rows, centres, pairs, block id (0 none)"; "start and
// length in the block of title, origin, owner (empty: 0, 0)"; "13 to 15 are 0"); document 02, L4 ("Table number 13 becomes 1").
#![tactic(auto)]

pub mod guard; // guard.rt: whether progress is one that a reading leaves

ghost use Rattle.std.specs.Prelude.{◌≡◌, [], ◌∷◌, ◌+◌, ◌≤◌, length};
ghost use Rattle.format.specs.Table.{span_cells, flag};
ghost use Rattle.format.specs.Reading.{span_of};
ghost use Rattle.gather.specs.Progress.{prose_at, Counted, Within, Bounded};
ghost use Rattle.filling.specs.Filled.{placed, FilledWhere};
ghost use Rattle.header.specs.Header.{counts_out, header_out};

use fields::Field;
use format::Table;
use gather::progress::Progress;

// The numbers that count, and the block's id.
fn put_counts(part: &mut [i32], p: Progress)
    requires { (7 ≤ length part.old) × Counted p }
    ensures { part.new ≡ placed part.old 0 (counts_out p) }
{
    let counts = [
        p.atoms as u32,
        p.bonds as u32,
        p.charges as u32,
        p.radicals as u32,
        p.centres as u32,
        p.pairs as u32,
        p.id,
    ];
    filling::put_all(part, Table::ATOM_COUNT, &counts);
}

// A text's start and length; "(empty: 0, 0)".
fn put_text(part: &mut [i32], at: usize, block: &[u8], text: Field)
    requires { (at + 2 ≤ length part.old) × Within (length block.now) text × (length block.now ≤ 32768) }
    ensures { part.new ≡ placed part.old at (span_cells (span_of (prose_at block.now text))) }
{
    let from = text.from;
    let to = text.to;
    let kept = fields::texts::trimmed(&block[from..to]);
    if kept.from == kept.to {
        filling::put_all(part, at, &[0, 0]);
        return;
    }
    let start = (from + kept.from) as u32;
    let length = (kept.to - kept.from) as u32;
    filling::put_all(part, at, &[start, length]);
}

// The header, whatever stood there; a part of another length is as it was, and so is any where progress is none that a reading leaves.
pub fn fill_header(part: &mut [i32], block: &[u8], p: Progress)
    ensures { FilledWhere ((length part.old ≡ 16) × (length block.now ≤ 32768) × Bounded (length block.now) p) part.old part.new (header_out block.now p) }
{
    if part.len() != Table::FIRST_ATOM
        || Table::BLOCK < block.len()
        || !guard::is_bounded(block.len(), p)
    {
        return;
    }
    part.fill(0);
    put_counts(part, p);
    put_text(part, Table::text(0), block, p.title);
    put_text(part, Table::text(1), block, p.origin);
    put_text(part, Table::text(2), block, p.owner);
    filling::put(part, Table::HANDED, u32::from(p.handed));
}
