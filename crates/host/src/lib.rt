// The C door: document 01, "The C host calls a check of one block". Every function answers for every input; include/galebonnet.h says each answer in words. No
// rule of the format stands here. A `&[u8]` lies in the call as a pointer and a count.
#![tactic(auto)]

ghost use Rattle.std.specs.Prelude.{◌≡◌, ◌<◌};
ghost use Rattle.format.specs.Table.{lent, read_result};
ghost use Rattle.format.specs.Walking.{check_of, packed, packed_result, walk_at};
ghost use Rattle.format.specs.Writing.{write_result};
ghost use Rattle.host.specs.Packed.{kind_number, packed_walk, packed_title, packed_written};

use transfer::walks::PieceKind;

// What a number counts that stands in the upper half of one of 64 bits.
const HIGH: u64 = 4294967296;

// The longest block of which a title is told.
const LONGEST: usize = 4294967295;

// Two numbers in one.
fn packed(high: u32, low: usize) -> u64
    requires { low < 4294967296 }
    ensures { result ≡ packed high low }
{
    u64::from(high) * HIGH + low as u64
}

// "one unsigned 64-bit number: refusal number times 2^32, plus the place; it judges as with a long enough table"
#[unsafe(no_mangle)]
pub extern "C" fn galebonnet_check(block: &[u8]) -> u64
    ensures { result ≡ check_of 103 block.now }
{
    reader::check(block)
}

// The same number, or 1 where a table is short, and both tables filled, zeroed or untouched.
#[unsafe(no_mangle)]
pub extern "C" fn galebonnet_read(block: &[u8], table: &mut [i32], positions: &mut [f64]) -> u64
    ensures answer { result ≡ packed_result (read_result 103 block.now (lent table.old positions.old)) }
    ensures filled { lent table.new positions.new ≡ (read_result 103 block.now (lent table.old positions.old)).after }
{
    match reader::read(block, table, positions) {
        Ok(()) => 0,
        Err(refused) => packed(refused.refusal.number(), refused.place),
    }
}

// The number of a piece's kind, as C hosts read it.
fn kind_number(kind: PieceKind) -> u32
    ensures { result ≡ kind_number kind }
{
    match kind {
        PieceKind::Block => 1,
        PieceKind::Stray => 2,
    }
}

// The kind times 2^32, plus the end: 1 a block, 2 a stray run; 0 finished, 31 and 32 with end 0.
#[unsafe(no_mangle)]
pub extern "C" fn galebonnet_walk(file: &[u8], place: usize) -> u64
    ensures { result ≡ packed_walk (walk_at file.now place) }
{
    match transfer::walks::walk(file, place) {
        Ok(Some(piece)) => packed(kind_number(piece.kind), piece.to),
        Ok(None) => 0,
        Err(refusal) => packed(refusal.number(), 0),
    }
}

// The start of the title times 2^32, plus its length; 0: show the stand-in. "The name to show is a part of the block, its title, or the caller's stand-in bytes
// where the title is empty or the first line is no TITLE line."
#[unsafe(no_mangle)]
pub extern "C" fn galebonnet_name(block: &[u8]) -> u64
    ensures { result ≡ packed_title block.now }
{
    if LONGEST < block.len() {
        return 0;
    }
    let title = transfer::names::title(block);
    if title.is_empty() {
        return 0;
    }
    packed(title.from as u32, title.to - title.from)
}

// The refusal's number times 2^32, or the count of the bytes written, and the buffer with the one written form in front, or as it was lent. "Refusals in this order: 1;
// 21, the table isn't sound ..; 23, the form would pass 32,768 bytes; 22, the buffer is shorter."
#[unsafe(no_mangle)]
pub extern "C" fn galebonnet_write(table: &[i32], texts: &[u8], buffer: &mut [u8]) -> u64
    ensures answer { result ≡ packed_written (write_result 103 table.now texts.now buffer.old) }
    ensures written { buffer.new ≡ (write_result 103 table.now texts.now buffer.old).buffer }
{
    match writer::write(table, texts, buffer) {
        Ok(count) => count as u64,
        Err(unwritten) => packed(unwritten.number(), 0),
    }
}
