// The program `walk`: document 01, "Walking a transfer file". It prints for a block `B start end number place atoms bonds`, the place counted in the file, and for
// a stray run `S start end`; `L` where there are over 65,536 bytes. The work is done by `transfer` and `reader`; this is the reading and the printing. A read or a
// write that fails ends it with that error.
#![tactic(auto)]

ghost use Rattle.std.specs.Prelude.{◌≤◌, ◌<◌, ◌≡◌, IfOk, length};

use coordinates::table::Positions;
use format::Table;
use std::io;
use std::io::Read;
use transfer::walks::PieceKind;

// Zeros for 65,536 bytes and the one more by which a longer input is told.
fn room() -> [u8; 65537]
    ensures { 65537 ≡ length result }
{
    [0; 65537]
}

// Reads until the buffer is full or the input ends (as the other program does: no program can call another, and no library of the format reads); how many bytes lie at its start.
fn read_full<R: Read>(from: &mut R, buffer: &mut [u8]) -> io::Result<usize>
    ensures { IfOk result (λ n. n ≤ length buffer.new) }
{
    let mut filled = 0;
    while filled < buffer.len() {
        let more = from.read(&mut buffer[filled..])?;
        if more == 0 {
            break;
        }
        filled += more;
    }
    Ok(filled)
}

// A number behind a space.
fn print_behind(rt: &impl Print, n: u64) -> io::Result<()> {
    print!(rt; " {n}")
}

// The number and the place of a reading, then the atoms and bonds of its table.
fn print_reading(rt: &impl Print, number: u32, place: usize, table: &[i32]) -> io::Result<()> {
    print_behind(rt, number as u64)?;
    print_behind(rt, place as u64)?;
    print_behind(rt, cells::cell(table, Table::ATOM_COUNT) as u64)?;
    print_behind(rt, cells::cell(table, Table::BOND_COUNT) as u64)?;
    println!(rt; "")
}

// The line of a block: "`B start end number place atoms bonds`, the place counted in the file (0 if accepted)".
fn print_block(rt: &impl Print, file: &[u8], start: usize, end: usize) -> io::Result<()>
    requires { (start ≤ end) × (end ≤ length file.now) × (length file.now ≤ 65536) }
{
    print!(rt; "B")?;
    print_behind(rt, start as u64)?;
    print_behind(rt, end as u64)?;
    let mut table = [0i32; Table::SIZE];
    let mut positions = [0f64; Positions::SIZE];
    match reader::read(&file[start..end], &mut table, &mut positions) {
        Ok(()) => print_reading(rt, 0, 0, &table),
        Err(refused) => print_reading(rt, refused.refusal.number(), start + refused.place, &table),
    }
}

// The line of a stray run: "`S start end`".
fn print_stray(rt: &impl Print, start: usize, end: usize) -> io::Result<()> {
    print!(rt; "S")?;
    print_behind(rt, start as u64)?;
    print_behind(rt, end as u64)?;
    println!(rt; "")
}

// The line of the piece from a place on, and where it ends.
fn print_piece(rt: &impl Print, file: &[u8], place: usize) -> io::Result<usize>
    requires { (place < length file.now) × (length file.now ≤ 65536) }
    ensures { IfOk result (λ end. (place < end) × (end ≤ length file.now)) }
{
    let Ok(Some(piece)) = transfer::walks::walk(file, place) else {
        return Ok(file.len());
    };
    match piece.kind {
        PieceKind::Block => print_block(rt, file, place, piece.to)?,
        PieceKind::Stray => print_stray(rt, place, piece.to)?,
    }
    Ok(piece.to)
}

// The lines of a file, piece by piece.
fn print_file(rt: &impl Print, file: &[u8]) -> io::Result<()>
    requires { length file.now ≤ 65536 }
{
    let mut place = 0;
    while place < file.len() {
        place = print_piece(rt, file, place)?;
    }
    Ok(())
}

fn main(rt: HostRuntime) -> io::Result<()> {
    let mut bytes = room();
    let n = read_full(&mut rt.stdin(), &mut bytes)?;
    if 65536 < n {
        return println!(rt; "L");
    }
    print_file(&rt, &bytes[..n])
}
