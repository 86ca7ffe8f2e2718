// The program `cases`: every case of document 01 that is not starred, and those of document 02, L2 and L4, through the built reader. Standard input holds the
// cases one behind the other: a head of eight bytes, `T` for a whole structure table or `S` for one that is too short, the block's length in six digits, a line feed; then
// the block. It prints for each case `number place atoms bonds`, which the gate holds to what the independent reader gives for the same input. A read or a write that
// fails ends it with that error.
#![tactic(auto)]

ghost use Rattle.std.specs.Prelude.{◌+◌, ◌≤◌, ◌<◌, ◌≡◌, IfOk, length};

use coordinates::table::Positions;
use format::Table;
use format::refusal::Refused;
use std::io;
use std::io::Read;

// Zeros for all of the input.
fn room() -> [u8; 1048576]
    ensures { 1048576 ≡ length result }
{
    [0; 1048576]
}

// Reads until the buffer is full or the input ends (as the other program does: no program can call another, and no library of the format reads); how many bytes lie at its start.
fn read_full<R: Read>(from: &mut R, buffer: &mut [u8]) -> io::Result<usize>
    ensures { IfOk result (λ n. n ≤ length buffer.new) }
{
    let mut filled = 0;
    while filled < buffer.len() {
        let more = from.read(&mut buffer[filled..])?;
        if more == 0 {
            break;
        }
        filled += more;
    }
    Ok(filled)
}

// The value of a digit; any other byte counts 0.
fn digit(byte: u8) -> usize
    ensures { result ≤ 9 }
{
    if byte < 48 {
        return 0;
    }
    if 57 < byte {
        return 0;
    }
    (byte - 48) as usize
}

// Three digits from `at` on.
fn three_digits(file: &[u8], at: usize) -> usize
    requires { at + 3 ≤ length file.now }
    ensures { result ≤ 999 }
{
    100 * digit(file[at]) + 10 * digit(file[at + 1]) + digit(file[at + 2])
}

// A number of the table behind a space.
fn print_cell(rt: &impl Print, table: &[i32], at: usize) -> io::Result<()> {
    let number = cells::cell(table, at);
    print!(rt; " {number}")
}

// The line of a reading.
fn print_line(rt: &impl Print, answer: Result<(), Refused>, table: &[i32]) -> io::Result<()> {
    match answer {
        Ok(()) => print!(rt; "0 0")?,
        Err(refused) => {
            let number = refused.refusal.number();
            let place = refused.place;
            print!(rt; "{number} {place}")?
        }
    }
    print_cell(rt, table, Table::ATOM_COUNT)?;
    print_cell(rt, table, Table::BOND_COUNT)?;
    println!(rt; "")
}

// A block read into two whole tables.
fn print_whole(rt: &impl Print, block: &[u8]) -> io::Result<()> {
    let mut table = [0i32; Table::SIZE];
    let mut positions = [0f64; Positions::SIZE];
    let answer = reader::read(block, &mut table, &mut positions);
    print_line(rt, answer, &table)
}

// A block read into a structure table that is one number too short.
fn print_short(rt: &impl Print, block: &[u8]) -> io::Result<()> {
    let mut table = [0i32; Table::SIZE - 1];
    let mut positions = [0f64; Positions::SIZE];
    let answer = reader::read(block, &mut table, &mut positions);
    print_line(rt, answer, &table)
}

// The case from a place on, and where it ends; a head or a block that is cut off ends the input.
fn print_case(rt: &impl Print, file: &[u8], at: usize) -> io::Result<usize>
    requires { at < length file.now }
    ensures { IfOk result (λ end. (at < end) × (end ≤ length file.now)) }
{
    let rest = file.len() - at;
    if rest < 8 {
        return Ok(file.len());
    }
    let size = 1000 * three_digits(file, at + 1) + three_digits(file, at + 4);
    if rest - 8 < size {
        return Ok(file.len());
    }
    let from = at + 8;
    let end = from + size;
    if file[at] == b'T' {
        print_whole(rt, &file[from..end])?;
        return Ok(end);
    }
    print_short(rt, &file[from..end])?;
    Ok(end)
}

// The lines of all cases, one behind the other.
fn print_cases(rt: &impl Print, file: &[u8]) -> io::Result<()> {
    let mut place = 0;
    while place < file.len() {
        place = print_case(rt, file, place)?;
    }
    Ok(())
}

fn main(rt: HostRuntime) -> io::Result<()> {
    let mut bytes = room();
    let n = read_full(&mut rt.stdin(), &mut bytes)?;
    print_cases(&rt, &bytes[..n])
}
