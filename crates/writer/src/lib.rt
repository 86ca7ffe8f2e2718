// Writing a table as the one written form: document 01, "The one written form" and the writing part of "Refusal numbers". A form is measured before the first byte
// is laid in the buffer, so that a refusal leaves the buffer alone.
#![tactic(auto)]

ghost use Rattle.std.specs.Prelude.{◌≡◌, ◌≤◌, length};
ghost use Rattle.format.specs.Writing.{write_result};
ghost use Rattle.writer.specs.Answers.{shown, SoundWritten, GroupsGathered};

use form::put_form;
use format::Table;
use format::refusal::Refusal;
use groups::group_atoms;
use soundness::is_sound;
use tally::entries::Tally;
use tally::gather;

// How many bytes the draft holds: most forms are shorter.
const DRAFT: usize = 4096;

// The formula's entries, group by group.
fn gather_groups(table: &[i32], tally: &mut Tally)
    ensures within { length tally.new ≤ 512 }
    ensures holds { GroupsGathered table.now tally.new }
{
    let mut labels = [0u8; Table::ATOMS];
    group_atoms(table, &mut labels);
    gather(table, &labels, tally);
}

// A sound table: "23, the form would pass 32,768 bytes; 22, the buffer is shorter"; else it is written. The form is printed into a draft, which tells its length and,
// for most blocks, holds all of it, so that it needs only be copied; a longer one is printed once more.
fn write_sound(table: &[i32], bytes: &[u8], buffer: &mut [u8]) -> Result<usize, Refusal>
    requires { 3856 ≤ length table.now }
    ensures { SoundWritten table.now bytes.now buffer.old result buffer.new }
{
    let mut tally = Tally::new();
    gather_groups(table, &mut tally);
    let entries = tally.entries();
    let mut draft = [0u8; DRAFT];
    let size = put_form(&mut draft, table, bytes, entries);
    if Table::BLOCK < size {
        return Err(Refusal::LongForm);
    }
    if buffer.len() < size {
        return Err(Refusal::ShortBuffer);
    }
    if size <= DRAFT {
        buffer[..size].copy_from_slice(&draft[..size]);
    } else {
        put_form(buffer, table, bytes, entries);
    }
    Ok(size)
}

// How many bytes were written, or why none was. "Writing takes a table, the bytes its texts stand in, and a buffer. Refusals in this order: 1; 21, the table isn't sound ..; 23 ..; 22 .."
pub fn write(table: &[i32], bytes: &[u8], buffer: &mut [u8]) -> Result<usize, Refusal>
    ensures { shown result buffer.new ≡ write_result 103 table.now bytes.now buffer.old }
{
    if table.len() < Table::SIZE {
        return Err(Refusal::ShortTable);
    }
    if !is_sound(table, bytes) {
        return Err(Refusal::Unsound);
    }
    write_sound(table, bytes, buffer)
}
