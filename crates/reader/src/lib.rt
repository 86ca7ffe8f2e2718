// Reading one block into a table and its positions: document 01, "The structure table", "Refusal numbers"; document 02, L2.
#![tactic(auto)]

ghost use Rattle.std.specs.Prelude.{◌≡◌, ◌++◌, ◌≤◌, length, drop};
ghost use Rattle.format.specs.Table.{zeros, noughts, lent, short, read_result};
ghost use Rattle.format.specs.Refusals.{number_of};
ghost use Rattle.format.specs.Walking.{packed, check_of};
ghost use Rattle.coordinates.specs.ShownPositions.{fronted};
ghost use Rattle.reader.specs.Answers.{shown_read, CaseTold, Accepts};

use coordinates::fill::fill;
use coordinates::kept::ROOM;
use coordinates::table::{Positions, clear};
use factor::factor_from;
use format::Table;
use format::refusal::{Refusal, Refused};
use gather::progress::Progress;
use judgement::rules::Rules;
use sorted::scratch::Scratch;

// 1 "table shorter than 3,856; untouched"; "a short position table is 1, nothing touched": both lengths are looked at before anything is touched.
fn is_short(table: &[i32], positions: &[f64]) -> bool
    ensures { result ≡ short (lent table.now positions.now) }
{
    if table.len() < Table::SIZE {
        return true;
    }
    positions.len() < Positions::SIZE
}

// "Refusals 2 to 17 zero the 3,856 numbers", "those beyond are untouched"; positions are "cleared on refusals other than 1".
fn refuse(refused: Refused, table: &mut [i32], positions: &mut [f64]) -> Result<(), Refused>
    ensures { (result ≡ Err refused) × (3856 ≤ length table.old → table.new ≡ zeros 3856 ++ drop 3856 table.old) × (positions.new ≡ fronted (noughts 1024) positions.old) }
{
    clearing::clear(table);
    clear(positions);
    Err(refused)
}

// What an accepted block says, in the lent tables: the positions first, from the rows that the table still keeps, then the structure over them.
fn accept(block: &[u8], p: Progress, scratch: &[u32], table: &mut [i32], positions: &mut [f64])
    requires { (length scratch.now ≡ 2973) × (3856 ≤ length table.old) }
    ensures { Accepts block.now p scratch.now (lent table.old positions.old) (lent table.new positions.new) }
{
    let region = &scratch[Scratch::FIRST_GEOMETRY..Scratch::SIZE];
    let factor = factor_from(region[Scratch::DIGITS], region[Scratch::DECIMALS]);
    fill(
        positions,
        factor,
        region[Scratch::ROWS] as usize,
        &table[0..ROOM],
    );
    publish::publish(block, p, scratch, table);
}

// Reads one block into a lent table and its positions into another: 1 where one of them is short, 2 "block over 32,768 bytes"; every refusal but 1 clears both, and what
// lies beyond stays. While the block is read, its rows of XYZ are kept in the first numbers of the table.
pub fn read(block: &[u8], table: &mut [i32], positions: &mut [f64]) -> Result<(), Refused>
    ensures result { shown_read result (lent table.new positions.new) ≡ read_result 103 block.now (lent table.old positions.old) }
    ensures told { CaseTold result }
{
    if is_short(table, positions) {
        return Err(Refusal::ShortTable.at(0));
    }
    if Table::BLOCK < block.len() {
        return refuse(Refusal::LongBlock.at(0), table, positions);
    }
    let mut scratch = [0u32; Scratch::SIZE];
    match judgement::judge(block, Rules::TODAY, &mut scratch, &mut table[0..ROOM]) {
        Ok(p) => {
            accept(block, p, &scratch, table, positions);
            Ok(())
        }
        Err(refused) => refuse(refused, table, positions),
    }
}

// What a number counts that stands in the upper half of one of 64 bits.
const HIGH: u64 = 4294967296;

// Beside the door's `packed`, which the host keeps for itself: it asks for a low half below 2^32, and nothing that another crate calls may ask.
// "refusal number times 2^32, plus the place"
fn packed_answer(refused: Refused) -> u64
    requires { refused.place ≤ 32768 }
    ensures { result ≡ packed (number_of refused.refusal) refused.place }
{
    u64::from(refused.refusal.number()) * HIGH + refused.place as u64
}

// Judges one block as one number: "it judges as with a long enough table". No row of XYZ is kept.
pub fn check(block: &[u8]) -> u64
    ensures { result ≡ check_of 103 block.now }
{
    if Table::BLOCK < block.len() {
        return packed_answer(Refusal::LongBlock.at(0));
    }
    let mut scratch = [0u32; Scratch::SIZE];
    let mut none = [0i32; 1];
    match judgement::judge(block, Rules::TODAY, &mut scratch, &mut none) {
        Ok(_) => 0,
        Err(refused) => packed_answer(refused),
    }
}
