// Charge and radical rows: document 01, "Rows". "CHARGE: signed value, -99 to 99 and not 0, then no or more atoms: one charge spread over them. RADICAL: unsigned 1
// to 15, then the same." One code for both; `signed` tells CHARGE, a flag, since public `spread_line` takes it. A row has any number of fields, so that its line is
// passed over for each test and no field is kept. A refusal is handed on with the line's place. What no reading lends, another length or a count over its limit, is
// answered Unlent, and nothing is touched.
#![tactic(auto)]

ghost use Rattle.std.specs.Prelude.{◌≡◌, Bool, true, false, List, ℕ, ◌≤◌, ◌<◌, ℤ, nat_abs, length, drop, IfSome};
ghost use Rattle.std.specs.declared.option.Option.TheVariants.{Some};
ghost use Rattle.lists.specs.Lists.{all};
ghost use Rattle.format.specs.Bytes.{within, fields};
ghost use Rattle.format.specs.Rows.{Row, row, row_shape};
ghost use Rattle.format.specs.Structure.{ranged};
ghost use Rattle.fields.specs.NextFields.{NextField};
ghost use Rattle.sorted.specs.Steps.{row_after, row_step};
ghost use Rattle.sorted.specs.Regions.{Fits, coded, spread_region};
ghost use Rattle.sorted.specs.Shown.{ShowsAfter, ShowsLine, KeptWithin, LineUntouched};
ghost use Rattle.spread.specs.Members.{list_of, value_in, spread_answer, passes, members_in, ShowsMember, claims, claimed, ShowsClaim};

use fields::Field;
use format::Table;
use format::refusal::{Refusal, Refused};
use sorted::keyed::{is_listed, region_fits};
use sorted::scratch::Scratch;

// A row: its value as value + 100 and where its members start.
#[derive(Clone, Copy)]
pub struct SpreadRow {
    pub code: u32,
    pub members: usize,
}

// A member: its number and where its field ends.
#[derive(Clone, Copy)]
pub struct Member {
    pub number: u32,
    pub to: usize,
}

// The value that the row's first field says: "signed value", or "unsigned".
fn value_of(word: &[u8], signed: bool) -> Option<i32>
    ensures says { result ≡ value_in signed word.now }
    ensures small { IfSome result (λ z. nat_abs z < 1000000) }
{
    if signed {
        numbers::signed(word)
    } else {
        numbers::natural(word)
    }
}

// Whether the value is in its list's range: "-99 to 99 and not 0", or "1 to 15".
fn is_ranged(value: i32, signed: bool) -> bool
    ensures { result ≡ ranged (list_of signed) value }
{
    if signed {
        return matches!(value, -99..=-1 | 1..=99);
    }
    matches!(value, 1..=15)
}

// A value in its range, as value + 100.
fn coded(value: i32) -> u32
    requires { nat_abs value ≤ 99 }
    ensures { result ≡ coded value }
{
    (100 + value) as u32
}

// The member that stands next from `at` on; none where the line ends.
fn member_at(line: &[u8], at: usize) -> Result<Option<Member>, Refusal>
    requires { at ≤ length line.now }
    ensures { ShowsMember line.now at result }
{
    let field = fields::next_field(line, at);
    if field.is_empty() {
        return Ok(None);
    }
    let number = numbers::number(&line[field.from..field.to]).ok_or(Refusal::Shape)?;
    Ok(Some(Member {
        number,
        to: field.to,
    }))
}

// Whether each field from `at` on is an unsigned number that passes the test.
fn all_members<F: Fn(u32) -> bool>(line: &[u8], mut at: usize, test: F) -> bool
    requires in_line { at ≤ length line.now }
    requires can { F.IsAlwaysCallable test }
    ensures { (p : ℕ → Bool) → ((n : ℕ) (b : Bool) → F.post test n b → b ≡ p n) → result ≡ all (passes p) (fields (drop at line.now)) }
{
    loop {
        match member_at(line, at) {
            Ok(None) => return true,
            Err(_) => return false,
            Ok(Some(member)) => {
                if !test(member.number) {
                    return false;
                }
                at = member.to;
            }
        }
    }
}

// Apart from `all_members`, since a closure that writes would need laws of each write.
// The members take the row's number, as long as none has a row: "In each list an atom stands once".
fn claim_members(line: &[u8], mut at: usize, number: u32, region: &mut [u32]) -> bool
    requires { (length region.old ≡ 321) × (at ≤ length line.now) × (all (within 1 256) (members_in (fields (drop at line.now))) ≡ true) }
    ensures { (length region.new ≡ 321) × ShowsClaim result region.new (claims number (members_in (fields (drop at line.now))) region.old) }
{
    loop {
        match member_at(line, at) {
            Ok(None) => return true,
            Err(_) => return false,
            Ok(Some(member)) => {
                let place = member.number as usize - 1;
                if region[place] != 0 {
                    return false;
                }
                region[place] = number;
                at = member.to;
            }
        }
    }
}

// The members, or the one row without atoms, take the row's number: "one row at most has no atoms; otherwise a clash".
fn claim(line: &[u8], at: usize, number: u32, region: &mut [u32]) -> bool
    requires { (length region.old ≡ 321) × (at ≤ length line.now) × (all (within 1 256) (members_in (fields (drop at line.now))) ≡ true) }
    ensures { (length region.new ≡ 321) × ShowsClaim result region.new (claimed number (members_in (fields (drop at line.now))) region.old) }
{
    match member_at(line, at) {
        Ok(None) => {
            if region[Scratch::WITHOUT_ATOMS] != 0 {
                return false;
            }
            region[Scratch::WITHOUT_ATOMS] = number;
            true
        }
        Err(_) => false,
        Ok(Some(_)) => claim_members(line, at, number, region),
    }
}

// A row whose value is in its range joins the list, or its refusal: 11, 13, 14.
fn add_row(
    line: &[u8],
    at: usize,
    code: u32,
    atoms: usize,
    count: usize,
    region: &mut [u32],
) -> Result<usize, Refusal>
    requires { (length region.old ≡ 321) × (at ≤ length line.now) × (count ≤ 64) × (atoms ≤ 256) }
    ensures { (length region.new ≡ 321) × KeptWithin 64 result × ((s : Bool) (v : ℤ) (rs : List Row) → ranged (list_of s) v ≡ true → coded v ≡ code → length rs ≡ count → region.old ≡ spread_region rs → ShowsAfter spread_region region.new result (row_after (list_of s) atoms rs (Some (row (members_in (fields (drop at line.now))) v 0)))) }
{
    if !all_members(line, at, |n| is_listed(n, atoms)) {
        return Err(Refusal::AtomNumber);
    }
    if !claim(line, at, count as u32 + 1, region) {
        return Err(Refusal::Clash);
    }
    if Table::CHARGES <= count {
        return Err(Refusal::Full);
    }
    region[Table::ATOMS + count] = code;
    Ok(count + 1)
}

// The row of a line whose first field is given: "signed value .., then no or more atoms", or "unsigned 1 to 15, then the same".
fn spread_row(line: &[u8], first: Field, signed: bool) -> Result<SpreadRow, Refusal>
    requires { NextField line.now 0 first × (first.from < first.to) }
    ensures { result ≡ spread_answer signed first.to (row_shape (list_of signed) (fields line.now)) }
{
    let value = value_of(&line[first.from..first.to], signed).ok_or(Refusal::Shape)?;
    if !all_members(line, first.to, |_| true) {
        return Err(Refusal::Shape);
    }
    if !is_ranged(value, signed) {
        return Err(Refusal::Range);
    }
    Ok(SpreadRow {
        code: coded(value),
        members: first.to,
    })
}

// A line without a field leaves its list as it is, a row joins it.
fn line_joined(
    line: &[u8],
    signed: bool,
    atoms: usize,
    count: usize,
    region: &mut [u32],
) -> Result<usize, Refusal>
    requires { (length region.old ≡ 321) × (count ≤ 64) × (atoms ≤ 256) }
    ensures { (length region.new ≡ 321) × KeptWithin 64 result × ((rs : List Row) → length rs ≡ count → Fits (list_of signed) atoms rs → region.old ≡ spread_region rs →
        ShowsAfter spread_region region.new result (row_step (list_of signed) atoms rs (fields line.now))) }
{
    let first = fields::next_field(line, 0);
    if first.is_empty() {
        return Ok(count);
    }
    let row = spread_row(line, first, signed)?;
    add_row(line, row.members, row.code, atoms, count, region)
}

// What a line of CHARGE (signed) or RADICAL leaves of its list, `count` rows there and `atoms` atoms listed. The line is without its comment; `place` is where it
// stands in its block.
pub fn spread_line(
    line: &[u8],
    place: usize,
    signed: bool,
    atoms: usize,
    count: usize,
    region: &mut [u32],
) -> Result<usize, Refused>
    ensures { (length region.new ≡ length region.old) × (length region.old ≡ 321 → count ≤ 64 → atoms ≤ 256 → KeptWithin 64 result × ((rs : List Row) → length rs ≡ count → Fits (list_of signed) atoms rs → region.old ≡ spread_region rs →
        ShowsLine spread_region place region.new result (row_step (list_of signed) atoms rs (fields line.now))))
        × ((length region.old ≡ 321 → count ≤ 64 → atoms ≤ 256 → ⊥) → LineUntouched place region.old region.new result) }
{
    if !region_fits(region.len(), Scratch::SPREAD, count, Table::CHARGES, atoms) {
        return Err(Refusal::Unlent.at(place));
    }
    line_joined(line, signed, atoms, count, region).map_err(|refusal| refusal.at(place))
}
