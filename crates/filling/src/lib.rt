// The regions of the structure table, filled: document 01, "The structure table" ("unused ones are 0"). Each is lent as a part of its own; one whose lengths or counts
// do not fit is as it was.
#![tactic(auto)]

pub mod keyed; // keyed.rt: the regions of bonds, centres and pairs
pub mod records; // records.rt: the atoms of the table, charge and radical values

ghost use Rattle.std.specs.Prelude.{◌≡◌, [], ◌∷◌, map};
ghost use Rattle.filling.specs.Filled.{signed_of, placed};

// A number of the scratch as one of the table; 0 for one that the table cannot hold.
#[tactic(auto, unfolding(crate::specs::Filled::signed_of))]
fn signed(number: u32) -> i32
    ensures { result ≡ signed_of number }
{
    i32::try_from(number).unwrap_or(0)
}

// A number of the scratch in its place; one beyond the part's end is dropped.
#[tactic(auto, unfolding(crate::specs::Filled::placed))]
pub fn put(part: &mut [i32], at: usize, number: u32)
    ensures { part.new ≡ placed part.old at (signed_of number ∷ []) }
{
    if at < part.len() {
        part[at] = signed(number);
    }
}

// Numbers of the scratch, one behind the other; those beyond the part's end are dropped.
#[tactic(auto, unfolding(crate::specs::Filled::placed))]
pub fn put_all(part: &mut [i32], at: usize, numbers: &[u32])
    ensures { part.new ≡ placed part.old at (map signed_of numbers.now) }
{
    if part.len() < at {
        return;
    }
    for (i, number) in numbers.iter().enumerate() {
        put(part, at + i, *number);
    }
}
