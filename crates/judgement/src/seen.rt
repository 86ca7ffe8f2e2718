// The labels seen so far and their order: document 01, "Lines and labels"; document 02, L2 and L4. 18 numbers by code, 1 for a label that was seen.
// Each function asks for their length: a part of an array is a slice, and as `&[u32; 18]` every call would take apart an Option whose None no scratch gives.
ghost use Rattle.std.specs.Prelude.{◌≡◌, ◌||◌, not, List, [], ◌∷◌, ◌-◌, ◌*◌, ◌/◌, ◌%◌, ◌^◌, ◌<◌, length};
ghost use Rattle.lists.specs.Lists.{any};
ghost use Rattle.format.specs.Labels.{Label, known, misplaced};
ghost use Rattle.format.specs.Reading.{noted, lacks, partly};
ghost use Rattle.labels.specs.ShownLines.{by_code};
ghost use Rattle.sorted.specs.Regions.{seen_from, top_of};

use gather::codes::{
    MAX_XYZ, MOLFORM, ORIGIN, OWNER, SKIPPED, STEREOMOLECULE, VERSION, XYZ, XYZ_FACTOR,
};

// By place, a number for each code: the labels' region of the lent scratch has them so (sorted/scratch.rt).
// Where the interval of each label begins and ends, four bits a code; b must follow a where a's interval ends before b's begins. One number, since a table would be
// laid out anew at each use; it has the bits of the codes 0 to 15, and the codes 16 and 17, XYZ and STEREOMOLECULE, go by those of 14 and 15, whose intervals are the
// same.
const LOWS: u64 = 11070861189106119184;

const HIGHS: u64 = 11072550038966383130;

// The four bits of a code in one of the two numbers.
fn bits_of(packed: u64, code: usize) -> u32
    requires { code < 18 }
    ensures { result ≡ packed / 2 ^ (4 * (code - 2 * (code / 16))) % 16 }
{
    let shift = 4 * (code - 2 * (code / 16)) as u64;
    ((packed >> shift) % 16) as u32
}

// Where the label's interval begins.
fn low_of(code: usize) -> u32
    requires { code < 18 }
    ensures { result ≡ (by_code code known).low }
{
    bits_of(LOWS, code)
}

// Where the label's interval ends.
fn high_of(code: usize) -> u32
    requires { code < 18 }
    ensures { result ≡ (by_code code known).high }
{
    bits_of(HIGHS, code)
}

// "Each at most once. A label is out of order if a known label that must follow it has been seen."
pub fn out_of_order(seen: &[u32], top: u32, code: usize) -> bool
    requires { (length seen.now ≡ 18) × (code < 18) }
    ensures { (labels : List Label) → seen.now ≡ seen_from 18 0 labels → top ≡ top_of labels → result ≡ misplaced labels (by_code code known) }
{
    if seen[code] != 0 {
        return true;
    }
    high_of(code) < top
}

// The label is noted among those seen, an unknown one is not; the answer is the new top.
pub fn note(seen: &mut [u32], top: u32, code: usize) -> u32
    requires { (length seen.old ≡ 18) × (code < 18) }
    ensures { (length seen.new ≡ 18) × ((labels : List Label) → seen.old ≡ seen_from 18 0 labels → top ≡ top_of labels →
        (seen.new ≡ seen_from 18 0 (noted code (by_code code known) labels)) × (result ≡ top_of (noted code (by_code code known) labels))) }
{
    if code == SKIPPED as usize {
        return top;
    }
    seen[code] = 1;
    let low = low_of(code);
    if top < low {
        return low;
    }
    top
}

// Whether JCAMP-CS, ORIGIN, OWNER or MOLFORM is missing.
pub fn lacking(seen: &[u32]) -> bool
    requires { length seen.now ≡ 18 }
    ensures { (labels : List Label) → seen.now ≡ seen_from 18 0 labels → result ≡ any (lacks labels) (2 ∷ 3 ∷ 4 ∷ 5 ∷ []) }
{
    if seen[VERSION as usize] == 0 {
        return true;
    }
    if seen[ORIGIN as usize] == 0 {
        return true;
    }
    if seen[OWNER as usize] == 0 {
        return true;
    }
    seen[MOLFORM as usize] == 0
}

// 41 "one or two of the three labels present without the rest": MAX_XYZ, XYZ_FACTOR, XYZ (document 02, L2). All three numbers are read first: no branch stands between.
pub fn partly(seen: &[u32]) -> bool
    requires { length seen.now ≡ 18 }
    ensures { (labels : List Label) → seen.now ≡ seen_from 18 0 labels → result ≡ partly labels (14 ∷ 15 ∷ 16 ∷ []) }
{
    let greatest = seen[MAX_XYZ as usize];
    let factor = seen[XYZ_FACTOR as usize];
    let rows = seen[XYZ as usize];
    if factor != greatest {
        return true;
    }
    rows != greatest
}

// Whether STEREOMOLECULE stands without its YES: 9 "no value" (document 02, L4).
pub fn unanswered(seen: &[u32], handed: bool) -> bool
    requires { length seen.now ≡ 18 }
    ensures { (labels : List Label) → seen.now ≡ seen_from 18 0 labels → result ≡ not (lacks labels 17 || handed) }
{
    if handed {
        return false;
    }
    seen[STEREOMOLECULE as usize] != 0
}
