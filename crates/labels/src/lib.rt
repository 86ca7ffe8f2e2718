// Label lines: document 01, "Lines and labels"; document 02, L4 (STEREOMOLECULE). The label is compared where it stands, in one pass to its `=`: its letters are read
// into a key, five bits a letter.
#![tactic(auto)]

mod keys; // keys.rt: the key of each known label

ghost use Rattle.std.specs.Prelude.{◌≡◌, [], ◌∷◌, ◌<◌};
ghost use Rattle.format.specs.Bytes.{is_in};
ghost use Rattle.format.specs.Labels.{title_line};
ghost use Rattle.labels.specs.Keys.{longer, grown, next_key, place_of_key, keys};
ghost use Rattle.labels.specs.ShownLines.{code_shown, ShowsLine};

// The codes of the two labels that part a file into blocks.
pub const TITLE: u8 = 1;

pub const END: u8 = 13;

// A code stays a number: `gather::list_turn` and `geometry::line::geometry_line` answer for any code (docs/PROMISES.md), and the definitions find a label by it.
// What a line is: no label line, a label line without `=`, or its label's code (0: skipped) and where the value starts.
#[derive(Clone, Copy, Debug, PartialEq, Eq)]
pub enum LineKind {
    Plain,
    Unparted,
    Labelled(u8, usize),
}

impl LineKind {
    // The code of the line's label: 0 where there is none, or the label is skipped.
    pub fn code(self) -> u8
        ensures { result ≡ code_shown self }
    {
        match self {
            LineKind::Labelled(code, _) => code,
            LineKind::Plain | LineKind::Unparted => 0,
        }
    }
}

// "space, `-`, `/`, `_` are dropped"
#[tactic(auto, unfolding(lists::specs::Lists::any))]
fn is_dropped(b: u8) -> bool
    ensures { result ≡ is_in b (32 ∷ 45 ∷ 47 ∷ 95 ∷ []) }
{
    matches!(b, b' ' | b'-' | b'/' | b'_')
}

// The letters that come behind: `L`, then `E`.
const LETTER_L: u8 = b'L' - BEFORE_UPPER;

const LETTER_E: u8 = b'E' - BEFORE_UPPER;

// The key of twelve letters or more with one more. Apart from `grown_key`: few labels are so long, and the others need not pay for them.
#[tactic(auto, unfolding(crate::specs::Keys::longer))]
fn longer_key(key: u64, letter: u8) -> u64
    ensures { result ≡ longer key letter }
{
    match (key, letter) {
        (keys::TWELVE_LETTERS, LETTER_L) => keys::THIRTEEN_LETTERS,
        (keys::THIRTEEN_LETTERS, LETTER_E) => keys::STEREOMOLECULE,
        _ => keys::STRANGE,
    }
}

// Five bits a letter.
const LETTERS: u64 = 32;

// The key with one letter more, 1 to 26; that of twelve letters has no room for five bits more.
#[tactic(auto, unfolding(crate::specs::Keys::grown))]
fn grown_key(key: u64, letter: u8) -> u64
    ensures { result ≡ grown key letter }
{
    if key < keys::FULL {
        return key * LETTERS + u64::from(letter);
    }
    longer_key(key, letter)
}

// The bytes before `A` and before `a`: a letter's place in the alphabet counts from 1.
const BEFORE_UPPER: u8 = b'A' - 1;

const BEFORE_LOWER: u8 = b'a' - 1;

// The key with one byte of the label more: "For comparison letters become upper case".
#[tactic(auto, unfolding(crate::specs::Keys::next_key, format::specs::Rows::upper, format::specs::Rows::lower, format::specs::Bytes::within))]
fn next_key(key: u64, b: u8) -> u64
    ensures { result ≡ next_key key b }
{
    match b {
        b'A'..=b'Z' => grown_key(key, b - BEFORE_UPPER),
        b'a'..=b'z' => grown_key(key, b - BEFORE_LOWER),
        _ if is_dropped(b) => key,
        _ => keys::STRANGE,
    }
}

// The code of the known label that has this key, 0 where none has it.
#[tactic(auto, unfolding(crate::specs::Keys::place_of_key, crate::specs::Keys::keys))]
fn code_of(key: u64) -> u8
    ensures { (result ≡ place_of_key 1 key keys) × (result < 18) }
{
    match key {
        keys::TITLE => TITLE,
        keys::JCAMP_CS => 2,
        keys::ORIGIN => 3,
        keys::OWNER => 4,
        keys::MOLFORM => 5,
        keys::ATOMLIST => 6,
        keys::BONDLIST => 7,
        keys::CHARGE => 8,
        keys::RADICAL => 9,
        keys::STEREOCENTER => 10,
        keys::STEREOPAIR => 11,
        keys::BLOCK_ID => 12,
        keys::END => END,
        keys::MAX_XYZ => 14,
        keys::XYZ_FACTOR => 15,
        keys::XYZ => 16,
        keys::STEREOMOLECULE => 17,
        _ => 0,
    }
}

// What the line is: "A label line starts with `##` in its first column; the label runs to the first `=`".
pub fn line_kind(line: &[u8]) -> LineKind
    ensures { ShowsLine line.now result }
{
    if !line.starts_with(b"##") {
        return LineKind::Plain;
    }
    let mut key: u64 = 0;
    for i in 2..line.len() {
        let b = line[i];
        if b == b'=' {
            return LineKind::Labelled(code_of(key), i + 1);
        }
        key = next_key(key, b);
    }
    LineKind::Unparted
}

// Whether the line is a TITLE line.
pub fn is_title_line(line: &[u8]) -> bool
    ensures { result ≡ title_line line.now }
{
    line_kind(line).code() == TITLE
}
