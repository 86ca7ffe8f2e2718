// The elements by their letters, and nothing else: document 01, "Rows", ATOMLIST. The rule of the words stands in proofs/PlaceTable.antt.
ghost use Rattle.std.specs.Prelude.{◌≡◌, ◌≤◌, ◌<◌};
ghost use Rattle.format.specs.Structure.{symbols, place_of};
ghost use Rattle.elements.specs.Spelling.{spelling};
ghost use Rattle.elements.specs.Words.{word_of};

// "Symbols are those of elements 1 (H) to 103 (Lr)": 27 entries for an upper-case letter, that letter alone, then with a to z; 0 where no element has these letters.
// Nine entries a word, seven bits an entry: a table would be laid out anew at each use. The words of A to K.
fn early_word(row: usize) -> u64
    requires { row < 33 }
    ensures { result ≡ word_of row }
{
    match row {
        0 => 26458647997448192,
        1 => 25528631296,
        2 => 167071890,
        3 => 137438960645,
        4 => 1589331,
        5 => 35,
        6 => 433014307817990,
        7 => 118773061255168,
        8 => 60824472,
        11 => 37154696925806592,
        14 => 132133316,
        15 => 893353197577,
        16 => 26843545600,
        17 => 87,
        18 => 1116691500928,
        21 => 45352724341981185,
        22 => 294669116243968,
        24 => 53,
        25 => 1683627180032,
        26 => 77,
        30 => 19,
        32 => 36,
        _ => 0,
    }
}

// The words of L to Z.
fn late_word(row: usize) -> u64
    requires { (33 ≤ row) × (row < 78) }
    ensures { result ≡ word_of row }
{
    match row {
        33 => 7296,
        34 => 3,
        35 => 148897895,
        36 => 6755426553036800,
        37 => 185576946925568,
        39 => 359704184199,
        40 => 52802946412314652,
        42 => 8,
        44 => 9728,
        45 => 12349386127,
        46 => 369452281495552,
        47 => 198410299,
        51 => 3242594308687752192,
        52 => 2954937499648,
        53 => 92274688,
        54 => 1168275980304,
        55 => 1734629916686,
        56 => 38,
        57 => 6485185250211161216,
        58 => 18691915798,
        60 => 92,
        63 => 23,
        66 => 74,
        69 => 1855425871872,
        72 => 1146919,
        76 => 1030792151040,
        77 => 40,
        _ => 0,
    }
}

// An entry of a word has seven bits.
const ENTRY: u64 = 128;

// The element whose letters have the number k: the upper-case letter's place times 27, and the lower-case letter's (0 where there is none). Never laid into its caller,
// which is laid into the loops over atoms and entries: most symbols are of one letter and do without it.
#[inline(never)]
pub fn entry_at(k: usize) -> u32
    requires { k < 702 }
    ensures { result ≡ place_of 1 (spelling k) symbols }
{
    let row = k / 9;
    let shift = 7 * (k as u64 % 9);
    if row < 33 {
        return ((early_word(row) >> shift) % ENTRY) as u32;
    }
    ((late_word(row) >> shift) % ENTRY) as u32
}
