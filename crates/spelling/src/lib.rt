// An element and its mass as a symbol: document 01, "The one written form" ("D and T for hydrogen 2 and 3, .. in the atom list too").
#![tactic(auto)]

ghost use Rattle.std.specs.Prelude.{◌≡◌, not, eqb, get_or};
ghost use Rattle.format.specs.Structure.{isotope_of};
ghost use Rattle.format.specs.Writing.{symbol_of, spelt, print_mass, print_sym};
ghost use Rattle.printing.specs.Printing.{Printed};
ghost use Rattle.spelling.specs.Spelling.{plain_sym, letters_of};
ghost use Rattle.spelling.specs.Words.{word_of};

use printing::Sheet;

// 0 for none, as the definitions' symbols are padded.
// The letters of a symbol; the second is 0 where it has one letter.
#[derive(Clone, Copy)]
struct Letters {
    first: u8,
    second: u8,
}

// "Symbols are those of elements 1 (H) to 103 (Lr)": four elements a word from 0 on (which counts as 1), two bytes an element, its first letter in the lower.
// A table would be laid out anew at each use.
#[tactic(auto, unfolding(crate::specs::Words::words, crate::specs::Words::word_of))]
fn letters_word(row: u32) -> u64
    ensures { result ≡ word_of row }
{
    match row {
        0 => 7587550832129212488,
        1 => 21955335950591298,
        2 => 7011653055548883023,
        3 => 22633805156280141,
        4 => 21236248568070227,
        5 => 24322659161694531,
        6 => 8017363114822300227,
        7 => 7009692679818930510,
        8 => 8233254477877044551,
        9 => 25176975384670795,
        10 => 7157468085951033946,
        11 => 7440338355903165778,
        12 => 7085127943395566659,
        13 => 8305593566437664084,
        14 => 8237195058530246978,
        15 => 8450280480914302030,
        16 => 8018792471147603015,
        17 => 8452238736893440581,
        18 => 7300898321216071240,
        19 => 8449162264787383119,
        20 => 7584732819999713096,
        21 => 8234390269110349648,
        22 => 7012219331467632978,
        23 => 7872702611962331221,
        24 => 8306157527503105347,
        25 => 8236080201034722630,
        _ => 0,
    }
}

// Both letters of an element; 0 where there is none.
fn letters_of(element: u32) -> Letters
    ensures { (result.first ≡ get_or (symbol_of element) 0 0) × (result.second ≡ get_or (symbol_of element) 1 0) }
{
    let shift = 16 * (element % 4);
    let bytes = (letters_word(element / 4) >> shift).to_le_bytes();
    Letters {
        first: bytes[0],
        second: bytes[1],
    }
}

// One letter or two.
fn put_letters(sheet: &mut Sheet, letters: Letters)
    ensures { Printed sheet.old (letters_of letters.first letters.second) sheet.new }
{
    sheet.byte(letters.first);
    if letters.second != 0 {
        sheet.byte(letters.second);
    }
}

// A mass behind `^`; none where it is 0.
fn put_mass(sheet: &mut Sheet, mass: u32)
    ensures { Printed sheet.old (print_mass (not (eqb mass 0)) mass) sheet.new }
{
    if mass != 0 {
        sheet.byte(b'^');
        sheet.number(mass);
    }
}

// A symbol by its element's letters.
fn put_plain(sheet: &mut Sheet, element: u32, mass: u32)
    ensures { Printed sheet.old (print_sym (plain_sym element mass)) sheet.new }
{
    put_mass(sheet, mass);
    put_letters(sheet, letters_of(element));
}

// The symbol of an element and its mass: "D and T for hydrogen 2 and 3".
pub fn put_symbol(sheet: &mut Sheet, element: u32, mass: u32)
    ensures { Printed sheet.old (print_sym (spelt (isotope_of element mass))) sheet.new }
{
    match (element, mass) {
        (1, 2) => sheet.byte(b'D'),
        (1, 3) => sheet.byte(b'T'),
        _ => put_plain(sheet, element, mass),
    }
}
