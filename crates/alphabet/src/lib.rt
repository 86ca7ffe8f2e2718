// One byte: which of document 01's kinds it is: "Lines and labels" (blanks, allowed bytes), "Rows" (digits and letters).
#![tactic(auto)]

pub mod kind; // kind.rt: where a run of bytes of one kind ends

ghost use Rattle.std.specs.Prelude.{◌≡◌, ◌-◌, cond};
ghost use Rattle.format.specs.Bytes.{gap, allowed};
ghost use Rattle.format.specs.Rows.{digit, upper, lower};

// "Blanks are space, tab and carriage return." A gap is a blank or a line feed.
pub fn is_gap(b: u8) -> bool
    ensures { result ≡ gap b }
{
    if b == b' ' {
        return true;
    }
    if b == b'\t' {
        return true;
    }
    if b == b'\r' {
        return true;
    }
    b == b'\n'
}

// "Allowed bytes: 9, 10, 13 and 32 to 126."
pub fn is_allowed(b: u8) -> bool
    ensures { result ≡ allowed b }
{
    if is_gap(b) {
        return true;
    }
    b' ' <= b && b <= b'~'
}

// 0 to 9
pub fn is_digit(b: u8) -> bool
    ensures { result ≡ digit b }
{
    b'0' <= b && b <= b'9'
}

// What a digit says.
pub fn digit(b: u8) -> Option<u32>
    ensures { result ≡ cond (digit b) (Some (b - 48)) None }
{
    if !is_digit(b) {
        return None;
    }
    Some(u32::from(b - b'0'))
}

// A to Z
pub fn is_upper(b: u8) -> bool
    ensures { result ≡ upper b }
{
    b'A' <= b && b <= b'Z'
}

// a to z
pub fn is_lower(b: u8) -> bool
    ensures { result ≡ lower b }
{
    b'a' <= b && b <= b'z'
}
