// Bytes from 32 to 126, which neither end a line nor are refused in it: document 01, "Lines and labels". Most bytes of a block are such, and they are passed eight
// at a time.
ghost use Rattle.std.specs.Prelude.{◌≡◌, ◌&&◌, ◌<◌, length, get_or};
ghost use Rattle.lists.specs.Lists.{all};
ghost use Rattle.format.specs.Bytes.{within};
ghost use Rattle.lines.specs.Looks.{Looking};

// How many values a byte has.
const BYTES: u32 = 256;

// How many bytes are passed at a time.
const EIGHT: usize = 8;

// Whether the byte is 32 to 126: 32 less than it, as a byte, is at most 94. One comparison, so that no way leads around it.
fn is_plain(b: u8) -> bool
    ensures { result ≡ within 32 126 b }
{
    (u32::from(b) + 224) % BYTES <= 94
}

// Whether each byte is 32 to 126. Every byte is looked at: a loop that nothing ends early tests several at once.
fn all_plain(part: &[u8]) -> bool
    ensures { result ≡ all (within 32 126) part.now }
{
    part.iter().fold(true, |fine, b| fine & is_plain(*b))
}

// A place from which the line that starts at `at` ends where it does and is as clean: behind eights of bytes from 32 to 126.
// By an index: with `as_chunks` and `position` a pass over lines of some ten bytes takes 8 of 100 longer.
pub fn plain_to(block: &[u8], at: usize) -> usize
    ensures { Looking block.now at result }
{
    if block.len() < EIGHT {
        return at;
    }
    let last = block.len() - EIGHT;
    let mut i = at;
    while i <= last {
        if !all_plain(&block[i..i + EIGHT]) {
            return i;
        }
        i += EIGHT;
    }
    i
}
