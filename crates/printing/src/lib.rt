// Bytes, texts and numbers printed into a lent buffer: document 01, "The one written form". What has no place in the buffer is counted and not laid.
#![tactic(auto)]

ghost use Rattle.std.specs.Prelude.{◌≡◌, ◌+◌, ◌≤◌, [], ◌∷◌, length};
ghost use Rattle.format.specs.Writing.{digits_in, digits, unless_zero};
ghost use Rattle.printing.specs.Printing.{next_place, Printed, spaced};

use format::Table;

// What is printed on: the buffer, and the place behind what is printed.
#[derive(Drop)]
pub struct Sheet<'a> {
    pub buffer: &'a mut [u8],
    pub at: usize,
}

// The place behind a place; one beyond the longest form there is none.
fn next_place(at: usize) -> usize
    ensures { result ≡ next_place at }
{
    if at <= Table::BLOCK {
        return at + 1;
    }
    Table::BLOCK + 1
}

// A text over as many bytes. By a loop, not by `copy_from_slice`: that is compiled into `memmove`, which the archive for C would then need from its host.
fn copy(part: &mut [u8], text: &[u8])
    requires { length part.old ≡ length text.now }
    ensures { part.new ≡ text.now }
{
    for i in 0..text.len() {
        part[i] = text[i];
    }
}

impl Sheet<'_> {
    // One byte, laid if the buffer has its place.
    pub fn byte(&mut self, byte: u8)
        ensures { Printed self.old (byte ∷ []) self.new }
    {
        if self.at < self.buffer.len() {
            self.buffer[self.at] = byte;
        }
        self.at = next_place(self.at);
    }

    // The bytes of a text, one by one.
    fn each(&mut self, text: &[u8])
        ensures { Printed self.old text.now self.new }
    {
        for &byte in text {
            self.byte(byte);
        }
    }

    // A text that does not pass the longest form: those of its bytes that have a place in the buffer are laid without a test at each.
    fn lay(&mut self, text: &[u8])
        requires { self.old.at + length text.now ≤ 32768 }
        ensures { Printed self.old text.now self.new }
    {
        if self.at < self.buffer.len() {
            let room = text.len().min(self.buffer.len() - self.at);
            copy(&mut self.buffer[self.at..self.at + room], &text[..room]);
        }
        self.at += text.len();
    }

    // The bytes of a text. One that passes the longest form goes byte by byte, since places stop there.
    pub fn text(&mut self, text: &[u8])
        ensures { Printed self.old text.now self.new }
    {
        if self.at <= Table::BLOCK && text.len() <= Table::BLOCK - self.at {
            self.lay(text);
        } else {
            self.each(text);
        }
    }

    // A few bytes. Where all have their place, and none is beyond the longest form, one test serves for them.
    pub fn bytes<const N: usize>(&mut self, bytes: [u8; N])
        ensures { Printed self.old bytes.entry self.new }
    {
        if self.at <= Table::BLOCK
            && N <= Table::BLOCK - self.at
            && self.at + N <= self.buffer.len()
        {
            self.buffer[self.at..self.at + N].copy_from_slice(&bytes);
            self.at += N;
        } else {
            self.text(&bytes);
        }
    }

    // A number in at most `most` digits, "no leading zeros".
    fn digits(&mut self, number: u32, most: u32)
        ensures { Printed self.old (digits_in most number) self.new }
    {
        if most == 0 {
            return;
        }
        if number >= 10 {
            self.digits(number / 10, most - 1);
        }
        self.byte(b'0' + (number % 10) as u8);
    }

    // A number. Most have one digit, two or three, and are printed without the recursion.
    pub fn number(&mut self, number: u32)
        ensures { Printed self.old (digits number) self.new }
    {
        match number {
            0..=9 => self.byte(b'0' + number as u8),
            10..=99 => self.bytes([b'0' + (number / 10) as u8, b'0' + (number % 10) as u8]),
            100..=999 => self.bytes([
                b'0' + (number / 100) as u8,
                b'0' + (number / 10 % 10) as u8,
                b'0' + (number % 10) as u8,
            ]),
            _ => self.digits(number, 6),
        }
    }

    // A number behind a space: "one space between fields". One of up to three digits is laid with its space.
    pub fn behind(&mut self, number: u32)
        ensures { Printed self.old (32 ∷ digits number) self.new }
    {
        match number {
            0..=9 => self.bytes([b' ', b'0' + number as u8]),
            10..=99 => self.bytes([b' ', b'0' + (number / 10) as u8, b'0' + (number % 10) as u8]),
            100..=999 => self.bytes([
                b' ',
                b'0' + (number / 100) as u8,
                b'0' + (number / 10 % 10) as u8,
                b'0' + (number % 10) as u8,
            ]),
            _ => {
                self.byte(b' ');
                self.number(number);
            }
        }
    }

    // A number behind a space; a zero is left out: "zero hydrogens .. left out".
    pub fn unless_zero(&mut self, number: u32)
        ensures { Printed self.old (spaced (unless_zero number (digits number))) self.new }
    {
        if number != 0 {
            self.behind(number);
        }
    }
}
