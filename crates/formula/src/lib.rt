// The formula's machine, a byte a step, and what it says of a whole value: document 01, "Rows", MOLFORM.
#![tactic(auto)]

pub mod entry; // entry.rt: entries, and those that programs write

ghost use Rattle.std.specs.Prelude.{◌≡◌, true, ◌+◌, ◌-◌, ◌*◌, ◌^◌, ◌<◌, ◌≤◌};
ghost use Rattle.std.specs.Option.{option_map};
ghost use Rattle.format.specs.Rows.{digit};
ghost use Rattle.format.specs.Formula.{between, at_caret, in_mass, at_one, at_two, at_slash, in_count, counted, part, leave, finish};
ghost use Rattle.symbols.specs.ShownSymbols.{sym_of_mark};
ghost use Rattle.formula.specs.Machine.{state_shown, told_shown, entry_shown, Sized, Stepped, Moved};

use crate::entry::Entry;
use alphabet::{digit, is_gap, is_lower, is_upper};
use symbols::Mark;

// The states, with what they carry, are those of the definitions' machine, one for one.
// Where the machine stands: no shape any more, between entries (whether the fragment has one yet), after `^`, in a mass (its digits so far, its value), after
// one letter, after two, after `/`, in a count.
#[derive(Clone, Copy, Debug, PartialEq, Eq)]
pub enum State {
    Dead,
    Between(bool),
    AtCaret,
    InMass { size: u32, value: u32 },
    AtOne { caret: bool, mass: u32, first: u8 },
    AtTwo(Mark),
    AtSlash(Mark),
    InCount { mark: Mark, size: u32, value: u32 },
}

// A byte's step: the state behind it, and the entry that it ends, if it ends one.
#[derive(Clone, Copy, Debug, PartialEq, Eq)]
pub struct Move {
    pub state: State,
    pub told: Option<Entry>,
}

impl Move {
    // A step that ends no entry.
    fn still(state: State) -> Move
        ensures { result ≡ record { state = state; told = None } }
    {
        Move { state, told: None }
    }
}

// A number of fewer than six digits with one digit more; 0 for others.
fn longer(value: u32, more: u32) -> u32
    requires { more < 10 }
    ensures { value < 100000 → result ≡ value * 10 + more }
{
    if value < 100000 { value * 10 + more } else { 0 }
}

// Between entries: "`^` stands at the start or after a blank or `*`. `*` parts two non-empty fragments."
fn between_step(begun: bool, byte: u8) -> Move
    ensures { Stepped (between begun) byte result }
{
    if is_upper(byte) {
        return Move::still(State::AtOne {
            caret: false,
            mass: 0,
            first: byte,
        });
    }
    if byte == b'^' {
        return Move::still(State::AtCaret);
    }
    if is_gap(byte) {
        return Move::still(State::Between(begun));
    }
    if byte == b'*' && begun {
        return Move::still(State::Between(false));
    }
    Move::still(State::Dead)
}

// After `^`: "before it optionally `^` and 1 to 3 digits".
fn caret_step(byte: u8) -> Move
    ensures { Stepped at_caret byte result }
{
    let Some(value) = digit(byte) else {
        return Move::still(State::Dead);
    };
    Move::still(State::InMass { size: 1, value })
}

// In a mass: "1 to 3 digits", then an upper-case letter.
fn mass_step(size: u32, value: u32, byte: u8) -> Move
    ensures { (size ≤ 3) × (value < 10 ^ size) → Stepped (in_mass size value) byte result }
{
    if let Some(more) = digit(byte) {
        if size < 3 {
            return Move::still(State::InMass {
                size: size + 1,
                value: longer(value, more),
            });
        }
        return Move::still(State::Dead);
    }
    if is_upper(byte) {
        return Move::still(State::AtOne {
            caret: true,
            mass: value,
            first: byte,
        });
    }
    Move::still(State::Dead)
}

// The end of an entry: "A one-letter symbol without count is followed by a blank, `*` or the end".
fn part_step(entry: Entry, byte: u8) -> Move
    ensures { Moved (part (entry_shown entry) byte) result }
{
    if is_gap(byte) {
        return Move {
            state: State::Between(true),
            told: Some(entry),
        };
    }
    if byte == b'*' {
        return Move {
            state: State::Between(false),
            told: Some(entry),
        };
    }
    Move::still(State::Dead)
}

// The end of an entry of two letters or a count: the next entry's letter may follow at once.
fn leave_step(entry: Entry, byte: u8) -> Move
    ensures { Moved (leave (entry_shown entry) byte) result }
{
    if !is_upper(byte) {
        return part_step(entry, byte);
    }
    let state = State::AtOne {
        caret: false,
        mass: 0,
        first: byte,
    };
    Move {
        state,
        told: Some(entry),
    }
}

// After one letter.
fn one_step(caret: bool, mass: u32, first: u8, byte: u8) -> Move
    ensures { Stepped (at_one caret mass first) byte result }
{
    if is_lower(byte) {
        return Move::still(State::AtTwo(Mark {
            caret,
            mass,
            first,
            second: byte,
        }));
    }
    let mark = Mark {
        caret,
        mass,
        first,
        second: 0,
    };
    if let Some(value) = digit(byte) {
        return Move::still(State::InCount {
            mark,
            size: 1,
            value,
        });
    }
    if byte == b'/' {
        return Move::still(State::AtSlash(mark));
    }
    part_step(Entry { mark, count: 1 }, byte)
}

// After two letters.
fn two_step(mark: Mark, byte: u8) -> Move
    ensures { Stepped (at_two (sym_of_mark mark)) byte result }
{
    if let Some(value) = digit(byte) {
        return Move::still(State::InCount {
            mark,
            size: 1,
            value,
        });
    }
    if byte == b'/' {
        return Move::still(State::AtSlash(mark));
    }
    leave_step(Entry { mark, count: 1 }, byte)
}

// After `/`: "1 to 6 digits, `/` before them optional".
fn slash_step(mark: Mark, byte: u8) -> Move
    ensures { Stepped (at_slash (sym_of_mark mark)) byte result }
{
    let Some(value) = digit(byte) else {
        return Move::still(State::Dead);
    };
    Move::still(State::InCount {
        mark,
        size: 1,
        value,
    })
}

// In a count: "1 to 6 digits".
fn count_step(mark: Mark, size: u32, value: u32, byte: u8) -> Move
    ensures { (size ≤ 6) × (value < 10 ^ size) → Stepped (in_count (sym_of_mark mark) size value) byte result }
{
    let Some(more) = digit(byte) else {
        return leave_step(Entry { mark, count: value }, byte);
    };
    if size < 6 {
        return Move::still(State::InCount {
            mark,
            size: size + 1,
            value: longer(value, more),
        });
    }
    Move::still(State::Dead)
}

// The machine's step over a byte, for a state whose numbers are no longer than their digits.
pub fn formula_step(state: State, byte: u8) -> Move
    ensures { Sized state → Stepped (state_shown state) byte result }
{
    match state {
        State::Dead => Move::still(State::Dead),
        State::Between(begun) => between_step(begun, byte),
        State::AtCaret => caret_step(byte),
        State::InMass { size, value } => mass_step(size, value, byte),
        State::AtOne { caret, mass, first } => one_step(caret, mass, first, byte),
        State::AtTwo(mark) => two_step(mark, byte),
        State::AtSlash(mark) => slash_step(mark, byte),
        State::InCount { mark, size, value } => count_step(mark, size, value, byte),
    }
}

// What the end of the value says in a state: nothing where it has no shape (an empty fragment, a bare `^` or `/`), else the entry that ends there, if one is open.
pub fn formula_end(state: State) -> Option<Option<Entry>>
    ensures { option_map told_shown result ≡ finish (state_shown state) }
{
    match state {
        State::Between(true) => Some(None),
        State::AtOne { caret, mass, first } => {
            let mark = Mark {
                caret,
                mass,
                first,
                second: 0,
            };
            Some(Some(Entry { mark, count: 1 }))
        }
        State::AtTwo(mark) => Some(Some(Entry { mark, count: 1 })),
        State::InCount { mark, value, .. } => Some(Some(Entry { mark, count: value })),
        State::Dead
        | State::Between(false)
        | State::AtCaret
        | State::InMass { .. }
        | State::AtSlash(_) => None,
    }
}
