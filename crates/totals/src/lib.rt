// The formula against the atoms: document 01, "At END, for every element and mass, the formula's total over all fragments equals the atoms listed, with implied
// hydrogens counted as hydrogen without mass." The atoms are tallied, each entry of the formula is taken from the tally, and nothing may be left. Atoms without
// mass are counted by element; each atom with a mass has a cell of two lists, its element and its mass.
#![tactic(auto)]

mod left; // left.rt: the cells of what is left

ghost use Rattle.std.specs.Prelude.{◌≡◌, true, false, List, [], ◌∷◌, ℕ, ◌+◌, ◌*◌, ◌^◌, ◌<◌, ◌≤◌, length, get_or, set, drop};
ghost use Rattle.lists.specs.Lists.{all};
ghost use Rattle.format.specs.Formula.{finish, formula_shape};
ghost use Rattle.format.specs.Structure.{Atom, atom_ok, isotope_of, entry, entries_of, agree};
ghost use Rattle.formula.specs.Machine.{state_shown, entry_shown, told_shown, Sized};
ghost use Rattle.sorted.specs.Regions.{kinds_region};
ghost use Rattle.gather.specs.Progress.{entries_from, entry_fine};
ghost use Rattle.totals.specs.Taking.{TookTold, TookByte, TookLead};
ghost use Rattle.totals.specs.Left.{left_in, is_zero, Blank, Adds, Takes, Took, Counts, Says, Tallied, Answered, cell_of};

use crate::left::{COUNTS, ELEMENTS, Left};
use elements::isotope_of;
use format::Table;
use formula::entry::{Entry, quick_entry};
use formula::{State, formula_end, formula_step};
use sorted::scratch::Scratch;

// How far the quick entries from the formula's start reach, each taken: whether the fragment has an entry there, and the place.
#[derive(Clone, Copy, Debug, PartialEq, Eq)]
pub struct Lead {
    pub begun: bool,
    pub at: usize,
}

// Whether every cell is 0. All of them are looked at, since most often all are 0: a loop with one way out is compiled into tests of several cells at once.
fn all_zero(cells: &[u32]) -> bool
    ensures { result ≡ all is_zero cells.now }
{
    let mut seen = 0;
    for cell in cells {
        seen |= *cell;
    }
    seen == 0
}

impl Left {
    // Nothing.
    fn nothing() -> Left
        ensures { Blank result.counts × Blank result.masses }
    {
        Left {
            counts: [0; COUNTS],
            elements: [0; Table::ATOMS],
            masses: [0; Table::ATOMS],
        }
    }

    // So many more of an element without mass.
    fn add(&mut self, element: u32, number: u32)
        ensures cells { (self.new.elements ≡ self.old.elements) × (self.new.masses ≡ self.old.masses) }
        ensures added { element ≤ 103 → get_or self.old.counts element 0 + number < 2 ^ 32 → self.new.counts ≡ set self.old.counts element (get_or self.old.counts element 0 + number) }
    {
        if element <= ELEMENTS {
            let place = element as usize;
            self.counts[place] = self.counts[place].saturating_add(number);
        }
    }

    // The atom of a place is tallied.
    fn tally_atom(&mut self, place: usize, element: u32, mass: u32)
        requires { place < 256 }
        ensures later { (n : ℕ) → place < n → get_or self.new.masses n 0 ≡ get_or self.old.masses n 0 }
        ensures added { element ≤ 103 → get_or self.old.counts element 0 ≤ 9999 → get_or self.old.masses place 0 ≡ 0 → Adds (left_in self.old) (left_in self.new) (entry (isotope_of element mass) 1) }
    {
        if mass == 0 {
            self.add(element, 1);
            return;
        }
        self.elements[place] = element;
        self.masses[place] = mass;
    }

    // The atoms are tallied, "with implied hydrogens counted as hydrogen without mass".
    fn tally(&mut self, kinds: &[u32], atoms: usize)
        requires { (length kinds.now ≡ 768) × (atoms ≤ 256) × Blank self.old.counts × Blank self.old.masses }
        ensures { Tallied kinds.now atoms atoms (left_in self.new) }
    {
        for i in 0..atoms {
            self.add(1, kinds[3 * i + 2]);
            self.tally_atom(i, kinds[3 * i], kinds[3 * i + 1]);
        }
    }

    // Takes the atom of a cell where it is of an element and a mass: 1 where it is, else 0.
    fn strike_cell(&mut self, place: usize, element: u32, mass: u32) -> u32
        requires { place < 256 }
        ensures one { result ≤ 1 }
        ensures kept { (self.new.counts ≡ self.old.counts) × (self.new.elements ≡ self.old.elements) × (drop (place + 1) self.new.masses ≡ drop (place + 1) self.old.masses) }
        ensures held { cell_of (isotope_of element mass) (get_or self.old.elements place 0) (get_or self.old.masses place 0) ≡ result }
        ensures taken { 0 < mass → Takes (left_in self.old) (left_in self.new) (entry (isotope_of element mass) result) true }
    {
        if self.masses[place] != mass {
            return 0;
        }
        if self.elements[place] != element {
            return 0;
        }
        self.masses[place] = 0;
        1
    }

    // Takes so many atoms of an element and a mass; no where there are fewer.
    fn strike(&mut self, element: u32, mass: u32, count: u32) -> bool
        ensures { 0 < mass → Takes (left_in self.old) (left_in self.new) (entry (isotope_of element mass) count) result }
    {
        let mut owed = count;
        for place in 0..Table::ATOMS {
            if owed == 0 {
                return true;
            }
            owed -= self.strike_cell(place, element, mass);
        }
        owed == 0
    }

    // Takes so many of an element and a mass; no where there are fewer.
    fn take(&mut self, element: u32, mass: u32, count: u32) -> bool
        ensures { element ≤ 103 → Took (left_in self.old) (left_in self.new) (entry (isotope_of element mass) count) result }
    {
        if mass != 0 {
            return self.strike(element, mass, count);
        }
        if ELEMENTS < element {
            return false;
        }
        let before = self.counts[element as usize];
        if before < count {
            return false;
        }
        self.counts[element as usize] = before - count;
        true
    }

    // Whether nothing is left.
    fn none_left(&self) -> bool
        ensures { Says result (Counts (left_in self.now) []) }
    {
        if !all_zero(&self.counts) {
            return false;
        }
        all_zero(&self.masses)
    }

    // Takes an entry of the formula; no where too little is left.
    fn take_entry(&mut self, told: Entry, last: u32) -> bool
        requires { last ≤ 103 }
        ensures { TookTold last (left_in self.old) (left_in self.new) (entry_shown told ∷ []) result }
    {
        let isotope = isotope_of(told.mark, last);
        self.take(isotope.element, isotope.mass, told.count)
    }

    // Takes the entry that was told, if one was; no where too little is left.
    fn take_told(&mut self, told: Option<Entry>, last: u32) -> bool
        requires { last ≤ 103 }
        ensures { TookTold last (left_in self.old) (left_in self.new) (told_shown told) result }
    {
        match told {
            Some(entry) => self.take_entry(entry, last),
            None => true,
        }
    }

    // One byte more of the formula: the machine behind it, the entry taken that ended there; nothing where that asks for more than is left.
    fn take_byte(&mut self, state: State, byte: u8, last: u32) -> Option<State>
        requires { last ≤ 103 }
        ensures { Sized state → TookByte last (left_in self.old) (left_in self.new) state byte result }
    {
        let step = formula_step(state, byte);
        self.take_told(step.told, last).then_some(step.state)
    }

    // The end of the formula: an entry that runs ends there, and nothing may be left. A value that has no shape agrees with no atoms.
    fn take_end(&mut self, state: State, last: u32) -> bool
        requires { last ≤ 103 }
        ensures { Answered last (left_in self.old) (finish (state_shown state)) result }
    {
        let Some(told) = formula_end(state) else {
            return false;
        };
        if !self.take_told(told, last) {
            return false;
        }
        self.none_left()
    }

    // The entries that the formula starts with, as far as they are quick ones: they are taken with no machine's state, which is passed on in memory at each byte.
    // Nothing where one asks for more than is left.
    fn take_lead(&mut self, formula: &[u8], last: u32) -> Option<Lead>
        requires { last ≤ 103 }
        ensures { TookLead last (left_in self.old) (left_in self.new) formula.now result }
    {
        let mut lead = Lead {
            begun: false,
            at: 0,
        };
        while let Some(quick) = quick_entry(formula, lead.at) {
            if !self.take_entry(quick.entry, last) {
                return None;
            }
            lead = Lead {
                begun: true,
                at: quick.next,
            };
        }
        Some(lead)
    }

    // Takes the whole formula: whether each entry finds its atoms and nothing is left behind the last.
    fn take_formula(&mut self, formula: &[u8], last: u32) -> bool
        requires { last ≤ 103 }
        ensures { Answered last (left_in self.old) (formula_shape formula.now) result }
    {
        let Some(lead) = self.take_lead(formula, last) else {
            return false;
        };
        let mut state = State::Between(lead.begun);
        for byte in &formula[lead.at..] {
            let Some(next) = self.take_byte(state, *byte, last) else {
                return false;
            };
            state = next;
        }
        self.take_end(state, last)
    }
}

// Whether formula and atoms agree: "for every element and mass, the formula's total over all fragments equals the atoms listed". `formula` is MOLFORM's value
// without its comment; `kinds` has element, mass and implied hydrogens of each atom. The answer is no where that has another length, and where there are more
// atoms than a table holds or more elements than 103.
pub fn agrees(formula: &[u8], kinds: &[u32], atoms: usize, last: u32) -> bool
    ensures told { (listed : List Atom) → length kinds.now ≡ 768 → 0 < atoms → atoms ≤ 256 → last ≤ 103 → length listed ≡ atoms → kinds.now ≡ kinds_region listed → all (atom_ok last) listed ≡ true → all (entry_fine last) (entries_from last (formula_shape formula.now)) ≡ true →
        result ≡ agree (entries_from last (formula_shape formula.now)) (entries_of listed) }
    ensures beyond { ((length kinds.now ≡ 768) × (atoms ≤ 256) × (last ≤ 103) → ⊥) → result ≡ false }
{
    if kinds.len() != Scratch::KINDS || Table::ATOMS < atoms || ELEMENTS < last {
        return false;
    }
    let mut left = Left::nothing();
    left.tally(kinds, atoms);
    left.take_formula(formula, last)
}
