// Entries by ascending key, in room for 512. Atoms of one kind mostly go to one place, so the caller may say at which one to look first.
ghost use Rattle.std.specs.Prelude.{◌≡◌, ℕ, ◌&&◌, ◌+◌, ◌≤◌, [], ◌∷◌, ◌++◌, length, get_or, take, drop, eqb, ltb};
ghost use Rattle.tally.specs.Gathering.{keys_in, counts_in, KeysAscend, PlaceOf, AddShows, CloseShows, opened};

use crate::elements::HYDROGEN;
use crate::{ENTRIES, GROUPS};
use std::marker::Model;

// How many are counted of a key.
#[derive(Clone, Copy)]
pub struct Entry {
    pub key: u32,
    pub count: u32,
}

// The entries that are counted so far.
#[derive(Drop)]
pub struct Tally {
    entries: [Entry; ENTRIES],
    count: usize,
}

// Clauses see the entries alone.
impl Model for Tally {
    ghost use Rattle.std.specs.Prelude.{List, take, ◌≤◌};
    ghost use Rattle.tally.specs.declared.entries.Entry.{Entry};

    ghost Value = { List Entry };

    ghost view = { λ t. take t.count t.entries };

    ghost invariant = { λ t. t.count ≤ 512 };
}

// The entries from a place up to `count` move up by one, the last first. By a loop, not by `rotate_right`: that is compiled into `memmove`, which the archive for C
// would then need from its host.
fn open_gap(entries: &mut [Entry; ENTRIES], place: usize, count: usize)
    requires { (place ≤ count) × (count ≤ 511) }
    ensures { entries.new ≡ opened entries.old place count }
{
    for i in (place..count).rev() {
        entries[i + 1] = entries[i];
    }
}

impl Tally {
    // No entry.
    pub fn new() -> Self
        ensures { result ≡ [] }
    {
        Tally {
            entries: [Entry { key: 0, count: 0 }; ENTRIES],
            count: 0,
        }
    }

    // The entries, by ascending key.
    pub fn entries(&self) -> &[Entry]
        ensures { result.now ≡ self.now }
    {
        &self.entries[..self.count]
    }

    // What was counted is forgotten.
    pub(crate) fn clear(&mut self)
        ensures { self.new ≡ [] }
    {
        self.count = 0;
    }

    // Whether there is an entry at the place, and it has this key.
    fn stands_at(&self, place: usize, key: u32) -> bool
        ensures { result ≡ (ltb place (length self.now) && eqb (get_or (keys_in self.now) place 0) key) }
    {
        self.entries()
            .get(place)
            .is_some_and(|entry| entry.key == key)
    }

    // How many of the keys are lower.
    fn place_of(&self, key: u32) -> usize
        ensures bound { result ≤ length self.now }
        ensures place { KeysAscend self.now → PlaceOf key self.now result }
    {
        let entries = self.entries();
        if entries.last().is_none_or(|last| last.key < key) {
            return entries.len();
        }
        entries.partition_point(|entry| entry.key < key)
    }

    // The same, where a place is known at which the key may stand.
    pub(crate) fn find(&self, likely: usize, key: u32) -> usize
        ensures bound { result ≤ length self.now }
        ensures place { KeysAscend self.now → PlaceOf key self.now result }
    {
        if self.stands_at(likely, key) {
            return likely;
        }
        self.place_of(key)
    }

    // An entry goes to its place; those from there on move up by one.
    fn insert(&mut self, place: usize, entry: Entry)
        requires { (place ≤ length self.old) × (length self.old ≤ 511) }
        ensures { self.new ≡ take place self.old ++ (entry ∷ drop place self.old) }
    {
        open_gap(&mut self.entries, place, self.count);
        self.entries[place] = entry;
        self.count += 1;
    }

    // So many more of a key, at its place: raised where it stands there, put in where it does not.
    pub(crate) fn add(&mut self, place: usize, key: u32, more: u32)
        requires { (place ≤ length self.old) × (length self.old ≤ 511) × (get_or (counts_in self.old) place 0 + more ≤ 4294967295) }
        ensures few { length self.new ≤ length self.old + 1 }
        ensures shows { AddShows place key more self.old self.new }
    {
        if self.stands_at(place, key) {
            self.entries[place].count += more;
            return;
        }
        self.insert(place, Entry { key, count: more });
    }

    // A group ends: its implied hydrogens, if it has any, are one entry more.
    pub(crate) fn close_group(&mut self, group: u8, hydrogens: u32)
        requires { (length self.old ≤ 511) × KeysAscend self.old × ((i : ℕ) → get_or (counts_in self.old) i 0 + hydrogens ≤ 4294967295) }
        ensures few { length self.new ≤ length self.old + 1 }
        ensures none { hydrogens ≡ 0 → self.new ≡ self.old }
        ensures shows { CloseShows group hydrogens self.old self.new }
    {
        if hydrogens == 0 {
            return;
        }
        let key = GROUPS * u32::from(group) + HYDROGEN;
        let place = self.find(1, key);
        self.add(place, key, hydrogens);
    }
}
