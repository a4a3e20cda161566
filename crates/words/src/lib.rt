// Sets of numbers, from 1, in words of 32 bits: number x is bit (x - 1) % 32 of word (x - 1) / 32.
// First sets in a slice of any number of words, then sets of classes.
#![tactic(auto)]

ghost use Rattle.std.specs.Prelude.{◌≡◌, ◌||◌, false, true, ◌↔◌, ◌+◌, ◌<◌, ◌^◌, ◌≤◌, ℕ, length, replicate};
ghost use Rattle.frames.specs.Rows.{put_at, row_at};
ghost use Rattle.meaning.specs.Lists.{any};
ghost use Rattle.words.specs.Members.{members, next_member, others_of};
ghost use Rattle.words.specs.Rows.{ContainsAlso, class_words};
ghost use Rattle.words.specs.Sets.{capacity, in_set, including, including_all, union_of};

use meaning::ClassNo;
use meaning::limits::{MOST_CLASSES, MOST_ROLES};

// A number as a place in a slice: a cast of an element read asks that the element fits, and this call does not.
pub fn place(x: u32) -> usize
    ensures { result ≡ x }
{
    x as usize
}

// Whether x is in the set.
pub fn has(words: &[u32], x: u32) -> bool
    ensures { result ≡ in_set words.now x }
{
    if x == 0 {
        return false;
    }
    let at = place((x - 1) / 32);
    if words.len() <= at {
        return false;
    }
    words[at] >> (x - 1) % 32 & 1 == 1
}

// Puts x into the set, where the words have a bit for it.
pub fn insert(words: &mut [u32], x: u32)
    ensures { words.new ≡ including words.old x }
{
    if x == 0 {
        return;
    }
    let at = place((x - 1) / 32);
    if words.len() <= at {
        return;
    }
    words[at] |= 1 << (x - 1) % 32;
}

// Puts those of the numbers 1 to n into the set that another set lacks.
pub fn insert_others(words: &mut [u32], named: &[u32], n: u32)
    ensures { words.new ≡ including_all words.old (others_of named.now n) }
{
    for x in 1..=n {
        if !has(named, x) {
            insert(words, x);
        }
    }
}

// How many members the set has. The words are few enough that each number fits.
pub fn count(words: &[u32]) -> u32
    requires { capacity words.now < 2 ^ 32 }
    ensures { result ≡ length (members words.now) }
{
    let mut n: u32 = 0;
    for word in words {
        n += word.count_ones();
    }
    n
}

// The least member above x, or 0: asked from 0 on, each member in rising order.
pub fn next(words: &[u32], x: u32) -> u32
    requires { capacity words.now < 2 ^ 32 }
    ensures { result ≡ next_member words.now x }
{
    let mut i = x;
    while place(i / 32) < words.len() {
        let above = words[place(i / 32)] >> i % 32;
        if above != 0 {
            return i + u32::trailing_zeros(above) + 1;
        }
        i = i / 32 * 32 + 32;
    }
    0
}

// Whether two sets share a number.
pub fn do_meet(words: &[u32], others: &[u32]) -> bool
    requires { capacity words.now < 2 ^ 32 }
    ensures { result ≡ any (in_set others.now) (members words.now) }
{
    let mut x = next(words, 0);
    while x != 0 {
        if has(others, x) {
            return true;
        }
        x = next(words, x);
    }
    false
}

// How many words a set of roles or of features takes: a bit for each of the 64 that a vocabulary may count.
pub const NAME_WORDS: usize = MOST_ROLES as usize / 32;

// A set of classes.
#[derive(Clone, Copy)]
pub struct ClassSet {
    pub words: [u32; ClassSet::WORDS],
}

impl ClassSet {
    // A bit for each class that a vocabulary may count.
    pub const WORDS: usize = MOST_CLASSES as usize / 32;

    pub const EMPTY: ClassSet = ClassSet {
        words: [0; ClassSet::WORDS],
    };

    // EMPTY, with what holds of it.
    pub fn new() -> Self
        ensures words_value { result.words ≡ replicate class_words 0 }
        ensures by_index { (d : ℕ) → in_set result.words d ≡ false }
    {
        ClassSet::EMPTY
    }

    // Whether class c is in the set.
    pub fn has(self, c: ClassNo) -> bool
        ensures { result ≡ in_set self.words c.0 }
    {
        has(&self.words, c.0)
    }

    // The set with class c.
    pub fn with(self, c: ClassNo) -> Self
        ensures words_value { result.words ≡ including self.words c.0 }
        ensures contains_also { ContainsAlso self.words c.0 result.words }
    {
        let mut words = self.words;
        insert(&mut words, c.0);
        ClassSet { words }
    }

    // The classes of either set.
    pub fn union(self, other: ClassSet) -> Self
        ensures words_value { result.words ≡ union_of self.words other.words }
        ensures by_index { (d : ℕ) → in_set result.words d ≡ in_set self.words d || in_set other.words d }
    {
        // By index: the words of both sets stand side by side, and the proof of a zip is longer.
        let mut words = [0; ClassSet::WORDS];
        for i in 0..ClassSet::WORDS {
            words[i] = self.words[i] | other.words[i];
        }
        ClassSet { words }
    }

    // Whether every class of the other set is in this one: no branch in the loop, so that it is done in a few wide steps.
    pub fn covers(self, other: ClassSet) -> bool
        ensures { (result ≡ true) ↔ (union_of self.words other.words ≡ self.words) }
    {
        // By index, as in union.
        let mut same = true;
        for i in 0..ClassSet::WORDS {
            same = same & (self.words[i] | other.words[i] == self.words[i]);
        }
        same
    }

    // How many classes the set has.
    pub fn count(self) -> u32
        ensures { result ≡ length (members self.words) }
    {
        count(&self.words)
    }

    // The least class above c, or 0: asked from 0 on, each class of the set in rising order.
    pub fn next(self, c: ClassNo) -> ClassNo
        ensures { result.0 ≡ next_member self.words c.0 }
    {
        ClassNo(next(&self.words, c.0))
    }

    // The set at a place of a slice.
    pub fn load(words: &[u32], at: usize) -> Self
        requires { at + class_words ≤ length words.now }
        ensures { result.words ≡ row_at class_words words.now at }
    {
        let end = at + ClassSet::WORDS;
        let mut row = [0; ClassSet::WORDS];
        row.copy_from_slice(&words[at..end]);
        ClassSet { words: row }
    }

    // Puts the set at a place of a slice.
    pub fn store(self, words: &mut [u32], at: usize)
        requires { at + class_words ≤ length words.old }
        ensures { words.new ≡ put_at words.old at self.words }
    {
        let end = at + ClassSet::WORDS;
        words[at..end].copy_from_slice(&self.words);
    }

    // Whether class c is in the set at a place of a slice.
    pub fn has_at(words: &[u32], at: usize, c: ClassNo) -> bool
        requires { at + class_words ≤ length words.now }
        ensures { result ≡ in_set (row_at class_words words.now at) c.0 }
    {
        let end = at + ClassSet::WORDS;
        has(&words[at..end], c.0)
    }
}
