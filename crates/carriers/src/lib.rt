// Of each individual of a term: the lowest dial at or below it, and its successors with a dial at or below, one linked to the next.
// A dial is a constraint with several pieces. Three tables in a slice that is lent, each with a word for the individuals 0, the root's
// parent, to 512:
//
//   table     word                                                          from
//   slots     the lowest dial at or below the individual, plus 1; 0: none       0
//   under     its first successor with a dial at or below; 0: none            513
//   beside    the next such one with the same parent; 0: none               1,026
//   end                                                                     1,539
//
// In an empty slice no individual has a dial.
#![tactic(auto)]

ghost use Rattle.std.specs.Prelude.{◌≡◌, ◌≤◌, length};
ghost use Rattle.carriers.specs.Carriers.{HasCarrier, Listable, Listed, Unlisted, beside_of, carriers_end, linked, lower_slot, named, slot_of};
ghost use Rattle.carriers.specs.Carriers.{under_of};
ghost use Rattle.layout.specs.Nesting.{Nested};
ghost use Rattle.layout.specs.Tables.{Standing};

use frames::clear;
use layout::{Tables, holder_of, parent_of};
use meaning::limits::MOST_RECORDS;
use records::word;
use words::place;

const UNDER: usize = MOST_RECORDS + 1;

const BESIDE: usize = 2 * (MOST_RECORDS + 1);

pub const CARRIERS: usize = 3 * (MOST_RECORDS + 1);

// ---- what the lists hold

// The lowest dial at or below individual x, counted from 1; 0 for none, and a number, since crate retest has a place for each slot, 0 too.
pub fn slot_of(carriers: &[u32], x: u32) -> u32
    ensures { result ≡ slot_of carriers.now x }
{
    word(carriers, place(x))
}

// The number that a word of a table names, where 0 names none.
pub fn named(word: u32) -> Option<u32>
    ensures { result ≡ named word }
{
    if word == 0 { None } else { Some(word) }
}

// The first successor of individual x with a dial at or below.
pub fn first_carrier(carriers: &[u32], x: u32) -> Option<u32>
    ensures { result ≡ named (under_of carriers.now x) }
{
    named(word(carriers, UNDER + place(x)))
}

// The next one beside individual y, with the same parent.
pub fn next_carrier(carriers: &[u32], y: u32) -> Option<u32>
    ensures { result ≡ named (beside_of carriers.now y) }
{
    named(word(carriers, BESIDE + place(y)))
}

// ---- how they are made

// The individuals of the dials: the lowest of an individual's dials stays, since they are noted from the last one on.
fn note_dials(work: &[u32], t: Tables, dials: &[u32], carriers: &mut [u32])
    requires { Listable dials.now work.now t × Unlisted carriers.old t.individuals }
    ensures { Unlisted carriers.new t.individuals }
{
    for (d, m) in dials.iter().enumerate().rev() {
        let x = holder_of(work, place(*m));
        if t.individuals < x {
            continue;
        }
        carriers[place(x)] = d as u32 + 1;
    }
}

// The lower of two slots, where 0 stands for none.
#[tactic(auto, unfolding(crate::specs::Carriers::lower_slot))]
fn lower(a: u32, b: u32) -> u32
    ensures { result ≡ lower_slot a b }
{
    if a == 0 { b } else { a.min(b) }
}

// Individual y goes to the front of its parent's list, and the parent's slot is no higher than its own.
fn link(carriers: &mut [u32], parent: u32, y: u32)
    requires { HasCarrier parent carriers.old × HasCarrier y carriers.old }
    ensures { carriers.new ≡ linked parent y carriers.old }
{
    let next = word(carriers, UNDER + place(parent));
    let slot = lower(slot_of(carriers, parent), slot_of(carriers, y));
    carriers[BESIDE + place(y)] = next;
    carriers[UNDER + place(parent)] = y;
    carriers[place(parent)] = slot;
}

// From the last row to the first, so that all that is below an individual comes before it.
fn note_rows(work: &[u32], t: Tables, carriers: &mut [u32])
    requires { Standing work.now t × Nested work.now t × Unlisted carriers.old t.individuals }
    ensures { Listed carriers.new work.now t.individuals }
{
    for j in (0..t.individuals).rev() {
        let y = j + 1;
        if slot_of(carriers, y) == 0 {
            continue;
        }
        link(carriers, parent_of(work, place(j)), y);
    }
}

// The lists of a term. A word of the third table is written before it is read, and need not be cleared.
pub fn list_carriers(work: &[u32], t: Tables, dials: &[u32], carriers: &mut [u32])
    requires { Listable dials.now work.now t × (carriers_end ≤ length carriers.old) }
    ensures { Listed carriers.new work.now t.individuals }
{
    let n = place(t.individuals) + 1;
    clear(carriers, 0, n);
    clear(carriers, UNDER, n);
    note_dials(work, t, dials, carriers);
    note_rows(work, t, carriers);
}
