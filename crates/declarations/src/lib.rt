// The declarations of an OWL text: counted, and listed in a table.
#![tactic(auto)]

ghost use Rattle.std.specs.Prelude.{◌≡◌, ◌≤◌, length};
ghost use Rattle.declarations.specs.Passes.{Fits, HasRoom, Tabled, counts_of, listed_one, no_names, one_more, parsed_at, statements_at, table_size};
ghost use Rattle.meaning.specs.Limits.{most_text};
ghost use Rattle.statements.specs.Found.{SaidWithin};

use meaning::limits::{MOST_CLASSES, MOST_ROLES};
use name_table::enter;
use statements::{Item, NameOf, Said, next_item};

// How many names each sort has and how many axioms there are.
#[derive(Clone, Copy)]
pub struct Counts {
    pub classes: usize,
    pub roles: usize,
    pub features: usize,
    pub axioms: usize,
}

// Before the first statement.
const NO_NAMES: Counts = Counts {
    classes: 0,
    roles: 0,
    features: 0,
    axioms: 0,
};

fn count_one(c: Counts, says: Said) -> Counts
    requires { (c.classes ≤ most_text) × (c.roles ≤ most_text) × (c.features ≤ most_text) × (c.axioms ≤ most_text) }
    ensures { result ≡ one_more c says }
{
    match says {
        Said::Declares(NameOf::Class(_)) => Counts {
            classes: c.classes + 1,
            ..c
        },
        Said::Declares(NameOf::Role(_)) => Counts {
            roles: c.roles + 1,
            ..c
        },
        Said::Declares(NameOf::Feature(_)) => Counts {
            features: c.features + 1,
            ..c
        },
        Said::States(_) => Counts {
            axioms: c.axioms + 1,
            ..c
        },
    }
}

// Reads every statement from a place on, and counts, where the text keeps to the forms.
pub fn survey(text: &[u8], start: usize) -> Option<Counts>
    requires { (start ≤ length text.now) × (length text.now ≤ most_text) }
    ensures { result ≡ counts_of (parsed_at text.now start) }
{
    let mut at = start;
    let mut c = NO_NAMES;
    while let Item::Statement(found) = next_item(text, at)? {
        c = count_one(c, found.says);
        at = found.next;
    }
    Some(c)
}

// The table's entries: those of the classes first.
pub const ROLES: usize = MOST_CLASSES as usize;

pub const FEATURES: usize = ROLES + MOST_ROLES as usize;

// A name more, where the statement declares one.
fn list_one(text: &[u8], table: &mut [u32], c: Counts, says: Said)
    requires table_len { (length table.old ≡ table_size) × (length text.now ≤ most_text) × SaidWithin text.now says }
    requires has_room { HasRoom c says }
    ensures { table.new ≡ listed_one text.now table.old c says }
{
    match says {
        Said::Declares(NameOf::Class(name)) => enter(text, table, c.classes, name),
        Said::Declares(NameOf::Role(name)) => enter(text, table, ROLES + c.roles, name),
        Said::Declares(NameOf::Feature(name)) => { enter(text, table, FEATURES + c.features, name) }
        Said::States(_) => {}
    }
}

// Lists the names that the statements from a place on declare.
pub fn list_names(text: &[u8], start: usize, table: &mut [u32])
    requires { Fits text.now table.old start }
    ensures { Tabled text.now table.new (statements_at text.now start) }
{
    let mut at = start;
    let mut c = NO_NAMES;
    while let Some(item) = next_item(text, at) {
        match item {
            Item::Statement(found) => {
                list_one(text, table, c, found.says);
                c = count_one(c, found.says);
                at = found.next;
            }
            Item::End => return,
        }
    }
}
