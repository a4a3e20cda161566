// A table of names: entry j is three words, where the name begins and ends in the text, and its print.
// The text is handed on beside the table, which `enter` takes by `&mut`.
#![tactic(auto)]

ghost use Rattle.std.specs.Prelude.{◌≡◌, ◌*◌, ◌+◌, ◌≤◌, ◌<◌, length};
ghost use Rattle.tokens.specs.Places.{Within, print_of};
ghost use Rattle.tokens.specs.Tokens.{same_bytes};
ghost use Rattle.name_table.specs.Numbers.{number_found, number_of, repeats};
ghost use Rattle.name_table.specs.Table.{Entry, Listed, entered, name_at, names_from};

use tokens::{Token, print, same};

// The name of entry j.
fn entry_name<'a>(text: &'a [u8], table: &[u32], j: usize) -> &'a [u8]
    requires { (Entry text.now table.now j) × (3 * j + 2 < length table.now) }
    ensures { result.now ≡ name_at text.now table.now j }
{
    let from = table[3 * j] as usize;
    let to = table[3 * j + 1] as usize;
    &text[from..to]
}

// Whether entry j is the name of a print: the prints are compared first.
fn is_entry(text: &[u8], table: &[u32], j: usize, name: &[u8], p: u32) -> bool
    requires { (Entry text.now table.now j) × (3 * j + 2 < length table.now) × (p ≡ print_of name.now) }
    ensures { result ≡ same_bytes (name_at text.now table.now j) name.now }
{
    table[3 * j + 2] == p && same(entry_name(text, table, j), name)
}

// The number of a name among n from entry base on, where it stands there.
pub fn number(text: &[u8], table: &[u32], base: usize, n: usize, name: &[u8]) -> Option<usize>
    requires { (Listed text.now table.now base n) × (base + n ≤ 65536) }
    ensures { result ≡ number_found (number_of (names_from text.now table.now base n) name.now) }
{
    let p = print(name);
    // By index: k is the number itself, less one.
    for k in 0..n {
        if is_entry(text, table, base + k, name, p) {
            return Some(k + 1);
        }
    }
    None
}

// One name more.
pub fn enter(text: &[u8], table: &mut [u32], j: usize, name: Token)
    requires { (3 * j + 2 < length table.old) × (j ≤ 65536) × (name.from ≤ name.to) × (name.to ≤ length text.now) × (length text.now ≤ 65536) }
    ensures { table.new ≡ entered text.now table.old j name.from name.to }
{
    table[3 * j] = name.from as u32;
    table[3 * j + 1] = name.to as u32;
    table[3 * j + 2] = print(&text[name.from..name.to]);
}

// Whether a name stands twice among n from entry base on.
pub fn has_repeats(text: &[u8], table: &[u32], base: usize, n: usize) -> bool
    requires { (Listed text.now table.now base n) × (base + n ≤ 65536) }
    ensures { result ≡ repeats (names_from text.now table.now base n) }
{
    // By index: the names behind entry j are told by their place.
    for k in 0..n {
        let j = base + k;
        let name = entry_name(text, table, j);
        if number(text, table, j + 1, n - k - 1, name).is_some() {
            return true;
        }
    }
    false
}
