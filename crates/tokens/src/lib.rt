// Bytes to tokens: a token stands from a place to a place.
#![tactic(auto)]

ghost use Rattle.std.specs.Prelude.{◌≡◌, ◌≤◌, ◌+◌, ◌&&◌, ℕ, Bool, get_or, length};
ghost use Rattle.std.specs.List.{prefix_len};
ghost use Rattle.tokens.specs.Places.{Read, print_of};
ghost use Rattle.tokens.specs.Tokens.{goes_on, is_name_token, is_space, same_bytes};

use meaning::limits::MOST_NAME_BYTES;

// A token's bytes stand from the one to the other.
#[derive(Clone, Copy)]
pub struct Token {
    pub from: usize,
    pub to: usize,
}

// Tests joined by `|` and `&` do not branch, so that those of four bytes are one.
#[tactic(auto, unfolding(crate::specs::Tokens::is_space))]
fn is_space(b: u8) -> bool
    ensures { result ≡ is_space b }
{
    (b == b' ') | (b == b'\t') | (b == b'\n')
}

fn goes_on(first: u8, b: u8) -> bool
    ensures { result ≡ goes_on first b }
{
    if first.is_ascii_alphabetic() {
        return b.is_ascii_alphabetic();
    }
    first == b':' && b.is_ascii_alphanumeric()
}

// How many bytes in front pass a test.
fn passing<F: Fn(u8) -> bool>(text: &[u8], passes: F) -> usize
    requires { F.IsAlwaysCallable passes }
    ensures { (p : ℕ → Bool) → ((b : ℕ) (r : Bool) → F.post passes b r → r ≡ p b) → result ≡ prefix_len p text.now }
{
    text.iter().take_while(|b| passes(**b)).count()
}

// Whether the four bytes from a place on are blanks.
fn are_blank(text: &[u8], at: usize) -> bool
    requires { at + 4 ≤ length text.now }
    ensures { result ≡ (is_space (get_or text.now at 0) && is_space (get_or text.now (at + 1) 0)
        && is_space (get_or text.now (at + 2) 0) && is_space (get_or text.now (at + 3) 0)) }
{
    is_space(text[at]) & is_space(text[at + 1]) & is_space(text[at + 2]) & is_space(text[at + 3])
}

// How many blanks stand in front, four at a time and then one by one.
fn blanks(text: &[u8]) -> usize
    ensures { result ≡ prefix_len is_space text.now }
{
    let mut n = 0;
    // By hand: where to go on is told by what was passed.
    while 4 <= text.len() - n && are_blank(text, n) {
        n += 4;
    }
    n + passing(&text[n..], is_space)
}

// The first token from a place on, where one is left.
pub fn next_token(text: &[u8], at: usize) -> Option<Token>
    requires { at ≤ length text.now }
    ensures { Read text.now at result }
{
    let from = at + blanks(&text[at..]);
    let first = *text.get(from)?;
    let to = from + 1 + passing(&text[from + 1..], |b| goes_on(first, b));
    Some(Token { from, to })
}

pub fn same(a: &[u8], b: &[u8]) -> bool
    ensures { result ≡ same_bytes a.now b.now }
{
    a == b
}

// A name's print: equal names have equal prints.
pub fn print(name: &[u8]) -> u32
    ensures { result ≡ print_of name.now }
{
    name.iter().fold(0u32, |h, b| {
        h.wrapping_mul(31).wrapping_add(u32::from(*b))
    })
}

// A colon, and at least one byte and not too many.
pub fn is_name_token(t: &[u8]) -> bool
    ensures { result ≡ is_name_token t.now }
{
    match t {
        [b':', signs @ ..] => (1..=MOST_NAME_BYTES).contains(&signs.len()),
        _ => false,
    }
}
