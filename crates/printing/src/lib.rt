// Printing into a slice of bytes: a byte, a name, a number in base ten.
// Each function puts its bytes from a place on, leaves the others as they are, and returns the place after them, where the next begins.
#![tactic(auto)]

ghost use Rattle.std.specs.Prelude.{[], ◌∷◌, ◌≡◌, ◌+◌, ◌<◌, ◌≤◌, length};
ghost use Rattle.meaning.specs.Program.{decimal};
ghost use Rattle.frames.specs.Rows.{Put};

pub fn put_byte(text: &mut [u8], at: usize, x: u8) -> usize
    requires { at < length text.old }
    ensures { Put text.old at (x ∷ []) text.new result }
{
    text[at] = x;
    at + 1
}

pub fn put_name(text: &mut [u8], at: usize, name: &[u8]) -> usize
    requires { at + length name.now ≤ length text.old }
    ensures { Put text.old at name.now text.new result }
{
    let next = at + name.len();
    text[at..next].copy_from_slice(name);
    next
}

fn digit(d: u32) -> u8
    requires { d < 10 }
    ensures { result ≡ 48 + d }
{
    b'0' + d as u8
}

// The tens and above, then the last digit: a number of 32 bits has at most ten, so the calls are at most ten deep.
pub fn put_decimal(text: &mut [u8], at: usize, n: u32) -> usize
    requires { at + length (decimal n) ≤ length text.old }
    ensures { Put text.old at (decimal n) text.new result }
{
    if n < 10 {
        return put_byte(text, at, digit(n));
    }
    let next = put_decimal(text, at, n / 10);
    put_byte(text, next, digit(n % 10))
}
