// The program's input: its words and its three parts; and words written as they are read.
#![tactic(auto)]

ghost use Rattle.std.specs.Prelude.{◌≡◌, ◌*◌, ◌+◌, ◌/◌, ◌<◌, ◌≤◌, leb, length, take};
ghost use Rattle.frames.specs.Rows.{Put};
ghost use Rattle.input.specs.Input.{exact};
ghost use Rattle.meaning.specs.Limits.{most_bytes};
ghost use Rattle.meaning.specs.Program.{bytes_of, next_part, part_at, word_at, word_bytes, words_of};

use meaning::limits::MOST_BYTES;
use records::word;
use words::place;

// Word i, its lowest byte first.
fn word_at(input: &[u8], i: usize) -> u32
    requires { 4 * i + 3 < length input.now }
    ensures { result ≡ word_at input.now i }
{
    let at = 4 * i;
    u32::from_le_bytes([input[at], input[at + 1], input[at + 2], input[at + 3]])
}

// The words of the input; bytes after the last whole word are left.
pub fn decode(input: &[u8], words: &mut [u32])
    requires { length input.now / 4 ≤ length words.old }
    ensures { take (length input.now / 4) words.new ≡ words_of input.now }
{
    for (i, word) in words[..input.len() / 4].iter_mut().enumerate() {
        *word = word_at(input, i);
    }
}

// A word's bytes put from a place on, its lowest first; the next place is returned.
fn put_bytes(bytes: &mut [u8], at: usize, w: u32) -> usize
    requires { at + 4 ≤ length bytes.old }
    ensures { Put bytes.old at (word_bytes w) bytes.new result }
{
    let next = at + 4;
    bytes[at..next].copy_from_slice(&w.to_le_bytes());
    next
}

// The bytes of words, as they are then read; how many they are is returned.
pub fn encode(words: &[u32], bytes: &mut [u8]) -> usize
    requires { 4 * length words.now ≤ length bytes.old }
    ensures { Put bytes.old 0 (bytes_of words.now) bytes.new result }
{
    let mut at = 0;
    for &w in words {
        at = put_bytes(bytes, at, w);
    }
    at
}

pub fn is_short(bytes: usize) -> bool
    ensures { result ≡ leb bytes most_bytes }
{
    bytes <= MOST_BYTES
}

// Where the part after the one at word i begins: past the end of the words, perhaps.
pub fn next_part(words: &[u32], i: usize) -> usize
    requires { i ≤ 8589934592 }
    ensures value { result ≡ next_part words.now i }
    ensures upper_bound { result ≤ i + 4294967296 }
{
    i + 1 + place(word(words, i))
}

// Whether an input of so many bytes is exactly as long as its three parts.
pub fn is_exact(bytes: usize, words: &[u32]) -> bool
    ensures { result ≡ exact bytes words.now }
{
    let p = next_part(words, 0);
    let q = next_part(words, p);
    bytes == 4 * next_part(words, q)
}

// The part at word i: a word count and its words.
pub fn part(words: &[u32], i: usize) -> &[u32]
    requires { (next_part words.now i ≤ length words.now) × (i ≤ 8589934592) }
    ensures { result.now ≡ part_at words.now i }
{
    let from = i + 1;
    let to = next_part(words, i);
    &words[from..to]
}
