// What the tables of records share: a word, a record, a name, a link read and written, a length.
#![tactic(auto)]

ghost use Rattle.std.specs.Prelude.{[], ◌∷◌, ◌≡◌, ◌+◌, ◌<◌, ◌^◌, ◌≤◌, get_or, length, set};
ghost use Rattle.frames.specs.Rows.{Put};
ghost use Rattle.meaning.specs.Records.{is_name, is_onward, is_sized};
ghost use Rattle.records.specs.Written.{link_at};

// A word of a table. Past the end stands 0, so that reading asks nothing of the caller.
pub fn word(l: &[u32], i: usize) -> u32
    ensures { result ≡ get_or l.now i 0 }
{
    if i < l.len() { l[i] } else { 0 }
}

// A word past the end is not written.
pub fn put_word(l: &mut [u32], i: usize, x: u32)
    ensures { l.new ≡ set l.old i x }
{
    if i < l.len() {
        l[i] = x;
    }
}

// A record's words are put from a place on, and the next place is returned: a vocabulary's has four, a policy's six.
pub fn put_record<const N: usize>(l: &mut [u32], at: usize, words: [u32; N]) -> usize
    requires { at + N ≤ length l.old }
    ensures { Put l.old at words.entry l.new result }
{
    let end = at + N;
    l[at..end].copy_from_slice(&words);
    end
}

// Names count from 1 in each series.
pub fn is_name(count: u32, x: u32) -> bool
    ensures { result ≡ is_name count x }
{
    1 <= x && x <= count
}

// A link only goes onward, so no chain comes back.
pub fn is_onward(last: usize, k: u32, next: u32) -> bool
    ensures { result ≡ is_onward last k next }
{
    next == 0 || k < next && next as usize <= last
}

// Record k links to the one after it; the last record, and the header of no record, to none.
pub fn link(k: usize, last: usize) -> u32
    requires { (k ≤ last) × (last < 2 ^ 32) }
    ensures { result ≡ link_at last k }
{
    if k == last { 0 } else { k as u32 + 1 }
}

// A header and records, of one width, and not too many.
pub fn is_sized(width: usize, most: usize, n: usize) -> bool
    requires { 0 < width }
    ensures { result ≡ is_sized width most n }
{
    n % width == 0 && (width <= n && n <= most)
}
