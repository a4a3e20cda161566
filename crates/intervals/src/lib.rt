// Intervals, both ends included: the questions that the code asks of one.
#![tactic(auto)]

ghost use Rattle.std.specs.Prelude.{◌≡◌};
ghost use Rattle.intervals.specs.Touching.{touches};
ghost use Rattle.meaning.specs.Intervals.{is_inside, is_non_empty, is_within};

// Whether v lies from lo to hi, of values or of keys.
pub fn is_within(lo: u64, hi: u64, v: u64) -> bool
    ensures { result ≡ is_within lo hi v }
{
    lo <= v && v <= hi
}

// Whether there is a value from lo to hi.
pub fn is_nonempty(lo: u32, hi: u32) -> bool
    ensures { result ≡ is_non_empty lo hi }
{
    lo <= hi
}

// Whether all from low to high lies from lo to hi.
pub fn is_inside(lo: u32, hi: u32, low: u32, high: u32) -> bool
    ensures { result ≡ is_inside lo hi low high }
{
    lo <= low && high <= hi
}

// Whether some value from a first to a last one lies from lo to hi, where both have values.
pub fn does_touch(lo: u32, hi: u32, first: u32, last: u32) -> bool
    ensures { result ≡ touches lo hi first last }
{
    first <= hi && lo <= last
}
