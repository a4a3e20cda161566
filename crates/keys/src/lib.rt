// Keys: a feature and a value of it as one number of 64 bits. Keys rise by feature, then by value, so that a list of them that rises is
// searched by halving, whatever features it is of.
#![tactic(auto)]

ghost use Rattle.std.specs.Prelude.{[], ◌∷◌, ◌≡◌, ◌<◌, ◌≤◌, length};
ghost use Rattle.keys.specs.Keys.{Gathered, Ranked, key_of};

use meaning::FeatureNo;

// A feature and a value of it as one number.
pub fn key(f: FeatureNo, x: u32) -> u64
    ensures { result ≡ key_of f.0 x }
{
    u64::from(f.0) * 4294967296 + u64::from(x)
}

// The place of a key among the first n, by halving: a smaller one stands before it, and none at it.
// By hand: `partition_point` promises this of keys that rise alone, and the contract asks nothing of them.
pub fn rank(keys: &[u64], n: usize, k: u64) -> usize
    requires { n ≤ length keys.now }
    ensures { Ranked keys.now n k result }
{
    let mut low = 0;
    let mut high = n;
    while low < high {
        let middle = low + (high - low) / 2;
        if keys[middle] < k {
            low = middle + 1;
        } else {
            high = middle;
        }
    }
    low
}

// One key more among the first n, which rise, unless it is there: those after it make room. The answer counts the keys.
pub fn add(keys: &mut [u64], n: usize, k: u64) -> usize
    requires { n < length keys.old }
    ensures { Gathered (k ∷ []) n keys.old keys.new result }
{
    let at = rank(keys, n, k);
    if at < n && keys[at] == k {
        return n;
    }
    keys.copy_within(at..n, at + 1);
    keys[at] = k;
    n + 1
}
