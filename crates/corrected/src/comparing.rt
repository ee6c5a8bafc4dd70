// Comparing the segments of two lists of coefficients: many at a time as long as they are the same, then one by one.
ghost use Rattle.std.specs.Prelude.{◌≡◌, true, ◌+◌, ◌≤◌, ◌<◌};
ghost use Rattle.series.specs.Series.{segments};
ghost use Rattle.corrected.specs.theory.Compared.{SameBefore, SameFrom, SameBetween};

use super::judging::part_of;
use alike::inner::same_words;

// So many segments are compared at a time: enough that a comparison costs little beside its words, few enough to go through one by one.
const RUN: usize = 64;

// Whether n segments from segment k on are the same words.
fn same_run(old: &[i64], coefs: &[i64], k: usize, n: usize) -> bool
    requires n_bound { k + n ≤ segments old.now }
    requires n_bound_2 { k + n ≤ segments coefs.now }
    ensures { result ≡ true → SameBetween old.now coefs.now k (k + n) }
{
    let to = k + n;
    same_words(part_of(coefs, k, to), part_of(old, k, to))
}

// From segment k on, which all before it are the same as, up to one that differs, n at a time; none from `count` on is looked at.
fn same_up_to(old: &[i64], coefs: &[i64], from: usize, count: usize, n: usize) -> usize
    requires from_le_count { from ≤ count }
    requires count_bound { count ≤ segments old.now }
    requires count_bound_2 { count ≤ segments coefs.now }
    requires n_nonzero { 0 < n }
    requires same_before { SameBefore old.now coefs.now from }
    ensures upper_bound { result ≤ count }
    ensures same_before_2 { SameBefore old.now coefs.now result }
{
    let mut k = from;
    // Kept: an index, since the answer is the place where the comparison stops, which a range by steps of n does not tell; chunks of 14 * n words need a test that the product fits.
    while n <= count - k && same_run(old, coefs, k, n) {
        k += n;
    }
    k
}

// The same from behind: down from segment `end`, from which on all are the same; none before `first` is looked at.
fn same_down_to(old: &[i64], coefs: &[i64], first: usize, end: usize, n: usize) -> usize
    requires first_le_end { first ≤ end }
    requires end_bound { end ≤ segments old.now }
    requires end_bound_2 { end ≤ segments coefs.now }
    requires n_nonzero { 0 < n }
    requires same_from { SameFrom old.now coefs.now end }
    ensures lower_bound { first ≤ result }
    ensures upper_bound { result ≤ end }
    ensures same_from_2 { SameFrom old.now coefs.now result }
{
    let mut k = end;
    // Kept: an index, since the answer is the place where the comparison stops, which a range by steps of n does not tell; chunks of 14 * n words need a test that the product fits.
    while n <= k - first && same_run(old, coefs, k - n, n) {
        k -= n;
    }
    k
}

// How many segments both lists have.
fn both_have(old: &[i64], coefs: &[i64]) -> usize
    ensures upper_bound { result ≤ segments old.now }
    ensures upper_bound_2 { result ≤ segments coefs.now }
{
    let before = old.len() / 14;
    let now = coefs.len() / 14;
    if before < now { before } else { now }
}

// The first segment that differs, or the count of segments.
pub fn first_changed(old: &[i64], coefs: &[i64]) -> usize
    ensures upper_bound { result ≤ segments coefs.now }
    ensures same_before { SameBefore old.now coefs.now result }
{
    let count = both_have(old, coefs);
    let near = same_up_to(old, coefs, 0, count, RUN);
    same_up_to(old, coefs, near, count, 1)
}

// One more than the last segment that differs, found from behind; or `first` where none does from there on.
pub fn changed_end(old: &[i64], coefs: &[i64], first: usize) -> usize
    requires { first ≤ segments coefs.now }
    ensures lower_bound { first ≤ result }
    ensures upper_bound { result ≤ segments coefs.now }
    ensures same_from { SameFrom old.now coefs.now result }
{
    let count = coefs.len() / 14;
    if old.len() / 14 < count {
        return count;
    }
    let near = same_down_to(old, coefs, first, count, RUN);
    same_down_to(old, coefs, first, near, 1)
}
