// Runs of 896 words, as many as 64 segments have: every second word, sixteen at a time, until all are compared or a sign differs; then those between them. Neighbours,
// or a loop with no other way out, would be compared in the wide registers, and an emulator is slow at these.
ghost use Rattle.std.specs.Prelude.{◌≡◌, true, ◌+◌, ◌≤◌, ◌<◌, pos, length};
ghost use Rattle.alike.specs.Runs.{SameAt, FourAt, SixteenAt, HalfAt, RunAt};

// The bits in which two words differ.
fn differ(a: &[i64], b: &[i64], i: usize) -> i64
    requires i_in_bounds { i < length a.now }
    requires i_in_bounds_2 { i < length b.now }
    ensures { result ≡ pos 0 → SameAt a.now b.now i }
{
    a[i] ^ b[i]
}

// The bits in which four differ.
// Kept: four and sixteen apart, since a generic one would compute its step from a constant argument, which Rattle has not.
fn four_differ(a: &[i64], b: &[i64], i: usize) -> i64
    requires i_in_bounds { i + 6 < length a.now }
    requires i_in_bounds_2 { i + 6 < length b.now }
    ensures { result ≡ pos 0 → FourAt a.now b.now i }
{
    let front = differ(a, b, i) | differ(a, b, i + 2);
    let back = differ(a, b, i + 4) | differ(a, b, i + 6);
    front | back
}

// The bits in which sixteen differ.
// Kept: four and sixteen apart, since a generic one would compute its step from a constant argument, which Rattle has not.
fn sixteen_differ(a: &[i64], b: &[i64], i: usize) -> i64
    requires i_in_bounds { i + 30 < length a.now }
    requires i_in_bounds_2 { i + 30 < length b.now }
    ensures { result ≡ pos 0 → SixteenAt a.now b.now i }
{
    let front = four_differ(a, b, i) | four_differ(a, b, i + 8);
    let back = four_differ(a, b, i + 16) | four_differ(a, b, i + 24);
    front | back
}

// Whether every second of 896 words, from word k on, is the same.
fn same_half(a: &[i64], b: &[i64], k: usize) -> bool
    requires k_in_bounds { k + 894 < length a.now }
    requires k_in_bounds_2 { k + 894 < length b.now }
    ensures { result ≡ true → HalfAt a.now b.now k }
{
    let mut differing: i64 = 0;
    for j in 0..28 {
        differing = differing | sixteen_differ(a, b, k + 32 * j);
        if differing < 0 {
            return false;
        }
    }
    differing == 0
}

// Whether the 896 words from word k on are the same.
pub fn same_run(a: &[i64], b: &[i64], k: usize) -> bool
    requires k_in_bounds { k + 896 ≤ length a.now }
    requires k_in_bounds_2 { k + 896 ≤ length b.now }
    ensures { result ≡ true → RunAt a.now b.now k }
{
    if same_half(a, b, k) {
        return same_half(a, b, k + 1);
    }
    false
}
