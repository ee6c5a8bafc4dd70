// One segment: its range, its value at a place, its slope, and the sums of the closed forms of its first and last value. Callers show the range (refusal 3) and
// the place.
ghost use Rattle.std.specs.Prelude.{◌≡◌, ◌*◌, ◌<◌, pos, nat_abs, ◌-ℤ◌, ◌*ℤ◌, length};
ghost use Rattle.whole.specs.Floor.{floor_div};
ghost use Rattle.whole.specs.Ranges.{Within};
ghost use Rattle.chebyshev.specs.Polynomials.{S};
ghost use Rattle.chebyshev.specs.Segment.{InRange};
ghost use Rattle.chebyshev.specs.Segment as segment;
ghost use Rattle.chebyshev.specs.EndValues.{even_sum, odd_sum, square_sum};

// How large the n-th coefficient may be.
fn limit_of(n: usize) -> u64
    ensures { result ≡ segment.limit n }
{
    if n == 0 { 1000000000000000 } else { 4000000000 }
}

// Whether a coefficient is out of range.
pub fn out_of_range(coefs: &[i64]) -> bool
    requires { length coefs.now ≡ 14 }
    ensures { result ≡ segment.out_of_range coefs.now }
{
    for n in 0..14 {
        if limit_of(n) < whole::absolute(coefs[n]) {
            return true;
        }
    }
    false
}

// A step's product divided by the scale and rounded down. 268,435,456 times the scale is added first, so that an unsigned division by a
// constant does it, without a branch; that is a multiplication and a shift.
fn floor_of_step(t: i64) -> i64
    requires { Within 8900000000000000 t }
    ensures { result ≡ floor_div t S }
{
    ((t + 17812088369971200) as u64 / 66355200) as i64 - 268435456
}

// The same for the sum, which is larger: 69,500,000,000 times the scale. A step adds less because its smaller number costs less.
fn floor_of_sum(t: i64) -> i64
    requires { Within 4000000000000000000 t }
    ensures { result ≡ floor_div t S }
{
    ((t + 4611686400000000000) as u64 / 66355200) as i64 - 69500000000
}

// The polynomial after `here`, which comes after `before`.
fn next(x: i64, here: i64, before: i64) -> i64
    requires within { Within S x }
    requires within_2 { Within 66355278 here }
    requires within_3 { Within 66355278 before }
    ensures { result ≡ floor_div (pos 2 *ℤ x *ℤ here) S -ℤ before }
{
    floor_of_step(2 * x * here) - before
}

// The value at the place x: one pass that holds two polynomials and the sum.
pub fn value(x: i64, coefs: &[i64]) -> i64
    requires coefs_len { length coefs.now ≡ 14 }
    requires in_range { InRange coefs.now }
    requires within { Within S x }
    ensures { result ≡ segment.value coefs.now x }
{
    let mut before: i64 = 66355200;
    let mut here = x;
    let mut sum = coefs[1] * x;
    for n in 2..coefs.len() {
        let after = next(x, here, before);
        before = here;
        here = after;
        sum += coefs[n] * here;
    }
    coefs[0] + floor_of_sum(sum)
}

// n² times the size of a coefficient.
fn weight(c: i64, n: usize) -> i64
    requires within { Within 4000000000 c }
    requires n_bound { n < 14 }
    ensures { result ≡ pos (n * n * nat_abs c) }
{
    ((n * n) as u64 * whole::absolute(c)) as i64
}

// How fast a segment rises at least: c1 minus the weights of the coefficients after it.
pub fn slope(coefs: &[i64]) -> i64
    requires coefs_len { length coefs.now ≡ 14 }
    requires in_range { InRange coefs.now }
    ensures { result ≡ segment.slope coefs.now }
{
    let mut left = coefs[1];
    for n in 2..14 {
        left -= weight(coefs[n], n);
    }
    left
}

// c0 + c2 + .. + c12.
pub fn even_sum(coefs: &[i64]) -> i64
    requires coefs_len { length coefs.now ≡ 14 }
    requires in_range { InRange coefs.now }
    ensures { result ≡ even_sum coefs.now }
{
    let mut sum = coefs[0];
    for i in 1..7 {
        sum += coefs[2 * i];
    }
    sum
}

// c1 + c3 + .. + c13.
pub fn odd_sum(coefs: &[i64]) -> i64
    requires coefs_len { length coefs.now ≡ 14 }
    requires in_range { InRange coefs.now }
    ensures { result ≡ odd_sum coefs.now }
{
    let mut sum = coefs[1];
    for i in 1..7 {
        sum += coefs[2 * i + 1];
    }
    sum
}

// n² times a coefficient.
fn squared(c: i64, n: usize) -> i64
    requires within { Within 4000000000 c }
    requires n_bound { n < 14 }
    ensures { result ≡ c *ℤ pos (n * n) }
{
    c * (n * n) as i64
}

// The sum of the coefficients, each times n².
pub fn square_sum(coefs: &[i64]) -> i64
    requires coefs_len { length coefs.now ≡ 14 }
    requires in_range { InRange coefs.now }
    ensures { result ≡ square_sum coefs.now }
{
    let mut sum = 0;
    for n in 1..14 {
        sum += squared(coefs[n], n);
    }
    sum
}
