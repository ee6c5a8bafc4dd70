// Where the locator looks. Any second inside a stretch keeps its proof, so what is promised here is only that, and that no sum or product on the way is too large.
ghost use Rattle.std.specs.Prelude.{◌≡◌, not, ◌&&◌, ◌^◌, ◌/◌, ◌≤◌, ◌<◌, ltb, pos, nat_abs, ◌≤ℤ◌, ◌<ℤ◌};
ghost use Rattle.whole.specs.Ranges.{Within};
ghost use Rattle.guess.specs.Sizes.{Raised, Doubled, Between, Aim};

// ---- numbers kept in a range

// a, or the nearer of -most and most.
fn at_most(most: i64, a: i64) -> i64
    requires { pos 0 ≤ℤ most }
    ensures { Within (nat_abs most) result }
{
    a.clamp(-most, most)
}

// a, or what it must at least be.
fn at_least(least: i64, a: i64) -> i64
    ensures { Raised least a result }
{
    a.max(least)
}

// a, or the nearer of the first and the last.
fn between(first: i64, last: i64, a: i64) -> i64
    requires { first ≤ℤ last }
    ensures { Between first last result }
{
    a.clamp(first, last)
}

// ---- a segment

// The segment with a number nearest to this one.
fn segment_near(number: i64, segments: usize) -> usize
    requires { 0 < segments }
    ensures { result < segments }
{
    if number < 0 {
        return 0;
    }
    let n = whole::inner::count(number);
    if n < segments { n } else { segments - 1 }
}

// In units of 256.
fn coarse(units: i64) -> i64
    requires { Within 3000000000000000 units }
    ensures { Within 11718750000000 result }
{
    units >> 8
}

// The segment to begin with: the nearest by proportion between the first c0 and the last.
pub fn hint(first: i64, last: i64, segments: usize, target: i64) -> usize
    requires within { Within 1000000000000000 first }
    requires within_2 { Within 1000000000000000 last }
    requires segments_nonzero { (0 < segments) × (segments ≤ 16000) }
    requires within_3 { Within 2000000000000000 target }
    ensures { result < segments }
{
    let all = at_least(1, coarse(last - first));
    let part = coarse(target - first) * whole::inner::signed(segments - 1);
    segment_near(whole::inner::floor_div(2 * part + all, 2 * all), segments)
}

// A segment nearer to the target than segment k, as far as its c0 and c1 tell: c0 is the value near its middle, c1 the rise of half of it. It is k where the target
// lies within it.
pub fn toward(c0: i64, c1: i64, k: usize, segments: usize, target: i64) -> usize
    requires within { Within 1000000000000000 c0 }
    requires within_2 { Within 4000000000 c1 }
    requires k_lt_segments { (k < segments) × (segments ≤ 16000) }
    requires within_3 { Within 2000000000000000 target }
    ensures { result < segments }
{
    let rise = target - c0;
    let half = at_least(1, c1);
    if rise < half && 0 - half <= rise {
        return k;
    }
    let steps = whole::inner::floor_div(rise + half, 2 * half);
    segment_near(whole::inner::signed(k) + steps, segments)
}

// ---- a place in a segment: its middle is 0, its ends are -1048576 and 1048576

// a at a place, where it is 0 in the middle and a at the end.
fn times(a: i64, place: i64) -> i64
    requires within { Within 4000000000000 a }
    requires within_2 { Within 2097152 place }
    ensures { Doubled a result }
{
    (a * place) >> 20
}

// The place at which what is b at the end is a, or the nearer end.
fn ratio(a: i64, b: i64) -> i64
    requires within { Within 4000000000000 a }
    requires pos_bound { pos 0 <ℤ b }
    ensures { Within 1048576 result }
{
    at_most(1048576, whole::inner::floor_div(a * 1048576, b))
}

// A place, and how fast the value rises there: so much in half a segment.
#[derive(Clone, Copy)]
pub struct Aimed {
    pub place: i64,
    pub slope: i64,
}

// One step of Newton's from a place toward that at which a1 t + a2 t² + a3 t³ is the goal.
fn step(goal: i64, a1: i64, a2: i64, a3: i64, place: i64) -> Aimed
    requires within { Within 12000000000 goal }
    requires within_2 { Within 17000000000 a1 }
    requires within_3 { Within 8000000000 a2 }
    requires within_4 { Within 16000000000 a3 }
    requires within_5 { Within 1048576 place }
    ensures { Aim result.place result.slope }
{
    let cubic = times(a3, place);
    let mean = a1 + times(a2 + cubic, place);
    let slope = at_least(16777216, mean + times(a2 + 2 * cubic, place));
    let more = ratio(goal - times(mean, place), slope);
    Aimed {
        place: place + more,
        slope,
    }
}

// Where a segment reaches the target, as far as c0 to c3 tell: by a line, then by one step. 16777216 is less than any accepted segment's slope.
pub fn aim(c0: i64, c1: i64, c2: i64, c3: i64, target: i64) -> Aimed
    requires within { Within 1000000000000000 c0 }
    requires within_2 { Within 4000000000 c1 }
    requires within_3 { Within 4000000000 c2 }
    requires within_4 { Within 4000000000 c3 }
    requires within_5 { Within 2000000000000000 target }
    ensures { Aim result.place result.slope }
{
    let goal = at_most(8000000000, target - c0) + c2;
    let a1 = at_least(16777216, c1 - 3 * c3);
    step(goal, a1, 2 * c2, 4 * c3, ratio(goal, a1))
}

// ---- a second

// The second at a place of segment k, or the nearer of the first and the last.
pub fn second(first: i64, last: i64, k: usize, half: usize, place: i64) -> i64
    requires within { Within 10000000000 first }
    requires first_le_last { first ≤ℤ last }
    requires k_bound { k < 16000 }
    requires half_bound { half ≤ 1382400 }
    requires within_2 { Within 2097152 place }
    ensures { Between first last result }
{
    let middle = whole::inner::signed((2 * k + 1) * half);
    let seconds = times(whole::inner::signed(half), place);
    between(first, last, first + middle + seconds)
}

// The second of the mark, it is thought, from a second at which the value is so much under it: rounded up.
pub fn ahead(at: i64, under: i64, half: usize, slope: i64) -> i64
    requires within { Within 20000000000 at }
    requires half_bound { half ≤ 1382400 }
    requires pos_bound { pos 0 <ℤ slope }
    ensures { Within 2000000000000000000 result }
{
    let rise = at_most(1000000000000, under) * whole::inner::signed(half);
    at + whole::inner::floor_div(rise - 1, slope) + 1
}

// ---- a second of a stretch

// So many seconds on, strictly inside n: a / b of the way, or, where that is close to one end, twice as far from that end, so that the next stretch is short.
fn proportional(a: usize, b: usize, n: usize) -> usize
    requires a_le_b { a ≤ b }
    requires lt_n { 1 < n }
    requires n_bound { n < 2 ^ 33 }
    ensures { (0 < result) × (result < n) }
{
    let unit = b / 2147483648 + 1;
    let part = a / unit * n / (b / unit + 1);
    let near = if part < n { part } else { n - 1 };
    let far = n - near;
    if near < n / 16 {
        return 2 * near + 1;
    }
    if far < n / 16 {
        return n - 2 * far - 1;
    }
    if near == 0 { 1 } else { near }
}

// The same, or half the way.
pub fn seconds_on(halve: bool, a: usize, b: usize, n: usize) -> usize
    requires a_le_b { a ≤ b }
    requires lt_n { 1 < n }
    requires n_bound { n < 2 ^ 33 }
    ensures { (0 < result) × (result < n) }
{
    if halve { n / 2 } else { proportional(a, b, n) }
}

// Whether to halve next: after a guess that left more than half, so that two steps together always halve.
pub fn halve_next(halved: bool, left: usize, rest: usize) -> bool
    ensures { result ≡ not halved && ltb (left / 2) rest }
{
    if halved {
        return false;
    }
    left / 2 < rest
}
