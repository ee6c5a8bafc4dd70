// Worked loops: the sum of a slice of signed numbers whose range is stated, over its elements and by an index.
ghost use Rattle.std.specs.Prelude.{◌≡◌, ◌≤◌, length};
ghost use Rattle.whole.specs.Ranges.{All};
ghost use Rattle.whole.specs.Worked.{sum_to};

fn total(xs: &[i64]) -> i64
    requires xs_len_bound { length xs.now ≤ 1000000 }
    requires all { All 4000000000 xs.now }
    ensures { result ≡ sum_to xs.now (length xs.now) }
{
    let mut sum: i64 = 0;
    for x in xs {
        sum += *x;
    }
    sum
}

// Kept: a `while` over an index, which a loop has whose answer is the place where it stops.
fn total_by_index(xs: &[i64]) -> i64
    requires xs_len_bound { length xs.now ≤ 1000000 }
    requires all { All 4000000000 xs.now }
    ensures { result ≡ sum_to xs.now (length xs.now) }
{
    let mut sum: i64 = 0;
    let mut i = 0;
    while i < xs.len() {
        sum += xs[i];
        i += 1;
    }
    sum
}
