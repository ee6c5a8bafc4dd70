// The parts of finding the days of a sui in two lists of days.
ghost use Rattle.std.specs.Prelude.{◌≡◌, ◌++◌, ◌+◌, ◌-◌, ◌≤◌, pos, length, take, drop, replicate};

// So many days from a place on, then zeros.
pub fn fourteen(days: &[i64], from: usize, n: usize) -> [i64; 14]
    requires n_bound { n ≤ 14 }
    requires n_in_bounds { from + n ≤ length days.now }
    ensures { result ≡ take n (drop from days.now) ++ replicate (14 - n) (pos 0) }
{
    // Kept: fixed memory, no heap.
    let mut out: [i64; 14] = [0; 14];
    out[..n].copy_from_slice(&days[from..from + n]);
    out
}

// Thirteen days.
pub fn thirteen(days: &[i64]) -> [i64; 13]
    requires { length days.now ≡ 13 }
    ensures { result ≡ days.now }
{
    days.try_into().unwrap()
}
