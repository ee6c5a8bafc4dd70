// The fourteen words of a segment: copied out of the coefficients, and put where a segment stands.
ghost use Rattle.std.specs.Prelude.{◌≡◌, ◌<◌};
ghost use Rattle.series.specs.Series.{segment, segments};
ghost use Rattle.replacing.specs.Replaced.{replaced};

// The words of segment k.
pub fn part_of(coefs: &[i64], k: usize) -> [i64; 14]
    requires { k < segments coefs.now }
    ensures { result ≡ segment coefs.now k }
{
    let first = 14 * k;
    let mut part: [i64; 14] = [0; 14];
    part.copy_from_slice(&coefs[first..first + 14]);
    part
}

// Puts a part where segment k stands.
pub fn put(coefs: &mut [i64], k: usize, part: [i64; 14])
    requires { k < segments coefs.old }
    ensures { coefs.new ≡ replaced coefs.old k part }
{
    let first = 14 * k;
    coefs[first..first + 14].copy_from_slice(&part);
}
