// Whether two lists are the same. Words are compared by runs as long as these are the same; of what is left, and of bytes, every bit is gathered, whatever the first
// ones say.
ghost use Rattle.std.specs.Prelude.{◌≡◌};
ghost use Rattle.whole.specs.Evaluated.{same_numbers, same_words};

use super::runs::same_run;

pub fn same_words(a: &[i64], b: &[i64]) -> bool
    ensures { result ≡ same_words a.now b.now }
{
    let n = a.len();
    if b.len() != n {
        return false;
    }
    let mut i: usize = 0;
    // Kept: the index goes on by runs of 896 words, and the words behind the last run are compared from where it stops; a walk over chunks would not tell where that is.
    while 896 <= n - i && same_run(a, b, i) {
        i += 896;
    }
    let mut differing: i64 = 0;
    for k in i..n {
        differing = differing | (a[k] ^ b[k]);
    }
    differing == 0
}

pub fn same_bytes(a: &[u8], b: &[u8]) -> bool
    ensures { result ≡ same_numbers a.now b.now }
{
    if a.len() != b.len() {
        return false;
    }
    let mut differing: u8 = 0;
    for (x, y) in a.iter().zip(b) {
        differing = differing | (*x ^ *y);
    }
    differing == 0
}
