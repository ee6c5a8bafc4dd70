// Reading and writing little-endian numbers. Callers show that the bytes are there, and the room.
ghost use Rattle.std.specs.Prelude.{◌≡◌, ◌++◌, ◌+◌, ◌*◌, ◌≤◌, ◌<◌, negsuc, nat_abs, length, take, drop};
ghost use Rattle.whole.specs.Lists.{placed};
ghost use Rattle.words.specs.Words.{byte, pattern4, unsigned4, signed4, word8, words, bytes1, bytes4, bytes8};

// -k - 1.
pub fn below_zero(k: u64) -> i64
    requires { k < 9223372036854775808 }
    ensures { result ≡ negsuc k }
{
    -1 - k.cast_signed()
}

// The four bytes at `at`.
fn four_at(src: &[u8], at: usize) -> [u8; 4]
    requires { at + 4 ≤ length src.now }
    ensures { result ≡ take 4 (drop at src.now) }
{
    src[at..at + 4].try_into().unwrap()
}

// The 32 bits at `at`, as a count.
pub fn pattern(src: &[u8], at: usize) -> u64
    requires { at + 4 ≤ length src.now }
    ensures { (result ≡ pattern4 src.now at) × (result < 4294967296) }
{
    u64::from(u32::from_le_bytes(four_at(src, at)))
}

// The byte at `at`.
pub fn byte_at(src: &[u8], at: usize) -> i64
    requires { at < length src.now }
    ensures { result ≡ byte src.now at }
{
    i64::from(src[at])
}

// The 32 bits at `at`, never negative.
pub fn unsigned4_at(src: &[u8], at: usize) -> i64
    requires { at + 4 ≤ length src.now }
    ensures { result ≡ unsigned4 src.now at }
{
    i64::from(u32::from_le_bytes(four_at(src, at)))
}

// The signed 32 bits at `at`.
pub fn signed4_at(src: &[u8], at: usize) -> i64
    requires { at + 4 ≤ length src.now }
    ensures { result ≡ signed4 src.now at }
{
    i64::from(i32::from_le_bytes(four_at(src, at)))
}

// The signed 64-bit word at `at`.
pub fn word_at(src: &[u8], at: usize) -> i64
    requires { at + 8 ≤ length src.now }
    ensures { result ≡ word8 src.now at }
{
    i64::from_le_bytes(src[at..at + 8].try_into().unwrap())
}

// The first n words go to the front of `dst`; what stands behind them stays.
pub fn read_words(src: &[u8], n: usize, dst: &mut [i64])
    requires n_in_bounds { 8 * n ≤ length src.now }
    requires n_in_bounds_2 { n ≤ length dst.old }
    ensures { dst.new ≡ words src.now n ++ drop n dst.old }
{
    for (i, word) in dst[..n].iter_mut().enumerate() {
        *word = word_at(src, 8 * i);
    }
}

// A byte goes to `dst` at `at`.
pub fn put_byte(dst: &mut [u8], at: usize, z: i64)
    requires at_in_bounds { at < length dst.old }
    requires z_bound { nat_abs z < 256 }
    ensures { dst.new ≡ placed at (bytes1 z) dst.old }
{
    dst[at] = z.unsigned_abs() as u8;
}

// A number in the range of 32 bits, signed or not.
pub fn put4(dst: &mut [u8], at: usize, z: i64)
    requires at_in_bounds { at + 4 ≤ length dst.old }
    requires z_bound { nat_abs z < 4294967296 }
    ensures { dst.new ≡ placed at (bytes4 z) dst.old }
{
    dst[at..at + 4].copy_from_slice(&z.to_le_bytes()[..4]);
}

// A signed 64-bit word.
pub fn put8(dst: &mut [u8], at: usize, z: i64)
    requires { at + 8 ≤ length dst.old }
    ensures { dst.new ≡ placed at (bytes8 z) dst.old }
{
    dst[at..at + 8].copy_from_slice(&z.to_le_bytes());
}
