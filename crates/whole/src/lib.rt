// Whole numbers of the machine: the leaf functions that other crates call. Each contract speaks of ℤ, so that no caller sees bits.
#![tactic(auto)]

ghost use Rattle.std.specs.Prelude.{◌≡◌, nat_abs};

pub mod inner;
mod worked;

// The absolute value; it is a count, since that of the least number has no place in an `i64`.
pub fn absolute(a: i64) -> u64
    ensures { result ≡ nat_abs a }
{
    a.unsigned_abs()
}
