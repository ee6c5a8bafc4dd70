// How long an input may be, for every program that reads first Y, count of suis, leap table, Sun and Moon.
ghost use Rattle.std.specs.Prelude.{◌≡◌};
ghost use Rattle.building.specs.Building.{all_taken};

// Whether an input may have so many bytes, and their words were all taken.
pub fn all_taken(words: &[i64], bytes: usize) -> bool
    ensures { result ≡ all_taken words.now bytes }
{
    if 2017080 < bytes {
        return false;
    }
    if bytes % 8 != 0 {
        return false;
    }
    bytes / 8 <= words.len()
}
