// The layout of the input's words: where its sections stand. Everything that does not fit is 13.
ghost use Rattle.std.specs.Prelude.{◌≡◌, ◌≤◌, length};
ghost use Rattle.refusals.specs.Verdict.{paper};
ghost use Rattle.layout.specs.Layout.{section_end, places};

use refusals::Refusal;

#[derive(Clone, Copy)]
pub struct Places {
    pub sun: usize,
    pub moon: usize,
}

// Where the section at `at` ends. The count is judged before it is multiplied.
fn section_end(words: &[i64], at: usize, extra: usize, width: usize) -> Result<usize, Refusal>
    requires words_len_bound { length words.now ≤ 300000 }
    requires extra_bound { extra ≤ 1 }
    requires le_width { (1 ≤ width) × (width ≤ 14) }
    ensures { paper result ≡ section_end words.now at extra width }
{
    if words.len() <= at {
        return Err(Refusal::Layout);
    }
    let counted = words[at];
    if counted < 0 {
        return Err(Refusal::Layout);
    }
    let k = whole::inner::count(counted);
    if words.len() < k {
        return Err(Refusal::Layout);
    }
    let end = at + 1 + extra + width * k;
    if words.len() < end {
        return Err(Refusal::Layout);
    }
    Ok(end)
}

// Where the sections stand, if they are all there and nothing follows.
pub fn find_places(words: &[i64]) -> Result<Places, Refusal>
    requires { length words.now ≤ 300000 }
    ensures { paper result ≡ places words.now }
{
    let sun = section_end(words, 0, 0, 2)?;
    let moon = section_end(words, sun, 1, 14)?;
    let end = section_end(words, moon, 1, 14)?;
    if end < words.len() {
        return Err(Refusal::Layout);
    }
    Ok(Places { sun, moon })
}
