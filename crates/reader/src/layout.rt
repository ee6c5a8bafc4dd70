// Where the sections of a file stand. Everything that does not fit is 13.
ghost use Rattle.std.specs.Prelude.{◌≡◌, ◌+◌, ◌≤◌, ◌<◌, length};
ghost use Rattle.refusals.specs.Verdict.{paper};
ghost use Rattle.words.specs.Words.{pattern4};
ghost use Rattle.almanac.specs.Layout.{counts_of};

use almanac::Counts;
use refusals::Refusal;

// The count that stands at `at`.
fn count_at(file: &[u8], at: usize) -> usize
    requires { at + 4 ≤ length file.now }
    ensures { (result ≡ pattern4 file.now at) × (result < 4294967296) }
{
    words::inner::pattern(file, at) as usize
}

// The counts of a file whose sections are all there, with nothing behind them.
pub fn counts_of(file: &[u8]) -> Result<Counts, Refusal>
    ensures { paper result ≡ counts_of file.now }
{
    let end = file.len();
    if end < 4 {
        return Err(Refusal::Layout);
    }
    let entries = count_at(file, 0);
    let second = 4 + 8 * entries;
    if end < second + 4 {
        return Err(Refusal::Layout);
    }
    let suis = count_at(file, second);
    let third = second + 4 + 5 * suis;
    if end < third + 4 {
        return Err(Refusal::Layout);
    }
    let months = count_at(file, third);
    if end != third + 4 + 9 * months {
        return Err(Refusal::Layout);
    }
    Ok(Counts {
        entries,
        suis,
        months,
    })
}
