// The months of a sui, from days and from series, into lent words.
ghost use Rattle.std.specs.Prelude.{◌≡◌, length};
ghost use Rattle.refusals.specs.Verdict.{paper};
ghost use Rattle.refusals.specs.Lent.{written_into};
ghost use Rattle.inputs.specs.Inputs.{inputs};
ghost use Rattle.months.specs.Limits.{months_of};
ghost use Rattle.sui.specs.Sui.{sui_for};
ghost use Rattle.answers.specs.Record.{number_of, record_of};
ghost use Rattle.answers.specs.Months.{sui_into, sui_words, sui_numbers};
ghost use Rattle.exports.specs.theory.Suis.{Storable};

use answer_record::inner::record::{record, tell};
use build::inner::records::put_months;
use months::Sui;
use refusals::Refusal;
use times::Second;

// Stores the months of the sui that was found, from the start of `out` on. A refusal, or 12 where `out` has fewer words than they take, stores nothing.
fn store(found: Result<Sui, Refusal>, out: &mut [i64]) -> Result<Sui, Refusal>
    requires { Storable (paper found) }
    ensures value { paper result ≡ sui_into (paper found) (length out.old) }
    ensures out_after { out.new ≡ written_into (sui_into (paper found) (length out.old)) sui_words out.old }
{
    let sui = found?;
    if out.len() < 3 * sui.count {
        return Err(Refusal::Room);
    }
    put_months(sui, out, 0);
    Ok(sui)
}

// The months of the sui that these new-moon days and zhongqi days hold.
#[unsafe(no_mangle)]
pub extern "C" fn hzk_months_of(
    year: i64,
    moons: &[i64],
    zhongqi: &[i64],
    months: &mut [i64],
    answer: &mut [i64; 9],
) -> i64
    ensures value { result ≡ number_of (sui_into (months_of year moons.now zhongqi.now) (length months.old)) }
    ensures answer_after { answer.new ≡ record_of (sui_into (months_of year moons.now zhongqi.now) (length months.old)) sui_numbers }
    ensures months_after { months.new ≡ written_into (sui_into (months_of year moons.now zhongqi.now) (length months.old)) sui_words months.old }
{
    let stored = store(month_rule::months_of(year, moons, zhongqi), months);
    tell(record(stored), answer)
}

// The months of the sui of a year, from leap table and series, by the days of a zone.
#[unsafe(no_mangle)]
pub extern "C" fn hzk_sui(
    leap: &[i64],
    sunstart: i64,
    sun: &[i64],
    moonstart: i64,
    moon: &[i64],
    zone: i64,
    year: i64,
    months: &mut [i64],
    answer: &mut [i64; 9],
) -> i64
    ensures value { result ≡ number_of (sui_into (sui_for (inputs leap.now sunstart sun.now moonstart moon.now) zone year) (length months.old)) }
    ensures answer_after { answer.new ≡ record_of (sui_into (sui_for (inputs leap.now sunstart sun.now moonstart moon.now) zone year) (length months.old)) sui_numbers }
    ensures months_after { months.new ≡ written_into (sui_into (sui_for (inputs leap.now sunstart sun.now moonstart moon.now) zone year) (length months.old)) sui_words months.old }
{
    let found = one_sui::sui(
        leap,
        Second(sunstart),
        sun,
        Second(moonstart),
        moon,
        zone,
        year,
    );
    let stored = store(found, months);
    tell(record(stored), answer)
}
