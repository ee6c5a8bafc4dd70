// The zhongqi from one solstice to the next: their thirteen days, found and put.
ghost use Rattle.std.specs.Prelude.{◌≡◌, ◌+◌, ◌*◌, ◌≤◌, ◌<◌, pos, ◌+ℤ◌, length, ◌≤ℤ◌, ◌<ℤ◌};
ghost use Rattle.whole.specs.Lists.{placed};
ghost use Rattle.whole.specs.Ranges.{Within};
ghost use Rattle.series.specs.declared.Body.TheVariants.{Sun};
ghost use Rattle.series.specs.Series.{series};
ghost use Rattle.marks.specs.Listed.{first_reached, last_reached};
ghost use Rattle.inputs.specs.Inputs.{day_of_mark};
ghost use Rattle.inputs.specs.Known.{Ready};
ghost use Rattle.sui.specs.theory.Found.{zhongqi_from};

use one_sui::inner::zhongqi_day;
use times::Second;

// The day of the i-th zhongqi from the solstice with this index on; the days of both solstices are known.
fn zhongqi_between(
    leap: &[i64],
    start: Second,
    coefs: &[i64],
    zone: i64,
    index: i64,
    first: i64,
    last: i64,
    i: usize,
) -> i64
    requires ready { Ready leap.now (series Sun start.0 coefs.now) }
    requires within { Within 1000 zone }
    requires coefs_bound { first_reached (series Sun start.0 coefs.now) <ℤ index }
    requires pos_bound { (index +ℤ pos 24) ≤ℤ last_reached (series Sun start.0 coefs.now) }
    requires first_value { first ≡ (day_of_mark leap.now (series Sun start.0 coefs.now) zone (index +ℤ pos (2 * 0))).0 }
    requires last_value { last ≡ (day_of_mark leap.now (series Sun start.0 coefs.now) zone (index +ℤ pos (2 * 12))).0 }
    requires i_bound { i < 13 }
    ensures { result ≡ (day_of_mark leap.now (series Sun start.0 coefs.now) zone (index +ℤ pos (2 * i))).0 }
{
    if i == 0 {
        return first;
    }
    if i == 12 {
        return last;
    }
    zhongqi_day(leap, start, coefs, zone, index, i)
}

// The days of the thirteen zhongqi from one solstice to the next.
pub fn zhongqi_days(
    leap: &[i64],
    start: Second,
    coefs: &[i64],
    zone: i64,
    index: i64,
    first: i64,
    last: i64,
) -> [i64; 13]
    requires ready { Ready leap.now (series Sun start.0 coefs.now) }
    requires within { Within 1000 zone }
    requires coefs_bound { first_reached (series Sun start.0 coefs.now) <ℤ index }
    requires pos_bound { (index +ℤ pos 24) ≤ℤ last_reached (series Sun start.0 coefs.now) }
    requires first_value { first ≡ (day_of_mark leap.now (series Sun start.0 coefs.now) zone (index +ℤ pos (2 * 0))).0 }
    requires last_value { last ≡ (day_of_mark leap.now (series Sun start.0 coefs.now) zone (index +ℤ pos (2 * 12))).0 }
    ensures { result ≡ zhongqi_from leap.now (series Sun start.0 coefs.now) zone index }
{
    let mut days: [i64; 13] = [0; 13];
    for (i, day) in days.iter_mut().enumerate() {
        *day = zhongqi_between(leap, start, coefs, zone, index, first, last, i);
    }
    days
}

// Thirteen days, put into lent words.
pub fn put_thirteen(out: &mut [i64], at: usize, days: [i64; 13])
    requires { at + 13 ≤ length out.old }
    ensures { out.new ≡ placed at days out.old }
{
    out[at..at + 13].copy_from_slice(&days);
}
