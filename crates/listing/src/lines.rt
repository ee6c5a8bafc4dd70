// The lines of one body's marks. Each mark is found by the locator, so that no list of marks is held.
ghost use Rattle.std.specs.Prelude.{◌≡◌, ◌<◌, pos, length, get_or};
ghost use Rattle.whole.specs.Ranges.{Within};
ghost use Rattle.series.specs.Bodies.{numbers};
ghost use Rattle.series.specs.Series.{series};
ghost use Rattle.marks.specs.Answers.{no_mark};
ghost use Rattle.marks.specs.Listed.{first_reached, listed_marks};
ghost use Rattle.inputs.specs.Known.{Ready};
ghost use Rattle.listed.specs.Listing.{letter, line_of};
ghost use Rattle.listing.specs.Lines.{moment_of, line_text};

use clock::ShownTime;
use series::Body;
use text::Moment;
use times::Second;

// What a line shows.
#[derive(Clone, Copy)]
pub struct Line {
    pub letter: u8,
    pub index: u64,
    pub moment: Moment,
}

fn letter_of(body: Body) -> u8
    ensures { result ≡ letter body }
{
    match body {
        Body::Sun => b'S',
        Body::Moon => b'M',
    }
}

// Kept: a number for each body in one line; a record of all such numbers would be made for one of its fields.
fn circle_of(body: Body) -> i64
    ensures { result ≡ pos (numbers body).circle }
{
    match body {
        Body::Sun => 24,
        Body::Moon => 4,
    }
}

fn moment_of(t: ShownTime) -> Moment
    ensures { result ≡ moment_of t }
{
    let date = t.date;
    Moment {
        year: whole::absolute(date.year),
        month: whole::absolute(date.month),
        day: whole::absolute(date.day),
        hour: t.hour,
        minute: t.minute,
        second: t.second,
        millisecond: t.millisecond,
    }
}

// The k-th line, given the first second's mark.
pub fn line_of(
    body: Body,
    leap: &[i64],
    start: Second,
    coefs: &[i64],
    zone: i64,
    lowest: i64,
    k: usize,
) -> Line
    requires ready { Ready leap.now (series body start.0 coefs.now) }
    requires lowest_value { lowest ≡ first_reached (series body start.0 coefs.now) }
    requires k_in_bounds { k < length (listed_marks (series body start.0 coefs.now)) }
    requires within { Within 1000 zone }
    ensures { line_text result ≡ line_of body leap.now zone (get_or (listed_marks (series body start.0 coefs.now)) k no_mark) }
{
    let mark = locator::inner::nth_after(body, start, coefs, lowest, k);
    let second = mark.second;
    let shown = conversion::inner::shown_in(leap, second, zone);
    let turn = whole::inner::floor_mod(mark.index, circle_of(body));
    Line {
        letter: letter_of(body),
        index: whole::absolute(turn),
        moment: moment_of(shown),
    }
}
