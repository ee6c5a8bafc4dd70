// The bytes of the header and of a month's line: 44 each.
ghost use Rattle.std.specs.Prelude.{◌≡◌, true, cond, ◌/◌, ◌%◌, eqb, ltb};
ghost use Rattle.text.specs.Text as text;
ghost use Rattle.dates.specs.Answers.{has_date};
ghost use Rattle.showing.specs.Shown.{header, date_text, columns, line};
ghost use Rattle.showing.specs.Rows.{row_text};

use dates::Date;
use months::Month;
use text::inner::digit;
use times::Day;

// What a line shows.
#[derive(Clone, Copy)]
struct Row {
    sui: u64,
    number: u64,
    leap: bool,
    handle: u64,
    year: u64,
    month: u64,
    day: u64,
    days: u64,
}

pub fn header_bytes() -> [u8; 44]
    ensures { result ≡ header }
{
    [
        b' ', b's', b'u', b'i', b' ', b' ', b'm', b'o', b'n', b't', b'h', b' ', b' ', b'l', b'e',
        b'a', b'p', b' ', b' ', b'h', b'a', b'n', b'd', b'l', b'e', b' ', b' ', b'f', b'i', b'r',
        b's', b't', b' ', b'd', b'a', b'y', b' ', b' ', b' ', b'd', b'a', b'y', b's', b'\n',
    ]
}

// The tens of a number below 100, or a space for none.
fn tens(n: u64) -> u8
    ensures { result ≡ cond (ltb n 10) 32 (text.digit n 10) }
{
    if n < 10 { b' ' } else { digit(n, 10) }
}

// A letter that only a leap month shows.
fn when(leap: bool, letter: u8) -> u8
    ensures { result ≡ cond leap letter 32 }
{
    if leap { letter } else { b' ' }
}

fn row_bytes(row: Row) -> [u8; 44]
    ensures { result ≡ row_text row }
{
    [
        digit(row.sui, 1000),
        digit(row.sui, 100),
        digit(row.sui, 10),
        digit(row.sui, 1),
        b' ',
        b' ',
        b' ',
        b' ',
        b' ',
        tens(row.number),
        digit(row.number, 1),
        b' ',
        b' ',
        when(row.leap, b'l'),
        when(row.leap, b'e'),
        when(row.leap, b'a'),
        when(row.leap, b'p'),
        b' ',
        b' ',
        b' ',
        digit(row.handle, 10000),
        digit(row.handle, 1000),
        digit(row.handle, 100),
        digit(row.handle, 10),
        digit(row.handle, 1),
        b' ',
        b' ',
        digit(row.year, 1000),
        digit(row.year, 100),
        digit(row.year, 10),
        digit(row.year, 1),
        b'-',
        digit(row.month, 10),
        digit(row.month, 1),
        b'-',
        digit(row.day, 10),
        digit(row.day, 1),
        b' ',
        b' ',
        b' ',
        b' ',
        digit(row.days, 10),
        digit(row.days, 1),
        b'\n',
    ]
}

// The handle says the sui's year, the month's number and its leap mark.
fn row_of(handle: u64, date: Date, days: u64) -> Row
    ensures { row_text result ≡ columns (handle / 32) (handle % 32 / 2) (eqb (handle % 2) 1) handle (date_text date) days }
{
    Row {
        sui: handle / 32,
        number: handle % 32 / 2,
        leap: handle % 2 == 1,
        handle,
        year: whole::absolute(date.year),
        month: whole::absolute(date.month),
        day: whole::absolute(date.day),
        days,
    }
}

// The line of a month whose first day has a date.
pub fn line_bytes(month: Month) -> [u8; 44]
    requires { has_date month.first ≡ true }
    ensures { result ≡ line month }
{
    let date = dates::inner::date_for(Day(month.first));
    let handle = whole::absolute(month.handle);
    let days = whole::absolute(month.length);
    row_bytes(row_of(handle, date, days))
}
