// The bytes of a sui's line: 10.
ghost use Rattle.std.specs.Prelude.{◌≡◌, cond};
ghost use Rattle.kept_years.specs.KeptYears.{is_among, row, line};

use text::inner::digit;

// Whether a year stands among others.
fn is_among(year: i64, years: &[i64]) -> bool
    ensures { result ≡ is_among year years.now }
{
    years.contains(&year)
}

// A letter of `kept`, or of `made`.
fn letter(kept: bool, first: u8, second: u8) -> u8
    ensures { result ≡ cond kept first second }
{
    if kept { first } else { second }
}

fn row_bytes(year: u64, kept: bool) -> [u8; 10]
    ensures { result ≡ row year kept }
{
    [
        digit(year, 1000),
        digit(year, 100),
        digit(year, 10),
        digit(year, 1),
        b' ',
        letter(kept, b'k', b'm'),
        letter(kept, b'e', b'a'),
        letter(kept, b'p', b'd'),
        letter(kept, b't', b'e'),
        b'\n',
    ]
}

// The line of a sui's year.
pub fn line_bytes(year: i64, years: &[i64]) -> [u8; 10]
    ensures { result ≡ line year years.now }
{
    row_bytes(whole::absolute(year), is_among(year, years))
}
