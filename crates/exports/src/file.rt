// The almanac file: checked, read, written, built and rebuilt.
ghost use Rattle.std.specs.Prelude.{◌≡◌, length};
ghost use Rattle.refusals.specs.Lent.{written_into};
ghost use Rattle.inputs.specs.Inputs.{inputs};
ghost use Rattle.content.specs.Content.{content, leap_words, sui_words, month_words};
ghost use Rattle.almanac.specs.Answers.{checked_file, content_read, read_file, bytes_to_write, all_bytes, written_file};
ghost use Rattle.built.specs.Build.{bytes_built, file_built};
ghost use Rattle.rebuilt.specs.Rebuild.{rebuilt, counted, new_bytes, kept_years};
ghost use Rattle.answers.specs.Record.{number_of, record_of, count_numbers, file_numbers, rebuilt_numbers};

use answer_record::inner::record::{record, tell};
use times::Second;

// Checks a file.
#[unsafe(no_mangle)]
pub extern "C" fn hzk_check_file(file: &[u8], answer: &mut [i64; 9]) -> i64
    ensures value { result ≡ number_of (checked_file file.now) }
    ensures answer_after { answer.new ≡ record_of (checked_file file.now) file_numbers }
{
    tell(record(reader::check_file(file)), answer)
}

// Reads a file into lent words.
#[unsafe(no_mangle)]
pub extern "C" fn hzk_read_file(
    file: &[u8],
    leap: &mut [i64],
    suis: &mut [i64],
    months: &mut [i64],
    answer: &mut [i64; 9],
) -> i64
    ensures value { result ≡ number_of (read_file file.now (length leap.old) (length suis.old) (length months.old)) }
    ensures answer_after { answer.new ≡ record_of (read_file file.now (length leap.old) (length suis.old) (length months.old)) file_numbers }
    ensures leap_after { leap.new ≡ written_into (content_read file.now (length leap.old) (length suis.old) (length months.old)) leap_words leap.old }
    ensures suis_after { suis.new ≡ written_into (content_read file.now (length leap.old) (length suis.old) (length months.old)) sui_words suis.old }
    ensures months_after { months.new ≡ written_into (content_read file.now (length leap.old) (length suis.old) (length months.old)) month_words months.old }
{
    let read = reader::read_file(file, leap, suis, months);
    tell(record(read), answer)
}

// Writes a file from the lists that reading gives.
#[unsafe(no_mangle)]
pub extern "C" fn hzk_write_file(
    leap: &[i64],
    suis: &[i64],
    months: &[i64],
    file: &mut [u8],
    answer: &mut [i64; 9],
) -> i64
    ensures value { result ≡ number_of (written_file (content leap.now suis.now months.now) (length file.old)) }
    ensures answer_after { answer.new ≡ record_of (written_file (content leap.now suis.now months.now) (length file.old)) count_numbers }
    ensures file_after { file.new ≡ written_into (bytes_to_write (content leap.now suis.now months.now) (length file.old)) all_bytes file.old }
{
    let written = writer::write_file(leap, suis, months, file);
    tell(record(written), answer)
}

// Builds a file of `count` suis from year `first` on, by the days of a zone.
#[unsafe(no_mangle)]
pub extern "C" fn hzk_build(
    leap: &[i64],
    sunstart: i64,
    sun: &[i64],
    moonstart: i64,
    moon: &[i64],
    zone: i64,
    first: i64,
    count: i64,
    file: &mut [u8],
    answer: &mut [i64; 9],
) -> i64
    ensures value { result ≡ number_of (file_built (inputs leap.now sunstart sun.now moonstart moon.now) zone first count (length file.old)) }
    ensures answer_after { answer.new ≡ record_of (file_built (inputs leap.now sunstart sun.now moonstart moon.now) zone first count (length file.old)) count_numbers }
    ensures file_after { file.new ≡ written_into (bytes_built (inputs leap.now sunstart sun.now moonstart moon.now) zone first count (length file.old)) all_bytes file.old }
{
    let built = build::build(
        leap,
        Second(sunstart),
        sun,
        Second(moonstart),
        moon,
        zone,
        first,
        count,
        file,
    );
    tell(record(built), answer)
}

// Rebuilds an old file from new inputs, by the days of a zone, and lists the years of the suis whose days stay as they were.
#[unsafe(no_mangle)]
pub extern "C" fn hzk_rebuild(
    old: &[u8],
    oldleap: &[i64],
    oldsunstart: i64,
    oldsun: &[i64],
    oldmoonstart: i64,
    oldmoon: &[i64],
    leap: &[i64],
    sunstart: i64,
    sun: &[i64],
    moonstart: i64,
    moon: &[i64],
    zone: i64,
    file: &mut [u8],
    years: &mut [i64],
    answer: &mut [i64; 9],
) -> i64
    ensures value { result ≡ number_of (counted (rebuilt (inputs oldleap.now oldsunstart oldsun.now oldmoonstart oldmoon.now) (inputs leap.now sunstart sun.now moonstart moon.now) zone old.now (length file.old) (length years.old))) }
    ensures answer_after { answer.new ≡ record_of (counted (rebuilt (inputs oldleap.now oldsunstart oldsun.now oldmoonstart oldmoon.now) (inputs leap.now sunstart sun.now moonstart moon.now) zone old.now (length file.old) (length years.old))) rebuilt_numbers }
    ensures file_after { file.new ≡ written_into (rebuilt (inputs oldleap.now oldsunstart oldsun.now oldmoonstart oldmoon.now) (inputs leap.now sunstart sun.now moonstart moon.now) zone old.now (length file.old) (length years.old)) new_bytes file.old }
    ensures years_after { years.new ≡ written_into (rebuilt (inputs oldleap.now oldsunstart oldsun.now oldmoonstart oldmoon.now) (inputs leap.now sunstart sun.now moonstart moon.now) zone old.now (length file.old) (length years.old)) kept_years years.old }
{
    let rebuilt = rebuild::rebuild(
        old,
        oldleap,
        Second(oldsunstart),
        oldsun,
        Second(oldmoonstart),
        oldmoon,
        leap,
        Second(sunstart),
        sun,
        Second(moonstart),
        moon,
        zone,
        file,
        years,
    );
    tell(record(rebuilt), answer)
}
