// All of the build program: from an input, which is standard input there, to standard output: the file's bytes, or one line that says R and the number, for
// 3 to 5 with the segment. For 2 to 5 one line on standard error says whose series it is. The zone is the program's argument.
#![tactic(auto)]

use std::io;
use std::io::Read;

pub mod inner;

fn print_built(
    rt: &(impl Print + Eprint),
    words: &[i64],
    bytes: usize,
    zone: i64,
) -> io::Result<()> {
    let mut file = inner::file_room();
    match building::build_taken(words, bytes, zone, &mut file) {
        Err(r) => {
            println!(rt; "R {r}")?;
            inner::print_series(rt, words, bytes, zone)
        }
        Ok(n) => rt.write_all(&file[..n]),
    }
}

// Builds the file that is asked for by the words of an input, by the days of a zone.
pub fn build_from<I: Read>(rt: &(impl Print + Eprint), input: &mut I, zone: i64) -> io::Result<()> {
    let mut words = inner::word_room();
    let bytes = inner::take_all(input, &mut words)?;
    print_built(rt, &words, bytes, zone)
}
