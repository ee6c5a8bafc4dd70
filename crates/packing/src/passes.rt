// The two passes over a text: the first judges and counts its words, the second writes them.
ghost use Rattle.std.specs.Prelude.{◌≡◌, true, ◌+◌, ◌≤◌, length};
ghost use Rattle.whole.specs.Lists.{placed};
ghost use Rattle.packing.specs.Packing.{scan, start, bytes_of};
ghost use Rattle.packing.specs.Passes.{judged, is_bad, ended_words, ended_bytes, is_good, found};

use crate::BadWord;
use crate::reading::{At, Ended, State, end_of, ended_by, step};

fn begin() -> State
    ensures { result ≡ start }
{
    State {
        line: 1,
        word: 0,
        at: At::Between,
    }
}

fn is_bad(ended: Ended) -> bool
    ensures { result ≡ is_bad ended }
{
    match ended {
        Ended::Nothing => false,
        Ended::Word(_) => false,
        Ended::Bad => true,
    }
}

// How many words ended: one or none.
fn count(ended: Ended) -> usize
    ensures { (result ≡ ended_words ended) × (result ≤ 1) }
{
    match ended {
        Ended::Nothing => 0,
        Ended::Word(_) => 1,
        Ended::Bad => 0,
    }
}

// The first pass: how many words a text has, or the first that is none.
pub fn judge(text: &[u8]) -> Result<usize, BadWord>
    ensures { result ≡ judged 0 (scan start text.now) }
{
    let mut state = begin();
    let mut words: usize = 0;
    for &byte in text {
        let at = state.at;
        let ended = ended_by(at, byte);
        if is_bad(ended) {
            return Err(BadWord {
                line: state.line,
                word: state.word,
            });
        }
        words += count(ended);
        state = step(state, byte);
    }
    let at = state.at;
    let last = end_of(at);
    if is_bad(last) {
        return Err(BadWord {
            line: state.line,
            word: state.word,
        });
    }
    Ok(words + count(last))
}

// Puts the bytes of what ended behind those that end at `end`, and says where they end now.
fn put_ended(out: &mut [u8], end: usize, ended: Ended) -> usize
    requires { end + length (ended_bytes ended) ≤ length out.old }
    ensures value { result ≡ end + length (ended_bytes ended) }
    ensures out_after { out.new ≡ placed end (ended_bytes ended) out.old }
{
    match ended {
        Ended::Nothing => end,
        Ended::Bad => end,
        Ended::Word(z) => {
            words::inner::put8(out, end, z);
            end + 8
        }
    }
}

// The second pass, over a text whose words are all good and fit the room.
pub fn fill(text: &[u8], out: &mut [u8])
    requires text_value { is_good (scan start text.now) ≡ true }
    requires text_in_bounds { length (bytes_of (found (scan start text.now))) ≤ length out.old }
    ensures { out.new ≡ placed 0 (bytes_of (found (scan start text.now))) out.old }
{
    let mut state = begin();
    let mut end: usize = 0;
    for &byte in text {
        let at = state.at;
        let ended = ended_by(at, byte);
        end = put_ended(out, end, ended);
        state = step(state, byte);
    }
    let at = state.at;
    let last = end_of(at);
    put_ended(out, end, last);
}
