// Reading decimal words byte by byte: where a byte leaves the reader, and what it ends.
ghost use Rattle.std.specs.Prelude.{◌≡◌, ◌^◌, ◌≤◌, ◌<◌};
ghost use Rattle.packing.specs.Reading.{is_comment, is_between, is_white, is_word_byte, after_digit, beginning, in_word, at_next, began_at, step, signed_of, limit, end_of, ended_by};

use words::inner::below_zero;

// Where the reader stands: between words, in a comment, behind the sign of a word, behind a digit of one (below zero or not, and how far from it), or in what is no word.
#[derive(Clone, Copy)]
pub enum At {
    Between,
    Comment,
    Sign(bool),
    Number(bool, u64),
    Broken,
}

// The line, how many words have begun in it, and where the reader stands.
#[derive(Clone, Copy)]
pub struct State {
    pub line: usize,
    pub word: usize,
    pub at: At,
}

// What ends: nothing, a word with its number, or what is no word.
#[derive(Clone, Copy)]
pub enum Ended {
    Nothing,
    Word(i64),
    Bad,
}

fn white(byte: u8) -> bool
    ensures { result ≡ is_white byte }
{
    if byte == b' ' {
        return true;
    }
    if byte < 9 {
        return false;
    }
    byte <= 13
}

fn word_byte(byte: u8) -> bool
    ensures { result ≡ is_word_byte byte }
{
    if byte == b'#' {
        return false;
    }
    !white(byte)
}

fn wide(byte: u8) -> u64
    ensures { (result ≡ byte) × (result < 256) }
{
    byte as u64
}

// A byte behind so many units, which is to be a digit.
#[tactic(auto, unfolding(crate::specs::Reading::after_digit))]
fn after_digit(below: bool, n: u64, byte: u8) -> At
    ensures { result ≡ after_digit below n byte }
{
    let unit = wide(byte);
    if unit < 48 {
        return At::Broken;
    }
    if 57 < unit {
        return At::Broken;
    }
    if 922337203685477580 < n {
        return At::Broken;
    }
    At::Number(below, 10 * n + (unit - 48))
}

// The first byte of a word.
#[tactic(auto, unfolding(crate::specs::Reading::beginning))]
fn beginning(byte: u8) -> At
    ensures { result ≡ beginning byte }
{
    if byte == b'-' {
        return At::Sign(true);
    }
    if byte == b'+' {
        return At::Sign(false);
    }
    after_digit(false, 0, byte)
}

// A word's byte.
#[tactic(auto, unfolding(crate::specs::Reading::in_word))]
fn in_word(at: At, byte: u8) -> At
    ensures { result ≡ in_word at byte }
{
    match at {
        At::Between => beginning(byte),
        At::Comment => At::Comment,
        At::Sign(below) => after_digit(below, 0, byte),
        At::Number(below, n) => after_digit(below, n, byte),
        At::Broken => At::Broken,
    }
}

fn is_comment(at: At) -> bool
    ensures { result ≡ is_comment at }
{
    match at {
        At::Between => false,
        At::Comment => true,
        At::Sign(_) => false,
        At::Number(_, _) => false,
        At::Broken => false,
    }
}

fn is_between(at: At) -> bool
    ensures { result ≡ is_between at }
{
    match at {
        At::Between => true,
        At::Comment => false,
        At::Sign(_) => false,
        At::Number(_, _) => false,
        At::Broken => false,
    }
}

// Where a byte other than a line feed leaves the reader.
#[tactic(auto, unfolding(crate::specs::Reading::at_next))]
fn at_next(at: At, byte: u8) -> At
    ensures { result ≡ at_next at byte }
{
    if is_comment(at) {
        return At::Comment;
    }
    if byte == b'#' {
        return At::Comment;
    }
    if white(byte) {
        return At::Between;
    }
    in_word(at, byte)
}

// Whether a word begins with a byte.
#[tactic(auto, unfolding(crate::specs::Reading::began_at))]
fn begins(at: At, byte: u8) -> bool
    ensures { result ≡ began_at at byte }
{
    if is_between(at) {
        return word_byte(byte);
    }
    false
}

// One byte on.
#[tactic(auto, unfolding(crate::specs::Reading::step))]
pub fn step(state: State, byte: u8) -> State
    requires { (state.line < 2 ^ 63) × (state.word < 2 ^ 63) }
    ensures { result ≡ step state byte }
{
    if byte == b'\n' {
        return State {
            line: state.line + 1,
            word: 0,
            at: At::Between,
        };
    }
    let at = state.at;
    let next = at_next(at, byte);
    if begins(at, byte) {
        return State {
            line: state.line,
            word: state.word + 1,
            at: next,
        };
    }
    State {
        line: state.line,
        word: state.word,
        at: next,
    }
}

// The number of so many units below zero, or from it on.
fn signed(below: bool, n: u64) -> i64
    requires { n ≤ limit below }
    ensures { result ≡ signed_of below n }
{
    if below {
        if n == 0 {
            return 0;
        }
        return below_zero(n - 1);
    }
    n as i64
}

// What ends where the reader stands, at the end of a word or of the text.
#[tactic(auto, unfolding(crate::specs::Reading::end_of))]
pub fn end_of(at: At) -> Ended
    ensures { result ≡ end_of at }
{
    match at {
        At::Between => Ended::Nothing,
        At::Comment => Ended::Nothing,
        At::Sign(_) => Ended::Bad,
        At::Broken => Ended::Bad,
        At::Number(below, n) => ended_number(below, n),
    }
}

fn limit_of(below: bool) -> u64
    ensures { result ≡ limit below }
{
    if below {
        9223372036854775808
    } else {
        9223372036854775807
    }
}

// A number ends.
#[tactic(auto, unfolding(crate::specs::Reading::end_of))]
fn ended_number(below: bool, n: u64) -> Ended
    ensures { result ≡ end_of (At.Number below n) }
{
    if limit_of(below) < n {
        return Ended::Bad;
    }
    Ended::Word(signed(below, n))
}

// What a byte ends.
#[tactic(auto, unfolding(crate::specs::Reading::ended_by))]
pub fn ended_by(at: At, byte: u8) -> Ended
    ensures { result ≡ ended_by at byte }
{
    if word_byte(byte) {
        return Ended::Nothing;
    }
    end_of(at)
}
