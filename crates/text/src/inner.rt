// Putting a line into lent room. Callers show that there is room for it.
ghost use Rattle.std.specs.Prelude.{◌≡◌, ◌+◌, ◌<◌, ◌≤◌, ◌++◌, length, take, drop};
ghost use Rattle.text.specs.Text as text;

use crate::Moment;

// The digit of n at a unit.
pub fn digit(n: u64, unit: u64) -> u8
    requires { 1 ≤ unit }
    ensures { result ≡ text.digit n unit }
{
    b'0' + (n / unit % 10) as u8
}

// What stands behind the index: date and time.
pub fn stamp(m: Moment) -> [u8; 25]
    ensures { result ≡ text.stamp (text.date m.year m.month m.day) (text.time m.hour m.minute m.second m.millisecond) }
{
    [
        b' ',
        digit(m.year, 1000),
        digit(m.year, 100),
        digit(m.year, 10),
        digit(m.year, 1),
        b'-',
        digit(m.month, 10),
        digit(m.month, 1),
        b'-',
        digit(m.day, 10),
        digit(m.day, 1),
        b' ',
        digit(m.hour, 10),
        digit(m.hour, 1),
        b':',
        digit(m.minute, 10),
        digit(m.minute, 1),
        b':',
        digit(m.second, 10),
        digit(m.second, 1),
        b'.',
        digit(m.millisecond, 100),
        digit(m.millisecond, 10),
        digit(m.millisecond, 1),
        b'\n',
    ]
}

// The letter, a space and the index: three bytes, or four.
fn short_head(letter: u8, index: u64) -> [u8; 3]
    requires { index < 10 }
    ensures { result ≡ text.head letter index }
{
    [letter, b' ', digit(index, 1)]
}

fn long_head(letter: u8, index: u64) -> [u8; 4]
    requires { 10 ≤ index }
    ensures { result ≡ text.head letter index }
{
    [letter, b' ', digit(index, 10), digit(index, 1)]
}

// Puts a part into the room, from `at` on.
pub fn put(room: &mut [u8], at: usize, part: &[u8])
    requires { at + length part.now ≤ length room.old }
    ensures { room.new ≡ take at room.old ++ part.now ++ drop (at + length part.now) room.old }
{
    room[at..at + part.len()].copy_from_slice(part);
}

// Puts two parts into the room, one behind the other, and says where they end.
fn put_both(room: &mut [u8], at: usize, head: &[u8], tail: &[u8]) -> usize
    requires { at + (length head.now + length tail.now) ≤ length room.old }
    ensures value { result ≡ at + (length head.now + length tail.now) }
    ensures room_after { room.new ≡ take at room.old ++ (head.now ++ tail.now) ++ drop (at + (length head.now + length tail.now)) room.old }
{
    put(room, at, head);
    let behind = at + head.len();
    put(room, behind, tail);
    behind + tail.len()
}

// How many bytes a line with this index has.
pub fn line_length(index: u64) -> usize
    ensures { result ≡ text.line_length index }
{
    if index < 10 { 28 } else { 29 }
}

// Puts a line into the room, from `at` on, and says where it ends.
pub fn put_line(room: &mut [u8], at: usize, letter: u8, index: u64, m: Moment) -> usize
    requires { at + text.line_length index ≤ length room.old }
    ensures value { result ≡ at + text.line_length index }
    ensures room_after { room.new ≡ take at room.old ++ text.line letter index (text.date m.year m.month m.day) (text.time m.hour m.minute m.second m.millisecond) ++ drop (at + text.line_length index) room.old }
{
    let tail = stamp(m);
    if index < 10 {
        let head = short_head(letter, index);
        return put_both(room, at, &head, &tail);
    }
    let head = long_head(letter, index);
    put_both(room, at, &head, &tail)
}

// The line of a refusal: four bytes, or five.
pub fn short_refusal(number: u64) -> [u8; 4]
    requires { number < 10 }
    ensures { result ≡ text.refusal_line number }
{
    [b'R', b' ', digit(number, 1), b'\n']
}

pub fn long_refusal(number: u64) -> [u8; 5]
    requires { 10 ≤ number }
    ensures { result ≡ text.refusal_line number }
{
    [b'R', b' ', digit(number, 10), digit(number, 1), b'\n']
}
