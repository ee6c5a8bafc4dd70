// The listing: from the input's bytes to its lines in a zone, in parts that fit the lent room.
#![tactic(auto)]

ghost use Rattle.std.specs.Prelude.{◌≡◌, length};
ghost use Rattle.listed.specs.Listing.{listing};
ghost use Rattle.listing.specs.Parts.{part_answer, part_held};

use conversion::inner::is_zone;
use refusals::Refusal;

mod lines;
mod parts;

// A part of the listing: how many whole lines it has, and how many bytes.
#[derive(Clone, Copy)]
pub struct Part {
    pub lines: usize,
    pub bytes: usize,
}

// Room for all the words of the longest input.
fn zeros() -> [i64; 8192]
    ensures { 8192 ≡ length result }
{
    [0; 8192]
}

// The whole lines of the listing, from line `from` on, that fit the room. A listing that is refused is the one line that says so.
pub fn list_part(input: &[u8], zone: i64, from: usize, room: &mut [u8]) -> Part
    ensures value { result ≡ part_answer (listing input.now zone) from (length room.old) }
    ensures room_after { room.new ≡ part_held (listing input.now zone) from room.old }
{
    if !is_zone(zone) {
        return parts::put_refusal(Refusal::Zone, from, room);
    }
    if 65536 < input.len() {
        return parts::put_refusal(Refusal::Layout, from, room);
    }
    if input.len() % 8 != 0 {
        return parts::put_refusal(Refusal::Layout, from, room);
    }
    let n = input.len() / 8;
    // Kept: fixed memory, no heap.
    let mut words = zeros();
    words::inner::read_words(input, n, &mut words);
    parts::put_words(&words[..n], zone, from, room)
}
