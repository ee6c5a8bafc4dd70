// Taking pieces one after another. Callers show that the room is no larger than an input needs, and how large a piece is.
ghost use Rattle.std.specs.Prelude.{◌≡◌, ◌+◌, ◌*◌, ◌≤◌, length};
ghost use Rattle.pieces.specs.Pieces.{piece_taken};

// Takes the next piece of an input: its words go behind those of the bytes that were taken before it. Says how many bytes are taken now.
#[tactic(auto, unfolding(crate::specs::Pieces::piece_taken))]
pub fn take(piece: &[u8], taken: usize, words: &mut [i64]) -> usize
    requires words_len_bound { length words.old ≤ 300000 }
    requires piece_len_bound { length piece.now ≤ 65536 }
    requires taken_bound { taken ≤ 8 * length words.old }
    ensures value { result ≡ taken + length piece.now }
    ensures words_after { words.new ≡ piece_taken taken piece.now words.old }
{
    let bytes = taken + piece.len();
    if 8 * words.len() < bytes {
        return bytes;
    }
    if taken % 8 != 0 {
        return bytes;
    }
    words::inner::read_words(piece, piece.len() / 8, &mut words[taken / 8..]);
    bytes
}
