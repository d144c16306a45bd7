// What stands in a lent buffer: the separators that some bytes start with, a record's bytes, and the bytes after a piece is taken.
// specs/Buffer.antt says which these are, for all places and lengths.
#![tactic(auto)]

ghost use Rattle.std.specs.Prelude.{◌≡◌, length};
ghost use Rattle.buffer.specs.Buffer.{is_separator, separators, taken_behind, refilled, record_of};

// Whether a byte separates records.
#[tactic(auto, unfolding(crate::specs::Buffer::is_separator))]
fn is_separator(b: u8) -> bool
    ensures { result ≡ is_separator b }
{
    b == b';' || blanks::is_blank(b)
}

// How many separators some bytes start with.
pub fn leading_separators(bytes: &[u8]) -> usize
    ensures { result ≡ separators bytes.now }
{
    bytes.iter().take_while(|b| is_separator(**b)).count()
}

// Moves the bytes from `start` up to `filled` to the front, puts as much of a piece behind them as there is room for, and answers how much
// that is. Where the places are not in this order within the buffer, that is nothing, and nothing is written.
#[tactic(auto, unfolding(crate::specs::Buffer::taken_behind, crate::specs::Buffer::refilled))]
pub fn refill(buf: &mut [u8], start: usize, filled: usize, piece: &[u8]) -> usize
    ensures answer { result ≡ taken_behind start filled (length buf.old) (length piece.now) }
    ensures written { buf.new ≡ refilled start filled piece.now buf.old }
{
    if filled < start || buf.len() < filled {
        return 0;
    }
    let held = filled - start;
    let count = piece.len().min(buf.len() - held);
    // Where they stand there already, the cost of a piece does not grow with what is passed.
    if 0 < start {
        buf.copy_within(start..filled, 0);
    }
    buf[held..held + count].copy_from_slice(&piece[..count]);
    count
}

// The bytes of a record that was handed out, empty where they run past the buffer.
pub fn record(buf: &[u8], place: usize, length: usize) -> &[u8]
    ensures { result.now ≡ record_of buf.now place «length» }
{
    buf.get(place..)
        .and_then(|rest| rest.get(..length))
        .unwrap_or(&[])
}
