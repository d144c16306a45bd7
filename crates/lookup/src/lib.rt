// The same as a cursor's methods by plain parameters, for callers that hold no cursor; and the tokens of some bytes, counted.
// specs/Count.antt says how they are counted.
#![tactic(auto)]

ghost use Rattle.std.specs.Prelude.{◌≡◌, length};
ghost use Rattle.token.specs.Meaning.{read_meaning};
ghost use Rattle.token.specs.Strings.{unescaped_meaning, bytes_answer, bytes_written};
ghost use Rattle.lexer.specs.Lexer.{token_at, string_at};
ghost use Rattle.cursor.specs.Cursor.{peek_meaning, byte_at};
ghost use Rattle.lookup.specs.Count.{count_meaning, count_of};

use cursor::{NoByte, Peeked, YsonIterator};
use refusal::{Format, Refusal, Unread};
use token::{Placed, Read, Unescaped};

// How many tokens stand in some bytes.
#[derive(Clone, Copy, Debug, PartialEq, Eq)]
pub struct Count {
    pub count: usize,
    // The place after the last.
    pub end: usize,
    // What stands behind it and is no token; where there is none, the bytes end there, or end inside a token.
    pub refusal: Option<Refusal>,
}

// The token at a place.
pub fn token_at(input: &[u8], pos: usize, format: Format) -> Read
    ensures { read_meaning result ≡ token_at format input.now pos }
{
    YsonIterator::new(input, format).moved(pos).next_token()
}

// The first byte from a place on that is not ignored.
pub fn peek_at(input: &[u8], pos: usize, format: Format) -> Result<Peeked, NoByte>
    ensures { peek_meaning result ≡ byte_at format input.now pos }
{
    YsonIterator::new(input, format).moved(pos).peek_byte()
}

// The bytes of the string at a place, into `out`. Only an accepted call writes.
pub fn string_at(input: &[u8], pos: usize, format: Format, out: &mut [u8]) -> Unescaped
    ensures answer { unescaped_meaning result ≡ bytes_answer (string_at format input.now pos) (length out.old) }
    ensures written { out.new ≡ bytes_written (string_at format input.now pos) out.old }
{
    YsonIterator::new(input, format)
        .moved(pos)
        .string_bytes(out)
}

// Walks the tokens from the first byte on, until the bytes end or what stands there is no token, and counts them.
pub fn count_tokens(input: &[u8], format: Format) -> Count
    ensures { count_meaning result ≡ count_of format input.now }
{
    let mut count = 0usize;
    let mut end = 0usize;
    while end < input.len() {
        let refusal = match token_at(input, end, format) {
            Ok(Placed { next, .. }) => {
                count += 1;
                end = next;
                continue;
            }
            Err(Unread::Refused(refusal)) => Some(refusal),
            Err(Unread::Incomplete) => None,
            Err(Unread::Beyond) => None,
        };
        return Count {
            count,
            end,
            refusal,
        };
    }
    Count {
        count,
        end,
        refusal: None,
    }
}
