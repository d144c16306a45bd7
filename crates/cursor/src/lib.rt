// A cursor for callers that walk the tokens of a record: its bytes, a place in them and their format.
// A method that reads takes the cursor apart and calls a function on the bytes and the place; what a token is, is crate lexer's to say.
// specs/Cursor.antt says what a peek answers. Crate lookup has the calls with plain parameters.
#![tactic(auto)]

ghost use Rattle.std.specs.Prelude.{◌≡◌, length};
ghost use Rattle.token.specs.Meaning.{read_meaning};
ghost use Rattle.token.specs.Strings.{unescaped_meaning, bytes_answer, bytes_written};
ghost use Rattle.lexer.specs.Lexer.{token_at, string_at};
ghost use Rattle.cursor.specs.Cursor.{peek_meaning, byte_at};

use refusal::Format;
use token::{Read, Unescaped};

#[derive(Clone, Copy)]
pub struct YsonIterator<'a> {
    pub input: &'a [u8],
    pub pos: usize,
    pub format: Format,
}

// The byte behind blanks and comments, and its place.
#[derive(Clone, Copy, Debug, PartialEq, Eq)]
pub struct Peeked {
    pub byte: u8,
    pub place: usize,
}

// Why there is no next byte.
#[derive(Clone, Copy, Debug, PartialEq, Eq)]
pub enum NoByte {
    // The bytes ended before one.
    Incomplete,
    // 26: the place lies beyond the slice.
    Beyond,
}

impl<'a> YsonIterator<'a> {
    // The cursor at the first byte.
    pub fn new(input: &'a [u8], format: Format) -> YsonIterator<'a>
        ensures { (result.input ≡ input.entry) × (result.pos ≡ 0) × (result.format ≡ format) }
    {
        YsonIterator {
            input,
            pos: 0,
            format,
        }
    }

    // The place that the cursor stands at.
    pub fn pos(self) -> usize
        ensures { result ≡ self.entry.pos }
    {
        self.pos
    }

    // The same cursor at another place. One beyond the bytes is refused where the cursor is used.
    pub fn moved(self, pos: usize) -> YsonIterator<'a>
        ensures { (result.input ≡ self.entry.input) × (result.pos ≡ pos) × (result.format ≡ self.entry.format) }
    {
        YsonIterator { pos, ..self }
    }

    // The token at the place of the cursor, and the place after it, which `moved` takes.
    pub fn next_token(self) -> Read
        ensures { read_meaning result ≡ token_at self.entry.format self.entry.input.now self.entry.pos }
    {
        lexer::next_token(self.input, self.pos, self.format)
    }

    // The next byte that is not ignored.
    pub fn peek_byte(self) -> Result<Peeked, NoByte>
        ensures { peek_meaning result ≡ byte_at self.entry.format self.entry.input.now self.entry.pos }
    {
        let YsonIterator { input, pos, format } = self;
        if input.len() < pos {
            return Err(NoByte::Beyond);
        }
        let place = lexer::skip(input, pos, format);
        if place < input.len() {
            return Ok(Peeked {
                byte: input[place],
                place,
            });
        }
        Err(NoByte::Incomplete)
    }

    // The bytes of the string at the place of the cursor, into `out`. Only an accepted call writes.
    pub fn string_bytes(self, out: &mut [u8]) -> Unescaped
        ensures answer { unescaped_meaning result ≡ bytes_answer (string_at self.entry.format self.entry.input.now self.entry.pos) (length out.old) }
        ensures written { out.new ≡ bytes_written (string_at self.entry.format self.entry.input.now self.entry.pos) out.old }
    {
        lexer::string_bytes(self.input, self.pos, self.format, out)
    }
}
