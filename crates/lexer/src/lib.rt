// Tokens in either format: one reader over both, for callers that are told the format.
// The definitions are those of crates binary and text, joined by the format (specs/Lexer.antt).
#![tactic(auto)]

ghost use Rattle.std.specs.Prelude.{◌≡◌, length};
ghost use Rattle.token.specs.Meaning.{read_meaning, kinds_of};
ghost use Rattle.token.specs.Ends.{string_end, scalar_end};
ghost use Rattle.token.specs.Strings.{unescaped_meaning, bytes_answer, bytes_written};
ghost use Rattle.binary.specs.Binary.{binary_from};
ghost use Rattle.lexer.specs.Lexer.{token_at, kind_at, skip_of, string_at};

use refusal::Format;
use token::{Read, Unescaped};

// The token at a place. A refusal says why there is none.
pub fn next_token(input: &[u8], at: usize, format: Format) -> Read
    ensures { read_meaning result ≡ token_at format input.now at }
{
    // Kept: a match here and in the four below, since the C call gives the format as a value; over a type the callers would match instead.
    match format {
        Format::Binary => binary::binary_token(input, at),
        Format::Text => text::text_token(input, at),
    }
}

// The bytes of the string at a place, into `out`. Order: 26, the token's own answer, 14, 27; only an accepted call writes.
pub fn string_bytes(input: &[u8], at: usize, format: Format, out: &mut [u8]) -> Unescaped
    ensures answer { unescaped_meaning result ≡ bytes_answer (string_at format input.now at) (length out.old) }
    ensures written { out.new ≡ bytes_written (string_at format input.now at) out.old }
{
    match format {
        Format::Binary => binary::binary_string_bytes(input, at, out),
        Format::Text => text::text_string_bytes(input, at, out),
    }
}

// The first place from a place on that is not ignored.
// Put into each caller by the hint: in binary there is nothing to do.
#[inline(always)]
pub fn skip(input: &[u8], at: usize, format: Format) -> usize
    ensures { result ≡ skip_of format input.now at }
{
    match format {
        Format::Binary => at,
        Format::Text => blanks::first_place(input, at),
    }
}

// The place after the string at a place, where a whole one stands.
pub fn string_end(input: &[u8], at: usize, format: Format) -> Option<usize>
    ensures { result ≡ string_end (kind_at format input.now at) }
{
    match format {
        Format::Binary => binary_ends::string_end(input, at),
        Format::Text => text::string_end(input, at),
    }
}

// The place after the string or other scalar at a place in binary, where a whole one stands.
// A function of its own, by the hint, for callers that go by the format: the code of the end, which `binary_ends` puts into each caller,
// is there once then.
#[inline(never)]
fn binary_end(input: &[u8], at: usize) -> Option<usize>
    ensures { result ≡ scalar_end (kinds_of (binary_from input.now at)) }
{
    binary_ends::scalar_end(input, at)
}

// The place after the string or other scalar at a place, where a whole one stands.
#[inline(always)]
pub fn scalar_end(input: &[u8], at: usize, format: Format) -> Option<usize>
    ensures { result ≡ scalar_end (kind_at format input.now at) }
{
    match format {
        Format::Binary => binary_end(input, at),
        Format::Text => text::scalar_end(input, at),
    }
}
