// Text tokens: what stands at this place, behind blanks and comments, and where does it end?
// The definition is `text_from` (specs/Text.antt): the first byte says which of the readers below is asked.
#![tactic(auto)]

ghost use Rattle.std.specs.Prelude.{◌≡◌, true, ◌+◌, ◌≤◌, ◌<◌, length, get_or, Some};
ghost use Rattle.token.specs.Meaning.{read_meaning, kinds_of};
ghost use Rattle.token.specs.Ends.{end_of, string_end, scalar_end};
ghost use Rattle.token.specs.Strings.{unescaped_meaning, bytes_answer, bytes_written};
ghost use Rattle.number.specs.Number.{number_at};
ghost use Rattle.text.specs.Text.{starts_number, starts_plain, plain_at, started, started_at, text_from, text_at};
ghost use Rattle.text.specs.Strings.{string_started_at, text_string_at};

use refusal::Unread;
use token::{NoBytes, Placed, Read, Token, Unescaped};

// Whether a number starts with this byte.
#[tactic(auto, unfolding(token::specs::Digits::is_digit, number::specs::Bytes::is_sign))]
fn starts_number(b: u8) -> bool
    ensures { result ≡ starts_number b }
{
    matches!(b, b'0'..=b'9' | b'+' | b'-')
}

// Whether an unquoted string starts with this byte.
fn starts_plain(b: u8) -> bool
    ensures { result ≡ starts_plain b }
{
    words::is_letter(b) || b == b'_'
}

// An unquoted string.
fn plain_token(input: &[u8], p: usize) -> Read
    ensures { read_meaning result ≡ plain_at input.now p }
{
    let end = words::plain_end(input, p);
    Ok(Placed {
        token: Token::String {
            start: p,
            len: end - p,
        },
        first: p,
        next: end,
    })
}

// The token whose first byte stands at `p`.
fn first_token(input: &[u8], p: usize) -> Read
    requires { p < length input.now }
    ensures { read_meaning result ≡ started input.now p (get_or input.now p 0) }
{
    let b = input[p];
    if b == b'"' {
        return quoted::quoted_token(input, p);
    }
    if b == b'%' {
        return words::word_token(input, p);
    }
    if starts_number(b) {
        return number::number_token(input, p);
    }
    if starts_plain(b) {
        return plain_token(input, p);
    }
    token::mark_at(input, p)
}

// The token at a place.
pub fn text_token(input: &[u8], at: usize) -> Read
    ensures { read_meaning result ≡ text_at input.now at }
{
    if input.len() < at {
        return Err(Unread::Beyond);
    }
    let p = blanks::skip_ignored(input, at);
    if input.len() <= p {
        return Err(Unread::Incomplete);
    }
    first_token(input, p)
}

// The place after the string whose first byte stands at `p`, where a whole one does.
fn first_string_end(input: &[u8], p: usize) -> Option<usize>
    ensures { result ≡ string_end (kinds_of (started_at input.now p)) }
{
    if input.len() <= p {
        return None;
    }
    let b = input[p];
    if b == b'"' {
        return quoted::quoted_end(input, p);
    }
    if starts_plain(b) {
        return Some(words::plain_end(input, p));
    }
    None
}

// Whether one digit and then a `;` stand at `p`: a whole number, and the commonest of lists of flags and counts.
fn one_digit(input: &[u8], p: usize) -> bool
    ensures { result ≡ true → (p < length input.now) × (48 ≤ get_or input.now p 0) × (get_or input.now p 0 ≤ 57) × (Some (p + 1) ≡ end_of (number_at input.now p)) }
{
    if input.len() <= p || input.len() - p < 2 {
        return false;
    }
    if input[p + 1] != b';' {
        return false;
    }
    let b = input[p];
    if b < b'0' || b'9' < b {
        return false;
    }
    true
}

// The place after the number whose first byte stands at `p`, where a whole one does.
fn first_number_end(input: &[u8], p: usize) -> Option<usize>
    ensures { result ≡ end_of (number_at input.now p) }
{
    if one_digit(input, p) {
        return Some(p + 1);
    }
    number::number_end(input, p)
}

// The same of a string or another scalar, whose value is not asked for.
fn first_scalar_end(input: &[u8], p: usize) -> Option<usize>
    ensures { result ≡ scalar_end (kinds_of (started_at input.now p)) }
{
    if input.len() <= p {
        return None;
    }
    let b = input[p];
    if b == b'"' {
        return quoted::quoted_end(input, p);
    }
    if b == b'%' {
        return words::word_end(input, p);
    }
    if starts_number(b) {
        return first_number_end(input, p);
    }
    if starts_plain(b) {
        return Some(words::plain_end(input, p));
    }
    if b == b'#' {
        return Some(p + 1);
    }
    None
}

// The place after the string token at a place, where a whole one stands.
pub fn string_end(input: &[u8], at: usize) -> Option<usize>
    ensures { result ≡ string_end (kinds_of (text_from input.now at)) }
{
    first_string_end(input, blanks::first_place(input, at))
}

// The place after the string or other scalar at a place, where a whole one stands.
// A function of its own by the hint, as `binary_end` of lexer is.
#[inline(never)]
pub fn scalar_end(input: &[u8], at: usize) -> Option<usize>
    ensures { result ≡ scalar_end (kinds_of (text_from input.now at)) }
{
    if one_digit(input, at) {
        return Some(at + 1);
    }
    first_scalar_end(input, blanks::first_place(input, at))
}

// The bytes of the string whose first byte stands at `p`, into `out`.
fn first_bytes(input: &[u8], p: usize, out: &mut [u8]) -> Unescaped
    ensures answer { unescaped_meaning result ≡ bytes_answer (string_started_at input.now p) (length out.old) }
    ensures written { out.new ≡ bytes_written (string_started_at input.now p) out.old }
{
    if input.len() <= p {
        return Err(NoBytes::Unread(Unread::Incomplete));
    }
    if input[p] == b'"' {
        return unescape::unescape(input, p, out);
    }
    strings::found_bytes(input, first_token(input, p), out)
}

// The bytes of the string at a place, its escapes undone, into `out`. Order: 26, the token's own answer, 14, 27; only an accepted
// call writes.
pub fn text_string_bytes(input: &[u8], at: usize, out: &mut [u8]) -> Unescaped
    ensures answer { unescaped_meaning result ≡ bytes_answer (text_string_at input.now at) (length out.old) }
    ensures written { out.new ≡ bytes_written (text_string_at input.now at) out.old }
{
    if input.len() < at {
        return Err(NoBytes::Unread(Unread::Beyond));
    }
    first_bytes(input, blanks::skip_ignored(input, at), out)
}
