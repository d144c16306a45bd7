// Words after `%`, and unquoted strings, in a text stream. specs/Word.antt says which word is which token, and specs/Plain.antt how far an
// unquoted string runs.
#![tactic(auto)]

ghost use Rattle.std.specs.Prelude.{◌≡◌, ◌≤◌, length};
ghost use Rattle.token.specs.Meaning.{read_meaning};
ghost use Rattle.token.specs.Ends.{end_of};
ghost use Rattle.words.specs.Word.{word_at};
ghost use Rattle.words.specs.Plain.{is_letter, plain_end};
ghost use Rattle.words.specs.Cases.{width, token_of, WordAt};

use refusal::{Unread, Why};
use token::{Placed, Read, Token};

// The words that may stand after `%`.
#[derive(Clone, Copy)]
enum Word {
    True,
    False,
    Nan,
    Inf,
    NegInf,
}

impl Word {
    // How many bytes a word has.
    fn width(self) -> usize
        ensures { result ≡ width self }
    {
        match self {
            Word::True | Word::NegInf => 4,
            Word::False => 5,
            Word::Nan | Word::Inf => 3,
        }
    }

    // The token that a word is.
    fn token(self) -> Token
        ensures { result ≡ token_of self }
    {
        match self {
            Word::True => Token::Boolean(true),
            Word::False => Token::Boolean(false),
            Word::Nan => Token::Double {
                value: f64::NAN,
                bits: 0x7ff8_0000_0000_0000,
            },
            Word::Inf => Token::Double {
                value: f64::INFINITY,
                bits: 0x7ff0_0000_0000_0000,
            },
            Word::NegInf => Token::Double {
                value: f64::NEG_INFINITY,
                bits: 0xfff0_0000_0000_0000,
            },
        }
    }
}

// The word that stands at a place within the slice. A word is told by its first byte.
// Kept: the first byte before the tests, one of which is made then: all five, one after another, took twice the time.
fn word_at(s: &[u8], p: usize) -> Option<Word>
    requires { p ≤ length s.now }
    ensures { WordAt s.now p result }
{
    if s.len() <= p {
        return None;
    }
    let rest = &s[p..];
    match s[p] {
        b't' if rest.starts_with(b"true") => Some(Word::True),
        b'f' if rest.starts_with(b"false") => Some(Word::False),
        b'n' if rest.starts_with(b"nan") => Some(Word::Nan),
        b'i' if rest.starts_with(b"inf") => Some(Word::Inf),
        b'-' if rest.starts_with(b"-inf") => Some(Word::NegInf),
        _ => None,
    }
}

// The word whose `%` is the byte at a place, whatever byte that is: its token, that the bytes end there, or that the word is unknown.
// A word that the bytes cut short is unknown too.
pub fn word_token(input: &[u8], at: usize) -> Read
    ensures { read_meaning result ≡ word_at input.now at }
{
    if input.len() < at {
        return Err(Unread::Beyond);
    }
    if input.len() == at {
        return Err(Unread::Incomplete);
    }
    match word_at(input, at + 1) {
        Some(word) => Ok(Placed {
            token: word.token(),
            first: at,
            next: at + 1 + word.width(),
        }),
        None => Err(Unread::Refused(Why::UnknownWord.at(at))),
    }
}

// The place after the word whose `%` is the byte at a place, where `word_token` gives a token.
pub fn word_end(input: &[u8], at: usize) -> Option<usize>
    ensures { result ≡ end_of (word_at input.now at) }
{
    if input.len() <= at {
        return None;
    }
    match word_at(input, at + 1) {
        Some(word) => Some(at + 1 + word.width()),
        None => None,
    }
}

// Whether a byte is a letter: `a` to `z` or `A` to `Z`.
#[tactic(auto, unfolding(crate::specs::Plain::is_letter))]
pub fn is_letter(b: u8) -> bool
    ensures { result ≡ is_letter b }
{
    b.is_ascii_alphabetic()
}

// The first place from `at` on whose byte no unquoted string runs over; `at` itself where it lies beyond the slice.
pub fn plain_end(input: &[u8], at: usize) -> usize
    ensures { result ≡ plain_end input.now at }
{
    search::find_edge(input, at)
}
