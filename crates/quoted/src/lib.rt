// Which quoted string has its opening quote at a place, and where does it end?
// specs/Quoted.antt decides, over the pieces of crate pieces. `quoted_end` walks a string once, and by crate search over the bytes between
// escapes; specs/Inside.antt says what the private functions answer.
#![tactic(auto)]

ghost use Rattle.std.specs.Prelude.{◌≡◌, drop};
ghost use Rattle.token.specs.Meaning.{read_meaning};
ghost use Rattle.token.specs.Ends.{end_of};
ghost use Rattle.quoted.specs.Quoted.{closing, quoted_at};
ghost use Rattle.quoted.specs.Inside.{closing_by, Opens, whole_from};

use pieces::Broken;
use refusal::{Unread, Why};
use token::{Placed, Read, Token};

// The place of the closing quote, from `from` on. A backslash hides one byte.
#[tactic(auto, using(crate::proofs::Places::closes))]
fn find_close(input: &[u8], from: usize) -> Option<usize>
    ensures { closing_by result ≡ closing from (drop from input.now) }
{
    let mut p = from;
    while let Some(&b) = input.get(p) {
        match b {
            b'"' => return Some(p),
            b'\\' => p += 2,
            _ => p += 1,
        }
    }
    None
}

// The quoted string whose opening quote stands at `at`, where the first backslash, and no quote before it, stands at `p`.
fn escaped_token(input: &[u8], at: usize, p: usize) -> Read
    requires { Opens input.now at p }
    ensures { read_meaning result ≡ quoted_at input.now at }
{
    let start = at + 1;
    let Some(q) = find_close(input, p) else {
        return Err(Unread::Incomplete);
    };
    match pieces::measure(input, p) {
        Ok(_) => Ok(Placed {
            token: Token::Escaped {
                start,
                len: q - start,
            },
            first: at,
            next: q + 1,
        }),
        Err(Broken::Cut) => Err(Unread::Incomplete),
        Err(Broken::Bad) => Err(Unread::Refused(Why::BadHexEscape.at(at))),
    }
}

// The quoted string whose opening quote stands at `at`. Its escapes are judged once the closing quote is found.
#[tactic(auto, using(crate::proofs::Answers::ways, crate::proofs::Plain::plain_first))]
pub fn quoted_token(input: &[u8], at: usize) -> Read
    ensures { read_meaning result ≡ quoted_at input.now at }
{
    if input.len() < at {
        return Err(Unread::Beyond);
    }
    if input.len() == at {
        return Err(Unread::Incomplete);
    }
    let start = at + 1;
    let p = search::find_quote(input, start);
    match input.get(p) {
        None => Err(Unread::Incomplete),
        Some(b'"') => Ok(Placed {
            token: Token::String {
                start,
                len: p - start,
            },
            first: at,
            next: p + 1,
        }),
        Some(_) => escaped_token(input, at, p),
    }
}

// The place after the closing quote of the pieces from `from` on, where they are whole. They are walked once.
#[tactic(auto, using(crate::proofs::Whole::walked))]
fn whole_end(input: &[u8], from: usize) -> Option<usize>
    ensures { result ≡ whole_from input.now from }
{
    let mut p = search::find_quote(input, from);
    while let Some(&b) = input.get(p) {
        if b == b'"' {
            return Some(p + 1);
        }
        let Ok(escape) = pieces::escape(&input[p + 1..]) else {
            return None;
        };
        p = search::find_quote(input, p + escape.size);
    }
    None
}

// The place after the quoted string whose opening quote stands at `at`, where `quoted_token` gives a token.
#[tactic(auto, using(crate::proofs::Answers::no_end, crate::proofs::Whole::whole_end))]
pub fn quoted_end(input: &[u8], at: usize) -> Option<usize>
    ensures { result ≡ end_of (quoted_at input.now at) }
{
    if input.len() <= at {
        return None;
    }
    whole_end(input, at + 1)
}
