// Number text in a text stream: which token stands at a place, and where it ends. specs/Number.antt decides; specs/Grammar.antt has
// the grammar of each kind. `number_token` reads the text of a number and then judges it as a whole. `number_end` goes over it once and
// makes no value; where that does not settle it, it asks `number_token`.
#![tactic(auto)]

mod grammar;

ghost use Rattle.std.specs.Prelude.{◌≡◌, ◌-◌, ◌^◌, IsTrue, IfSome, Some};
ghost use Rattle.token.specs.Meaning.{read_meaning};
ghost use Rattle.token.specs.Ends.{end_of};
ghost use Rattle.number.specs.Number.{uint64_text, double_text, int64_text, number_at};
ghost use Rattle.number.specs.Places.{Whole, up_to, uint64_in, int64_in};

use grammar::{
    digits_end, double_end, double_ok, has_minus, has_point, is_pointed, is_sign, is_text,
    sign_end, text_end,
};
use refusal::{Unread, Why};
use token::{Placed, Read, Token};

// The number that digits write, where there is one and it fits.
fn read_decimal(digits: &[u8]) -> Option<u64>
    ensures { result ≡ up_to (2 ^ 64 - 1) digits.now }
{
    if digits.is_empty() {
        return None;
    }
    let mut value: u64 = 0;
    for &b in digits {
        if !b.is_ascii_digit() {
            return None;
        }
        value = value.checked_mul(10)?.checked_add(u64::from(b - b'0'))?;
    }
    Some(value)
}

// The number that text is, as a uint64.
fn read_unsigned(t: &[u8]) -> Option<u64>
    ensures { result ≡ uint64_in t.now }
{
    if has_minus(t) {
        return None;
    }
    read_decimal(&t[sign_end(t, 0)..])
}

// The number that text is, as an int64.
fn read_signed(t: &[u8]) -> Option<i64>
    ensures { result ≡ int64_in t.now }
{
    let magnitude = read_decimal(&t[sign_end(t, 0)..])?;
    if has_minus(t) {
        return 0_i64.checked_sub_unsigned(magnitude);
    }
    i64::try_from(magnitude).ok()
}

// The token of text that has `u` behind it.
// Kept: beside `int_token`, since one function of both would take the reading, the kind of token and the reason: longer than the two.
fn uint_token(t: &[u8], at: usize, next: usize) -> Read
    ensures { read_meaning result ≡ uint64_text at next t.now }
{
    let Some(value) = read_unsigned(t) else {
        return Err(Unread::Refused(Why::BadUint64.at(at)));
    };
    Ok(Placed {
        token: Token::Uint64(value),
        first: at,
        next,
    })
}

// The token of text with a point or an exponent in it.
fn double_token(t: &[u8], at: usize, next: usize) -> Read
    ensures { read_meaning result ≡ double_text at next t.now }
{
    if !double_ok(t) {
        return Err(Unread::Refused(Why::BadDouble.at(at)));
    }
    Ok(Placed {
        token: Token::Decimal {
            start: at,
            len: t.len(),
        },
        first: at,
        next,
    })
}

// The token of any other text.
fn int_token(t: &[u8], at: usize, next: usize) -> Read
    ensures { read_meaning result ≡ int64_text at next t.now }
{
    let Some(value) = read_signed(t) else {
        return Err(Unread::Refused(Why::BadInt64.at(at)));
    };
    Ok(Placed {
        token: Token::Int64(value),
        first: at,
        next,
    })
}

// The number token at a place, whatever byte stands there: the token, that the bytes end there, or why the text is no number.
pub fn number_token(input: &[u8], at: usize) -> Read
    ensures { read_meaning result ≡ number_at input.now at }
{
    if input.len() < at {
        return Err(Unread::Beyond);
    }
    if input.len() == at {
        return Err(Unread::Incomplete);
    }
    let end = text_end(input, at);
    let t = &input[at..end];
    match input.get(end) {
        Some(b'u') => uint_token(t, at, end + 1),
        _ if has_point(t) => double_token(t, at, end),
        _ => int_token(t, at, end),
    }
}

// Whether a double that ends at `q` is whole: neither number text nor `u` goes on there.
fn stops(s: &[u8], q: usize) -> bool
    ensures { IsTrue result → Whole s.now q }
{
    match s.get(q) {
        Some(&b) => b != b'u' && !is_text(b),
        None => true,
    }
}

// The place after the number token at a place, where one walk settles it: few digits, or a double, with no number text behind.
fn fast_end(input: &[u8], at: usize) -> Option<usize>
    ensures { IfSome result (λ q. Some q ≡ end_of (number_at input.now at)) }
{
    let a = sign_end(input, at);
    let b = digits_end(input, a);
    match input.get(b) {
        Some(b'u') => ((1..=19).contains(&(b - a)) && input[at] != b'-').then_some(b + 1),
        Some(&k) if is_pointed(k) => double_end(input, a, b).filter(|q| stops(input, *q)),
        Some(&k) if is_sign(k) => None,
        _ => (1..=18).contains(&(b - a)).then_some(b),
    }
}

// The end that the full reader finds.
fn read_end(input: &[u8], at: usize) -> Option<usize>
    ensures { result ≡ end_of (number_at input.now at) }
{
    number_token(input, at).ok().map(|placed| placed.next)
}

// The place after the number token at a place, where `number_token` gives one.
pub fn number_end(input: &[u8], at: usize) -> Option<usize>
    ensures { result ≡ end_of (number_at input.now at) }
{
    fast_end(input, at).or_else(|| read_end(input, at))
}
