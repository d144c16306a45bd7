// Binary tokens: what stands at this place?
// The definition is `binary_from` (specs/Binary.antt), the table of markers of document 01.
#![tactic(auto)]

ghost use Rattle.std.specs.Prelude.{◌≡◌, ◌+◌, ◌≤◌, ◌<◌, length};
ghost use Rattle.std.specs.Float.Ieee as Ieee;
ghost use Rattle.std.specs.Float.{binary64};
ghost use Rattle.varint.specs.Varint.{uvarint_at};
ghost use Rattle.zigzag.specs.Zigzag.{signed};
ghost use Rattle.varint.specs.Signed.{varint_at};
ghost use Rattle.varint.specs.Meaning.{uvarint_meaning};
ghost use Rattle.token.specs.Meaning.{read_meaning};
ghost use Rattle.token.specs.Strings.{unescaped_meaning, bytes_answer, bytes_written};
ghost use Rattle.binary.specs.Binary.{behind, of_size, of_length, of_varint, double_at, binary_at};
ghost use Rattle.binary.specs.Strings.{binary_string_at};

use refusal::{Unread, Why};
use token::{Placed, Read, Token, Unescaped};
use varint::Varint;

// The float of a pattern of 64 bits. A NaN's pattern gives a NaN.
fn float_of(bits: u64) -> f64
    ensures { result ≡ Ieee.of_bits binary64 bits }
{
    if 0x7ff0_0000_0000_0000 < bits % 0x8000_0000_0000_0000 {
        return f64::NAN;
    }
    f64::from_bits(bits)
}

// A double, whose marker stands at `at`.
// Kept: `at` and the slice, in each of the functions whose marker was looked at; a type of both would be taken apart in each.
fn double_token(input: &[u8], at: usize) -> Read
    requires { at < length input.now }
    ensures { read_meaning result ≡ double_at input.now at }
{
    let p = at + 1;
    if input.len() - p < 8 {
        return Err(Unread::Incomplete);
    }
    let bits = word::word_at(input, p);
    Ok(Placed {
        token: Token::Double {
            value: float_of(bits),
            bits,
        },
        first: at,
        next: at + 9,
    })
}

// The varint behind the marker at `at`. A refusal carries the marker's place.
fn varint_behind(input: &[u8], at: usize) -> Result<Varint<u64>, Unread>
    requires { at < length input.now }
    ensures { uvarint_meaning result ≡ behind at (uvarint_at input.now (at + 1)) }
{
    varint::read_uvarint(input, at + 1).map_err(|unread| unread.moved(at))
}

// An int64, whose marker stands at `at`.
fn int64_token(input: &[u8], at: usize) -> Read
    requires { at < length input.now }
    ensures { read_meaning result ≡ of_varint at Token.Int64 (varint_at input.now (at + 1)) }
{
    let Varint { value, next } = varint_behind(input, at)?;
    Ok(Placed {
        token: Token::Int64(zigzag::unzigzag(value)),
        first: at,
        next,
    })
}

// An uint64, whose marker stands at `at`.
fn uint64_token(input: &[u8], at: usize) -> Read
    requires { at < length input.now }
    ensures { read_meaning result ≡ of_varint at Token.Uint64 (uvarint_at input.now (at + 1)) }
{
    let Varint { value, next } = varint_behind(input, at)?;
    Ok(Placed {
        token: Token::Uint64(value),
        first: at,
        next,
    })
}

// A string, whose marker stands at `at`: its length is a zigzag varint, and its bytes follow. An odd zigzag number is below zero, half of
// an even one is the length, and the length is compared with the bytes left.
fn string_token(input: &[u8], at: usize) -> Read
    requires { at < length input.now }
    ensures { read_meaning result ≡ of_length input.now at (varint_at input.now (at + 1)) }
{
    let Varint { value, next } = varint_behind(input, at)?;
    if value % 2 == 1 {
        return Err(Unread::Refused(Why::NegativeLength.at(at)));
    }
    let len = (value / 2) as usize;
    if input.len() - next < len {
        return Err(Unread::Incomplete);
    }
    Ok(Placed {
        token: Token::String { start: next, len },
        first: at,
        next: next + len,
    })
}

// The token at a place.
pub fn binary_token(input: &[u8], at: usize) -> Read
    ensures { read_meaning result ≡ binary_at input.now at }
{
    if input.len() < at {
        return Err(Unread::Beyond);
    }
    if input.len() == at {
        return Err(Unread::Incomplete);
    }
    match input[at] {
        0x01 => string_token(input, at),
        0x02 => int64_token(input, at),
        0x03 => double_token(input, at),
        0x04 => Ok(Placed {
            token: Token::Boolean(false),
            first: at,
            next: at + 1,
        }),
        0x05 => Ok(Placed {
            token: Token::Boolean(true),
            first: at,
            next: at + 1,
        }),
        0x06 => uint64_token(input, at),
        _ => token::mark_at(input, at),
    }
}

// The bytes of the string at a place, into `out`. Order: 26, the token's own answer, 14, 27; only an accepted call writes.
pub fn binary_string_bytes(input: &[u8], at: usize, out: &mut [u8]) -> Unescaped
    ensures answer { unescaped_meaning result ≡ bytes_answer (binary_string_at input.now at) (length out.old) }
    ensures written { out.new ≡ bytes_written (binary_string_at input.now at) out.old }
{
    strings::found_bytes(input, binary_token(input, at), out)
}
