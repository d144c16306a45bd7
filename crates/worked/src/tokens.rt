// The tokens of a record, walked by the cursor, how many there are, and what stands at a place.
ghost use Rattle.std.specs.Prelude.{◌≡◌};

use crate::shown::{Hex, Padded, Shown, Words};
use cursor::{Peeked, YsonIterator};
use lookup::Count;
use refusal::Format;
use std::fmt::Write as _;
use token::Placed;

// The tokens of some bytes, a line for each, as the cursor reads them, and how many they are.
fn walk(w: &mut Words, bytes: &[u8], format: Format) {
    let mut at = 0;
    while let Ok(Placed { token, first, next }) = lookup::token_at(bytes, at, format) {
        let _ = writeln!(w, "{} at {first} end {next}", Shown(token));
        at = next;
    }
    let Count {
        count,
        end,
        refusal,
    } = lookup::count_tokens(bytes, format);
    let _ = match refusal {
        None => writeln!(w, "{count} tokens to {end}"),
        Some(refusal) => writeln!(w, "{count} tokens to {end}, then {}", Shown(refusal)),
    };
}

// Where a cursor stands that was moved to a place.
fn standing(bytes: &[u8], at: usize, format: Format) -> usize
    ensures { result ≡ at }
{
    YsonIterator::new(bytes, format).moved(at).pos()
}

// The first byte of some text from a place on that is not ignored.
fn peek(w: &mut Words, text: &str, at: usize) {
    let bytes = text.as_bytes();
    let _ = write!(w, "{text} from {} : ", standing(bytes, at, Format::Text));
    let _ = match lookup::peek_at(bytes, at, Format::Text) {
        Ok(Peeked { byte, place }) => writeln!(w, "{} at {place}", Padded(u64::from(byte), 2)),
        Err(why) => write!(w, "{}", Shown(why)),
    };
}

// The tokens of document 01's three records and of some text, whole, refused and cut short.
pub fn all(w: &mut Words) {
    let _ = writeln!(w, "tokens");
    for bytes in [
        b"{\x01\x02a=\x02\x02}".as_slice(),
        b"[\x02\x02\x02\x04]",
        b"<>#",
        b"[ ]",
        b"[\x01\x04a",
    ] {
        let _ = writeln!(w, "binary{}", Hex(bytes));
        walk(w, bytes, Format::Binary);
    }
    for text in [
        "<a=1>{b=\"x\\n\";c=[%true;#;-5;5u;5.]} // d",
        "[1 2 \"",
        "a/b",
    ] {
        let _ = writeln!(w, "{text}");
        walk(w, text.as_bytes(), Format::Text);
    }
    for at in [0, 10, 11] {
        peek(w, " /* a */ [", at);
    }
}
