// The worked examples that are run and not proved: those of document 01, the vectors of the Protocol Buffers encoding document, the
// literals of the public YSON page, and texts of the documentation of `f64::from_str` that can stand in a number token. Each line of
// its file stdout was written from those documents. Each word is a write of its own, tried whatever became of the words before it.
// What cannot be written is told nowhere.
#![tactic(auto)]

mod shown;
mod streams;
mod tokens;

use refusal::Format;
use shown::{Hex, Padded, Shown, Signed, Words};
use std::fmt::Write as _;
use token::{Copied, Placed};
use varint::{ShortOutput, Varint};

// A number, and the bytes that were written for it at the front of an area.
fn written(w: &mut Words, number: u64, written: Result<usize, ShortOutput>, area: &[u8]) {
    let _ = match written {
        Ok(count) => writeln!(w, "{number} is{}", Hex(&area[..count.min(area.len())])),
        Err(why) => writeln!(w, "{number} {}", Shown(why)),
    };
}

// A number's bytes.
fn unsigned(w: &mut Words, value: u64) {
    let mut area = [0u8; 10];
    let count = varint::write_uvarint(value, &mut area);
    written(w, value, count, &area)
}

// A signed number and the unsigned one that stands for it.
fn zigzag(w: &mut Words, value: i64) {
    let _ = write!(w, "signed {} is zigzag ", Signed(value));
    let mut area = [0u8; 10];
    let count = varint::write_varint(value, &mut area);
    match varint::read_uvarint(&area, 0) {
        Ok(Varint { value, .. }) => written(w, value, count, &area),
        Err(why) => {
            let _ = write!(w, "{}", Shown(why));
        }
    }
}

// What a signed varint reads as.
fn signed(w: &mut Words, bytes: &[u8]) {
    let _ = match varint::read_varint(bytes, 0) {
        Ok(Varint { value, next }) => writeln!(w, "{} in {next}", Signed(value)),
        Err(why) => write!(w, "{}", Shown(why)),
    };
}

// What the scan answers.
fn scanned(w: &mut Words, bytes: &[u8], format: Format) {
    let _ = match scan::scan_value(bytes, format) {
        Ok(len) => writeln!(w, "length {len}"),
        Err(why) => write!(w, "{}", Shown(why)),
    };
}

// The bytes of a string.
fn string(w: &mut Words, text: &str) {
    let _ = write!(w, "{text} :");
    let mut area = [0u8; 16];
    let _ = match lexer::string_bytes(text.as_bytes(), 0, Format::Text, &mut area) {
        Ok(Copied { count, .. }) => writeln!(w, "{}", Hex(&area[..count.min(area.len())])),
        Err(why) => write!(w, "{}", Shown(why)),
    };
}

// Which kind of number some text is.
fn number(w: &mut Words, text: &str) {
    let _ = write!(w, "{text} : ");
    let _ = match lexer::next_token(text.as_bytes(), 0, Format::Text) {
        Ok(Placed { token, next, .. }) => writeln!(w, "{} of {next}", Shown(token)),
        Err(why) => write!(w, "{}", Shown(why)),
    };
}

// The Protocol Buffers encoding document.
fn varints(w: &mut Words) {
    let _ = writeln!(w, "varints");
    for value in [1, 150, 300] {
        unsigned(w, value);
    }
    for value in [0, -1, 1, -2, 2147483647, -2147483648] {
        zigzag(w, value);
    }
    signed(w, b"\xff\xff\xff\xff\xff\xff\xff\xff\xff\x01");
    signed(w, b"\x96\x01")
}

// Document 01 and the documentation of f64::from_str.
fn numbers(w: &mut Words) {
    let _ = writeln!(w, "numbers");
    for text in [
        "12",
        "-0u",
        "+5u",
        "5.",
        "-.5",
        "3.14",
        "-3.14",
        "2.5E10",
        "2.5e10",
        "2.5E-10",
        "1e",
        "-",
        // The ends of int64 and of uint64.
        "9223372036854775808",
        "-9223372036854775808",
        "18446744073709551615u",
        "18446744073709551616u",
        "%tr",
        "%nan",
        "%inf",
        "%-inf",
        "%true",
        "%false",
    ] {
        number(w, text);
    }
}

fn strings(w: &mut Words) {
    let _ = writeln!(w, "strings");
    for text in [
        "\"\\400\"",
        "\"\\x+4\"",
        "\"\\x\"",
        "\"\\xzz\"",
        "\"\\u0041\"",
        "\"\\0000\"",
        "\"a\\n\\\"b\\\\\"",
        "name-1.x",
        "12",
        "\"0123456789abcdefg\"",
    ] {
        string(w, text);
    }
}

// Places and orders of refusals.
fn scans(w: &mut Words) {
    let _ = writeln!(w, "scans");
    for text in [
        "12",
        "%tr",
        "<a=1>{b=2}",
        "{a=1b=2}",
        "[;1;;2 3]",
        "[1-2]",
        "{a=1e=2}",
        "5uu",
        "[<>]",
        ";1",
        "<;>#",
        "// c",
        "/",
        "{a=\"x\\y\";b=[%true;#]}",
    ] {
        let _ = write!(w, "{text} : ");
        scanned(w, text.as_bytes(), Format::Text);
    }
    for bytes in [
        b"\x01\x04ab".as_slice(),
        b"[ ]",
        b"{\x02\x80",
        b"{\x02\x80\x80\x80\x80\x80\x80\x80\x80\x80\x02",
        b"{\x02\x00",
        b"{\x01\x02a=\x02\x02}",
        b"\x03\x00\x00\x00\x00\x00\x00\xf0\x7f",
    ] {
        for byte in bytes {
            let _ = write!(w, "{} ", Padded(u64::from(*byte), 2));
        }
        let _ = write!(w, ": ");
        scanned(w, bytes, Format::Binary);
    }
}

// What the C call answers for a format number and some bytes: a length, Incomplete, a refusal, and a format that there is not.
fn calls(w: &mut Words) {
    let _ = writeln!(w, "C call");
    for (format, bytes) in [
        (0, b"#".as_slice()),
        (1, b"[1 2]"),
        (0, b"\x01\x81"),
        (0, b"\x01\x01"),
        (2, b"#"),
    ] {
        let answer = abi::yson_scan(format, bytes);
        let _ = writeln!(w, "{format},{} : {}", Hex(bytes), Signed(answer));
    }
}

fn examples(w: &mut Words) {
    varints(w);
    numbers(w);
    strings(w);
    scans(w);
    tokens::all(w);
    streams::all(w);
    calls(w)
}

fn main(rt: HostRuntime) {
    examples(&mut Words(rt.stdout()));
}
