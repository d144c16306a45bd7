// The stream reader's answers, each refusal from 20 to 28 once but 26 and 27, which are no answers of its calls.
use crate::shown::{Hex, Shown, Words};
use reader::{Found, State};
use std::fmt::Write as _;

// What opening over a buffer answers.
fn open(w: &mut Words, buf: &[u8]) {
    let _ = write!(w, "buffer of {}", buf.len());
    let _ = match reader::open(0, buf).answer {
        Ok(()) => writeln!(w, " : open"),
        Err(why) => writeln!(w, " : {}", Shown(why)),
    };
}

// A piece is offered, and next called after it.
fn piece(w: &mut Words, state: &mut State, buf: &mut [u8], bytes: &[u8]) {
    let _ = write!(w, "piece : ");
    let _ = match state.offer(buf, bytes) {
        Ok(count) => writeln!(w, "taken {count}"),
        Err(why) => writeln!(w, "{}", Shown(why)),
    };
    next(w, state, buf)
}

// The next record with its bytes, or why there is none, and how many readings that took.
fn next(w: &mut Words, state: &mut State, buf: &[u8]) {
    let _ = write!(w, "next : ");
    let next = state.next(buf);
    let _ = match next.answer {
        Ok(
            Found::Record {
                place,
                length,
                offset,
                mark,
            },
        ) => {
            let bytes = Hex(reader::record(buf, place, length));
            let mark = Shown(mark);
            write!(
                w,
                "record at {place} length {length} offset {offset}{mark}:{bytes}"
            )
        }
        Ok(Found::End) => write!(w, "end"),
        Ok(Found::More) => write!(w, "more"),
        Err(why) => write!(w, "{}", Shown(why)),
    };
    let _ = writeln!(w, ", readings {}", next.readings);
}

fn close(w: &mut Words, state: &mut State, buf: &[u8]) {
    let _ = match state.close(buf) {
        Ok(()) => writeln!(w, "close : done"),
        Err(why) => writeln!(w, "close : {}", Shown(why)),
    };
}

// Two records in three pieces, and the end.
fn in_pieces(w: &mut Words, buf: &mut [u8]) {
    let _ = writeln!(w, "pieces");
    let mut state = reader::open(100, buf).state;
    piece(w, &mut state, buf, b"; [\x02");
    piece(w, &mut state, buf, b"\x02]<>");
    next(w, &mut state, buf);
    piece(w, &mut state, buf, b"#");
    close(w, &mut state, buf);
    next(w, &mut state, buf);
    next(w, &mut state, buf)
}

// 20, 24 and again 20.
fn malformed(w: &mut Words, buf: &mut [u8]) {
    let _ = writeln!(w, "malformed");
    let mut state = reader::open(0, buf).state;
    piece(w, &mut state, buf, b";[}");
    next(w, &mut state, buf);
    close(w, &mut state, buf);
    piece(w, &mut state, buf, b"#");
    close(w, &mut state, buf)
}

// 21
fn cut_short(w: &mut Words, buf: &mut [u8]) {
    let _ = writeln!(w, "cut short");
    let mut state = reader::open(7, buf).state;
    piece(w, &mut state, buf, b"[#");
    close(w, &mut state, buf);
    next(w, &mut state, buf)
}

// 22: a string of 100 bytes does not end within the buffer.
fn too_long(w: &mut Words, buf: &mut [u8]) {
    let _ = writeln!(w, "too long");
    let mut state = reader::open(0, buf).state;
    piece(
        w,
        &mut state,
        buf,
        b"\x01\xc8\x010123456789012345678901234567890123456789012345678901234567890123456789",
    );
    next(w, &mut state, buf)
}

// 25: one byte more than there are offsets.
fn offset_too_high(w: &mut Words, buf: &mut [u8]) {
    let _ = writeln!(w, "last offset");
    let mut state = reader::open(18446744073709551614, buf).state;
    piece(w, &mut state, buf, b"##");
    piece(w, &mut state, buf, b"#");
    piece(w, &mut state, buf, b"#")
}

// 28: the state of a refused opening, and a buffer of another length.
fn strange(w: &mut Words, buf: &mut [u8], short: &[u8]) {
    let _ = writeln!(w, "strange");
    let mut state = reader::open(0, short).state;
    piece(w, &mut state, buf, b"#");
    close(w, &mut state, buf);
    state = reader::open(0, buf).state;
    next(w, &mut state, short)
}

pub fn all(w: &mut Words) {
    let _ = writeln!(w, "streams");
    // Buffers of the lengths at the limits and beyond them.
    let lengths = [0u8; 65537];
    for n in [63, 64, 65536, 65537] {
        open(w, &lengths[..n]);
    }
    let short = [0u8; 63];
    let mut small = [0u8; 64];
    in_pieces(w, &mut small);
    malformed(w, &mut small);
    cut_short(w, &mut small);
    too_long(w, &mut small);
    offset_too_high(w, &mut small);
    strange(w, &mut small, &short)
}
