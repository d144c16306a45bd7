// Answers cases from standard input, one line each, so that any other implementation can be held beside the library.
// A case is its kind (1 byte), the length of its payload (4 bytes, little endian) and the payload. Numbers are printed in decimal,
// bytes in hex, `-` for none; docs/ANSWERS.md has the whole protocol.
#![tactic(auto)]

mod frames;
mod kind;
mod line;
mod read;
mod shown;
mod tokens;
mod varints;

use kind::Kind;
use line::Line;
use read::Unanswered;
use refusal::Format;
use shown::Shown;
use std::io::Stdin;

// Where cases come from, room for a payload and for the bytes that a call is lent, and the line that answers.
#[derive(Drop)]
struct Desk<'a> {
    stdin: Stdin,
    payload: [u8; 65544],
    area: [u8; 65537],
    line: Line<'a>,
}

// What the scan answers.
fn scan(line: &mut Line, payload: &[u8], format: Format) -> Result<(), Unanswered> {
    let bytes = read::within(payload)?;
    match scan::scan_value(bytes, format) {
        Ok(len) => line.put(format_args!("length {len}")),
        Err(why) => line.put(Shown(why)),
    }
    Ok(())
}

impl Desk<'_> {
    // The case of which kind and length were read.
    fn answer(&mut self, kind: u8, size: usize) -> Result<(), Unanswered> {
        let Desk {
            stdin,
            payload,
            area,
            line,
        } = self;
        let kind = match Kind::try_from(kind) {
            Ok(Kind::Frame) => return frames::answer(*stdin, size as u64, payload, area, line),
            kind => kind,
        };
        let Some(payload) = payload.get_mut(..size) else {
            read::skip(*stdin, size as u64, payload)?;
            return Err(kind?.longer());
        };
        read::fill(*stdin, payload)?;
        match kind? {
            Kind::Scan(format) => scan(line, payload, format),
            Kind::ReadUnsigned => tokens::at_place(line, payload, varint::read_uvarint),
            Kind::ReadSigned => tokens::at_place(line, payload, varint::read_varint),
            Kind::WriteUnsigned => varints::write_unsigned(line, payload),
            Kind::WriteSigned => varints::write_signed(line, payload),
            Kind::Token(format) => tokens::at_place(line, payload, |bytes, place| {
                lookup::token_at(bytes, place, format)
            }),
            Kind::String(format) => tokens::string(line, payload, format, area),
            Kind::Frame => unreachable!(),
        }
    }

    // Answers the next case. False where there is none, or the input ended inside it.
    fn turn(&mut self) -> bool {
        self.line.begin();
        let answered = match read::head(self.stdin) {
            Ok(None) => return false,
            Ok(Some((kind, size))) => self.answer(kind, size),
            Err(why) => Err(why),
        };
        match answered {
            Ok(()) => self.line.put("\n"),
            Err(why) => self.line.instead(why),
        }
        !matches!(answered, Err(Unanswered::CutShort))
    }
}

fn main(rt: HostRuntime) {
    let mut out = [0u8; 65536];
    let mut desk = Desk {
        stdin: rt.stdin(),
        payload: [0; 65544],
        area: [0; 65537],
        line: Line::new(rt.stdout(), &mut out),
    };
    for _ in 0..u64::MAX {
        if !desk.turn() {
            break;
        }
    }
    desk.line.flush();
}
