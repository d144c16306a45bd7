// What the examples print, as text, and the words that it is written in.
use cursor::NoByte;
use reader::{BufferLength, Mark, NotTaken, Stopped, StrangeState};
use refusal::{Cause, Refusal, Unread, Unwhole};
use std::fmt;
use std::fmt::InlineText;
use std::io::Stdout;
use token::{NoBytes, Token};
use varint::ShortOutput;

// The standard output as a writer of words, which are the pieces of a format and the values in it. Each is tried whatever became of
// the words before it, and what cannot be written is told nowhere.
#[derive(Drop)]
pub struct Words(pub Stdout);

impl fmt::Write for Words {
    fn write_str(&mut self, s: &str) -> fmt::Result {
        let _ = self.0.write_all(s.as_bytes());
        Ok(())
    }
}

// A number in hex with noughts in front up to a width of at most 16, as one word.
#[derive(Clone, Copy)]
pub struct Padded(pub u64, pub usize);

impl fmt::Display for Padded {
    fn fmt<W: fmt::Write>(&self, f: &mut fmt::Formatter<W>) -> fmt::Result {
        let Padded(number, width) = *self;
        let digits = InlineText::<16>::of(format_args!("{number:0width$x}"));
        f.write_str(digits.as_str())
    }
}

// A signed number, whose minus is a word of its own.
#[derive(Clone, Copy)]
pub struct Signed(pub i64);

impl fmt::Display for Signed {
    fn fmt<W: fmt::Write>(&self, f: &mut fmt::Formatter<W>) -> fmt::Result {
        let value = self.0;
        if value < 0 {
            write!(f, "-{}", value.unsigned_abs())
        } else {
            write!(f, "{value}")
        }
    }
}

// Bytes in hex, a blank before each.
#[derive(Clone, Copy)]
pub struct Hex<'a>(pub &'a [u8]);

impl fmt::Display for Hex<'_> {
    fn fmt<W: fmt::Write>(&self, f: &mut fmt::Formatter<W>) -> fmt::Result {
        for byte in self.0 {
            write!(f, " {}", Padded(u64::from(*byte), 2))?;
        }
        Ok(())
    }
}

// A value of the library.
#[derive(Clone, Copy)]
pub struct Shown<T>(pub T);

// `refused`, the number and the place.
impl fmt::Display for Shown<Refusal> {
    fn fmt<W: fmt::Write>(&self, f: &mut fmt::Formatter<W>) -> fmt::Result {
        let refusal = self.0;
        write!(f, "refused {} at {}", refusal.number(), refusal.place())
    }
}

// `refused` and the number.
impl fmt::Display for Shown<Cause> {
    fn fmt<W: fmt::Write>(&self, f: &mut fmt::Formatter<W>) -> fmt::Result {
        write!(f, "refused {}", self.0.number())
    }
}

// Why nothing was read, with the line's end.
impl fmt::Display for Shown<Unread> {
    fn fmt<W: fmt::Write>(&self, f: &mut fmt::Formatter<W>) -> fmt::Result {
        match self.0 {
            Unread::Incomplete => writeln!(f, "incomplete"),
            Unread::Refused(refusal) => writeln!(f, "{}", Shown(refusal)),
            Unread::Beyond => writeln!(f, "{}", Shown(Cause::BeyondSlice)),
        }
    }
}

// Why there is no whole value, with the line's end.
impl fmt::Display for Shown<Unwhole> {
    fn fmt<W: fmt::Write>(&self, f: &mut fmt::Formatter<W>) -> fmt::Result {
        match self.0 {
            Unwhole::Incomplete => writeln!(f, "incomplete"),
            Unwhole::Refused(refusal) => writeln!(f, "{}", Shown(refusal)),
        }
    }
}

// Why there is no next byte, with the line's end.
impl fmt::Display for Shown<NoByte> {
    fn fmt<W: fmt::Write>(&self, f: &mut fmt::Formatter<W>) -> fmt::Result {
        match self.0 {
            NoByte::Incomplete => writeln!(f, "incomplete"),
            NoByte::Beyond => writeln!(f, "{}", Shown(Cause::BeyondSlice)),
        }
    }
}

// Why no string's bytes were written, behind a blank and with the line's end.
impl fmt::Display for Shown<NoBytes> {
    fn fmt<W: fmt::Write>(&self, f: &mut fmt::Formatter<W>) -> fmt::Result {
        match self.0 {
            NoBytes::Unread(Unread::Incomplete) => writeln!(f, " incomplete"),
            NoBytes::Unread(unread) => write!(f, " {}", Shown(unread)),
            NoBytes::NotString => writeln!(f, " {}", Shown(Cause::NotString)),
            NoBytes::Short => writeln!(f, " {}", Shown(Cause::ShortOutput)),
        }
    }
}

impl fmt::Display for Shown<ShortOutput> {
    fn fmt<W: fmt::Write>(&self, f: &mut fmt::Formatter<W>) -> fmt::Result {
        write!(f, "{}", Shown(Cause::ShortOutput))
    }
}

impl fmt::Display for Shown<BufferLength> {
    fn fmt<W: fmt::Write>(&self, f: &mut fmt::Formatter<W>) -> fmt::Result {
        write!(f, "{}", Shown(Cause::BufferLength))
    }
}

impl fmt::Display for Shown<StrangeState> {
    fn fmt<W: fmt::Write>(&self, f: &mut fmt::Formatter<W>) -> fmt::Result {
        write!(f, "{}", Shown(Cause::StrangeState))
    }
}

// Why nothing of a piece is taken.
impl fmt::Display for Shown<NotTaken> {
    fn fmt<W: fmt::Write>(&self, f: &mut fmt::Formatter<W>) -> fmt::Result {
        let cause = match self.0 {
            NotTaken::StrangeState => Cause::StrangeState,
            NotTaken::AfterClosing => Cause::AfterClosing,
            NotTaken::OffsetTooHigh => Cause::OffsetTooHigh,
        };
        write!(f, "{}", Shown(cause))
    }
}

// Why there is no record.
impl fmt::Display for Shown<Stopped> {
    fn fmt<W: fmt::Write>(&self, f: &mut fmt::Formatter<W>) -> fmt::Result {
        match self.0 {
            Stopped::Malformed { offset, refusal } => {
                let refused = Shown(Cause::MalformedRecord);
                let (number, place) = (refusal.number(), refusal.place());
                write!(f, "{refused} offset {offset} {number} at {place}")
            }
            Stopped::TooLong { offset, len } => {
                write!(f, "{} offset {offset} {len}", Shown(Cause::RecordTooLong))
            }
            Stopped::CutShort { offset, held } => {
                write!(f, "{} offset {offset} {held}", Shown(Cause::CutShort))
            }
            Stopped::StrangeState => write!(f, "{}", Shown(Cause::StrangeState)),
        }
    }
}

// Whether a record is a row or a control, behind a blank.
impl fmt::Display for Shown<Mark> {
    fn fmt<W: fmt::Write>(&self, f: &mut fmt::Formatter<W>) -> fmt::Result {
        match self.0 {
            Mark::Row => write!(f, " row"),
            Mark::Control => write!(f, " control"),
        }
    }
}

impl fmt::Display for Shown<Token> {
    fn fmt<W: fmt::Write>(&self, f: &mut fmt::Formatter<W>) -> fmt::Result {
        match self.0 {
            Token::BeginAttributes => write!(f, "<"),
            Token::EndAttributes => write!(f, ">"),
            Token::BeginList => write!(f, "["),
            Token::EndList => write!(f, "]"),
            Token::BeginMap => write!(f, "{{"),
            Token::EndMap => write!(f, "}}"),
            Token::Entity => write!(f, "#"),
            Token::KeyValueSeparator => write!(f, "="),
            Token::ItemSeparator => write!(f, ";"),
            Token::String { len, .. } => write!(f, "string of {len}"),
            Token::Escaped { len, .. } => write!(f, "escaped string of {len}"),
            Token::Int64(v) => write!(f, "int64 {}", Signed(v)),
            Token::Uint64(v) => write!(f, "uint64 {v}"),
            Token::Double { bits, .. } => write!(f, "double {}", Padded(bits, 16)),
            Token::Decimal { .. } => write!(f, "decimal"),
            Token::Boolean(q) => write!(f, "{q}"),
        }
    }
}
