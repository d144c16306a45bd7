// How lines show what the library answers.
use reader::{BufferLength, Mark, NotTaken, Stopped};
use refusal::{Cause, Refusal, Unread, Unwhole};
use std::fmt;
use token::{Copied, NoBytes, Placed, Token};
use varint::{ShortOutput, Varint};

#[derive(Clone, Copy)]
pub struct Shown<T>(pub T);

// `refused NO PLACE`
impl fmt::Display for Shown<Refusal> {
    fn fmt<W: fmt::Write>(&self, f: &mut fmt::Formatter<W>) -> fmt::Result {
        let refusal = self.0;
        write!(f, "refused {} {}", refusal.number(), refusal.place())
    }
}

// `refused NO`
impl fmt::Display for Shown<Cause> {
    fn fmt<W: fmt::Write>(&self, f: &mut fmt::Formatter<W>) -> fmt::Result {
        write!(f, "refused {}", self.0.number())
    }
}

// Why there is no whole value.
impl fmt::Display for Shown<Unwhole> {
    fn fmt<W: fmt::Write>(&self, f: &mut fmt::Formatter<W>) -> fmt::Result {
        match self.0 {
            Unwhole::Incomplete => write!(f, "more"),
            Unwhole::Refused(refusal) => write!(f, "{}", Shown(refusal)),
        }
    }
}

// Why nothing was read.
impl fmt::Display for Shown<Unread> {
    fn fmt<W: fmt::Write>(&self, f: &mut fmt::Formatter<W>) -> fmt::Result {
        match self.0 {
            Unread::Incomplete => write!(f, "more"),
            Unread::Refused(refusal) => write!(f, "{}", Shown(refusal)),
            Unread::Beyond => write!(f, "{}", Shown(Cause::BeyondSlice)),
        }
    }
}

// Why no string's bytes were written.
impl fmt::Display for Shown<NoBytes> {
    fn fmt<W: fmt::Write>(&self, f: &mut fmt::Formatter<W>) -> fmt::Result {
        match self.0 {
            NoBytes::Unread(unread) => write!(f, "{}", Shown(unread)),
            NoBytes::NotString => write!(f, "{}", Shown(Cause::NotString)),
            NoBytes::Short => write!(f, "{}", Shown(Cause::ShortOutput)),
        }
    }
}

impl fmt::Display for Shown<ShortOutput> {
    fn fmt<W: fmt::Write>(&self, f: &mut fmt::Formatter<W>) -> fmt::Result {
        write!(f, "{}", Shown(Cause::ShortOutput))
    }
}

impl fmt::Display for Shown<BufferLength> {
    fn fmt<W: fmt::Write>(&self, f: &mut fmt::Formatter<W>) -> fmt::Result {
        write!(f, "{}", Shown(Cause::BufferLength))
    }
}

// Why nothing of a piece is taken.
impl fmt::Display for Shown<NotTaken> {
    fn fmt<W: fmt::Write>(&self, f: &mut fmt::Formatter<W>) -> fmt::Result {
        let cause = match self.0 {
            NotTaken::StrangeState => Cause::StrangeState,
            NotTaken::AfterClosing => Cause::AfterClosing,
            NotTaken::OffsetTooHigh => Cause::OffsetTooHigh,
        };
        write!(f, "{}", Shown(cause))
    }
}

// Why a stream's next record is none.
impl fmt::Display for Shown<Stopped> {
    fn fmt<W: fmt::Write>(&self, f: &mut fmt::Formatter<W>) -> fmt::Result {
        match self.0 {
            Stopped::Malformed { offset, refusal } => {
                let refused = Shown(Cause::MalformedRecord);
                let (number, place) = (refusal.number(), refusal.place());
                write!(f, "{refused} {offset} {number} {place}")
            }
            Stopped::TooLong { offset, len } => {
                write!(f, "{} {offset} {len}", Shown(Cause::RecordTooLong))
            }
            Stopped::CutShort { offset, held } => {
                write!(f, "{} {offset} {held}", Shown(Cause::CutShort))
            }
            Stopped::StrangeState => write!(f, "{}", Shown(Cause::StrangeState)),
        }
    }
}

impl<T: fmt::Display> fmt::Display for Shown<Varint<T>> {
    fn fmt<W: fmt::Write>(&self, f: &mut fmt::Formatter<W>) -> fmt::Result {
        let Varint { value, next } = &self.0;
        write!(f, "value {value} {next}")
    }
}

// A token, without its places.
impl fmt::Display for Shown<Token> {
    fn fmt<W: fmt::Write>(&self, f: &mut fmt::Formatter<W>) -> fmt::Result {
        match self.0 {
            Token::BeginAttributes => write!(f, "<"),
            Token::EndAttributes => write!(f, ">"),
            Token::BeginList => write!(f, "["),
            Token::EndList => write!(f, "]"),
            Token::BeginMap => write!(f, "{{"),
            Token::EndMap => write!(f, "}}"),
            Token::Entity => write!(f, "#"),
            Token::KeyValueSeparator => write!(f, "="),
            Token::ItemSeparator => write!(f, ";"),
            Token::String { start, len } => write!(f, "string {start} {len}"),
            Token::Escaped { start, len } => write!(f, "escaped {start} {len}"),
            Token::Int64(v) => write!(f, "int64 {v}"),
            Token::Uint64(v) => write!(f, "uint64 {v}"),
            Token::Double { bits, .. } => write!(f, "double {bits:016x}"),
            Token::Decimal { start, len } => write!(f, "decimal {start} {len}"),
            Token::Boolean(q) => write!(f, "{q}"),
        }
    }
}

// A token with the place of its first byte and the place after it.
impl fmt::Display for Shown<Placed> {
    fn fmt<W: fmt::Write>(&self, f: &mut fmt::Formatter<W>) -> fmt::Result {
        let Placed { token, first, next } = self.0;
        let token = Shown(token);
        write!(f, "{token} at {first} end {next}")
    }
}

// How many bytes a string has and the place after it.
impl fmt::Display for Shown<Copied> {
    fn fmt<W: fmt::Write>(&self, f: &mut fmt::Formatter<W>) -> fmt::Result {
        let Copied { count, next } = self.0;
        write!(f, "string {count} end {next}")
    }
}

impl fmt::Display for Shown<Mark> {
    fn fmt<W: fmt::Write>(&self, f: &mut fmt::Formatter<W>) -> fmt::Result {
        match self.0 {
            Mark::Row => write!(f, "row"),
            Mark::Control => write!(f, "control"),
        }
    }
}
