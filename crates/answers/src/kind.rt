// What a case asks.
use crate::read::Unanswered;
use refusal::Format;

#[derive(Clone, Copy)]
pub enum Kind {
    Scan(Format),
    ReadUnsigned,
    ReadSigned,
    WriteUnsigned,
    WriteSigned,
    Token(Format),
    String(Format),
    Frame,
}

impl TryFrom<u8> for Kind {
    type Error = Unanswered;

    fn try_from(kind: u8) -> Result<Kind, Unanswered> {
        match kind {
            1 => Ok(Kind::Scan(Format::Binary)),
            2 => Ok(Kind::Scan(Format::Text)),
            3 => Ok(Kind::ReadUnsigned),
            4 => Ok(Kind::ReadSigned),
            5 => Ok(Kind::WriteUnsigned),
            6 => Ok(Kind::WriteSigned),
            7 => Ok(Kind::Token(Format::Binary)),
            8 => Ok(Kind::Token(Format::Text)),
            9 => Ok(Kind::String(Format::Binary)),
            10 => Ok(Kind::String(Format::Text)),
            11 => Ok(Kind::Frame),
            _ => Err(Unanswered::BadCase),
        }
    }
}

impl Kind {
    // Why a payload that is longer than any that is read has no answer: cases of bytes are too long, and no other has such a form.
    pub fn longer(self) -> Unanswered {
        match self {
            Kind::WriteUnsigned | Kind::WriteSigned => Unanswered::BadCase,
            _ => Unanswered::TooLong,
        }
    }
}
