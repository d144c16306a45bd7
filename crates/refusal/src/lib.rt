// The refusals: what a caller may be told instead of an answer, and the number that document 01 gives each.
// specs/Numbers.antt has that table in the logic and specs/Meaning.antt gives each case its number and its values; the constants
// below are the same table in code, and no other crate writes such a number as a literal.
#![tactic(auto)]

ghost use Rattle.std.specs.Prelude.{◌≡◌};
ghost use Rattle.refusal.specs.Meaning.{why_number, why_of, refusal_at, number_of, place_of, moved_to, named_by, unread_at, call_number_of};

// The two ways YSON is written.
#[derive(Clone, Copy, Debug, PartialEq, Eq)]
pub enum Format {
    Binary,
    Text,
}

pub const BAD_BYTE: usize = 1;

pub const NEGATIVE_LENGTH: usize = 2;

pub const LONG_VARINT: usize = 3;

pub const WIDE_VARINT: usize = 4;

pub const BAD_HEX_ESCAPE: usize = 5;

pub const BAD_UINT64: usize = 6;

pub const BAD_DOUBLE: usize = 7;

pub const BAD_INT64: usize = 8;

pub const UNKNOWN_WORD: usize = 9;

pub const NOT_VALUE: usize = 10;

pub const NOT_KEY: usize = 11;

pub const NOT_EQUALS: usize = 12;

pub const TOO_DEEP: usize = 13;

pub const NOT_STRING: usize = 14;

pub const MALFORMED_RECORD: usize = 20;

pub const CUT_SHORT: usize = 21;

pub const RECORD_TOO_LONG: usize = 22;

pub const BUFFER_LENGTH: usize = 23;

pub const AFTER_CLOSING: usize = 24;

pub const OFFSET_TOO_HIGH: usize = 25;

pub const BEYOND_SLICE: usize = 26;

pub const SHORT_OUTPUT: usize = 27;

pub const STRANGE_STATE: usize = 28;

pub const BAD_CALL: usize = 29;

// What is wrong with the bytes themselves.
#[derive(Clone, Copy, Debug, PartialEq, Eq)]
pub enum Why {
    // 1: a byte that starts no token.
    BadByte,
    // 2: a string's length is below zero.
    NegativeLength,
    // 3: an eleventh varint byte is present after ten with the top bit set.
    LongVarint,
    // 4: the tenth varint byte has low seven bits above 1.
    WideVarint,
    // 5: what stands after `\x` is no hex number of two bytes.
    BadHexEscape,
    // 6: text that ends in `u` and is no uint64.
    BadUint64,
    // 7: text with a point or an exponent that is no double.
    BadDouble,
    // 8: other number text that is no int64.
    BadInt64,
    // 9: none of the words that may stand after `%`.
    UnknownWord,
    // 10: a token where a value is due that starts none.
    NotValue,
    // 11: a token where a key is due that is no string.
    NotKey,
    // 12: a token other than `=` after a key.
    NotEquals,
    // 13: a block that would be the 129th open.
    TooDeep,
}

impl Why {
    // The paper's number of what is wrong.
    pub fn number(self) -> usize
        ensures { result ≡ why_number self }
    {
        match self {
            Why::BadByte => BAD_BYTE,
            Why::NegativeLength => NEGATIVE_LENGTH,
            Why::LongVarint => LONG_VARINT,
            Why::WideVarint => WIDE_VARINT,
            Why::BadHexEscape => BAD_HEX_ESCAPE,
            Why::BadUint64 => BAD_UINT64,
            Why::BadDouble => BAD_DOUBLE,
            Why::BadInt64 => BAD_INT64,
            Why::UnknownWord => UNKNOWN_WORD,
            Why::NotValue => NOT_VALUE,
            Why::NotKey => NOT_KEY,
            Why::NotEquals => NOT_EQUALS,
            Why::TooDeep => TOO_DEEP,
        }
    }

    // The refusal for this at a place.
    pub fn at(self, place: usize) -> Refusal
        ensures { result ≡ refusal_at self place }
    {
        Refusal { why: self, place }
    }
}

// What is wrong with the bytes themselves, and where.
#[derive(Clone, Copy, Debug, PartialEq, Eq)]
pub struct Refusal {
    pub why: Why,
    pub place: usize,
}

impl Refusal {
    // The paper's number of a refusal.
    pub fn number(self) -> usize
        ensures { result ≡ number_of self }
    {
        self.why.number()
    }

    // The place that a refusal carries.
    pub fn place(self) -> usize
        ensures { result ≡ place_of self }
    {
        self.place
    }

    // The same refusal at another place: a token's refusal stands at the token, also where a varint inside it was refused.
    pub fn moved(self, to: usize) -> Refusal
        ensures { result ≡ moved_to to self }
    {
        self.why.at(to)
    }
}

// What is wrong by its number from 1 to 13. (Any other number gives the last of them.)
fn why_of(number: usize) -> Why
    ensures { result ≡ why_of number }
{
    match number {
        BAD_BYTE => Why::BadByte,
        NEGATIVE_LENGTH => Why::NegativeLength,
        LONG_VARINT => Why::LongVarint,
        WIDE_VARINT => Why::WideVarint,
        BAD_HEX_ESCAPE => Why::BadHexEscape,
        BAD_UINT64 => Why::BadUint64,
        BAD_DOUBLE => Why::BadDouble,
        BAD_INT64 => Why::BadInt64,
        UNKNOWN_WORD => Why::UnknownWord,
        NOT_VALUE => Why::NotValue,
        NOT_KEY => Why::NotKey,
        NOT_EQUALS => Why::NotEquals,
        _ => Why::TooDeep,
    }
}

// Kept: a public function, and the way back from a number that was written down.
// The refusal of a number from 1 to 13 at a place. (Any other number gives the last of them.)
pub fn refusal_of(number: usize, place: usize) -> Refusal
    ensures { result ≡ named_by number place }
{
    why_of(number).at(place)
}

// Why nothing was read at a place.
#[derive(Clone, Copy, Debug, PartialEq, Eq)]
pub enum Unread {
    // The bytes ended before it or inside it.
    Incomplete,
    // The bytes are none.
    Refused(Refusal),
    // 26: the place lies beyond the slice.
    Beyond,
}

impl Unread {
    // The same with a refusal at another place.
    pub fn moved(self, to: usize) -> Unread
        ensures { result ≡ unread_at to self }
    {
        match self {
            Unread::Refused(refusal) => Unread::Refused(refusal.moved(to)),
            Unread::Incomplete | Unread::Beyond => self,
        }
    }
}

// Why there is no whole value.
#[derive(Clone, Copy, Debug, PartialEq, Eq)]
pub enum Unwhole {
    // The bytes ended inside it, or before it.
    Incomplete,
    // The bytes are none.
    Refused(Refusal),
}

// Why a call is refused whose bytes may be well: each answer has these as cases or types of its own, with the values that it carries.
#[derive(Clone, Copy, Debug, PartialEq, Eq)]
pub enum Cause {
    // 14: string bytes are wanted and the token is no string.
    NotString,
    // 20: a malformed record.
    MalformedRecord,
    // 21: the stream was closed inside a record.
    CutShort,
    // 22: a record needs more than the buffer.
    RecordTooLong,
    // 23: the buffer's length is not from 64 to 65,536.
    BufferLength,
    // 24: a piece was offered after closing.
    AfterClosing,
    // 25: the stream's offset would pass 2^64 - 1.
    OffsetTooHigh,
    // 26: the place lies beyond the slice.
    BeyondSlice,
    // 27: the output is shorter than what is to be written.
    ShortOutput,
    // 28: state and buffer do not belong together.
    StrangeState,
    // 29: a C call with an unknown format or too many bytes.
    BadCall,
}

impl Cause {
    // The paper's number of a cause.
    pub fn number(self) -> usize
        ensures { result ≡ call_number_of self }
    {
        match self {
            Cause::NotString => NOT_STRING,
            Cause::MalformedRecord => MALFORMED_RECORD,
            Cause::CutShort => CUT_SHORT,
            Cause::RecordTooLong => RECORD_TOO_LONG,
            Cause::BufferLength => BUFFER_LENGTH,
            Cause::AfterClosing => AFTER_CLOSING,
            Cause::OffsetTooHigh => OFFSET_TOO_HIGH,
            Cause::BeyondSlice => BEYOND_SLICE,
            Cause::ShortOutput => SHORT_OUTPUT,
            Cause::StrangeState => STRANGE_STATE,
            Cause::BadCall => BAD_CALL,
        }
    }
}
