// Tokens: the smallest parts of YSON that mean something, and what reading one at a place answers.
// The cases are those of the Rust's `Token`; where that holds bytes, these hold the place and the length of the bytes in the input.
#![tactic(auto)]

ghost use Rattle.std.specs.Prelude.{◌≡◌, ◌+◌, ◌^◌, ◌<◌, Some};
ghost use Rattle.token.specs.Meaning.{read_meaning, kind_of, extent_of};
ghost use Rattle.token.specs.Marks.{mark_of, of_mark, mark_at};

use refusal::{Unread, Why};

#[derive(Clone, Copy)]
pub enum Token {
    // `<`
    BeginAttributes,
    // `>`
    EndAttributes,
    // `[`
    BeginList,
    // `]`
    EndList,
    // `{`
    BeginMap,
    // `}`
    EndMap,
    // A string whose bytes are those of the input from `start` on.
    String { start: usize, len: usize },
    // A quoted string with a backslash in it: what stands between its quotes. `string_bytes` undoes its escapes.
    Escaped { start: usize, len: usize },
    Int64(i64),
    Uint64(u64),
    // The float, and its 64 bits as one number: where they are a NaN's the float is a NaN, and only the bits say which.
    Double { value: f64, bits: u64 },
    // A double in decimal text: the extent of the text, and no value.
    Decimal { start: usize, len: usize },
    Boolean(bool),
    // `#`
    Entity,
    // `=`
    KeyValueSeparator,
    // `;`
    ItemSeparator,
}

// What a token is to the scan, which asks for no value.
#[derive(Clone, Copy, Debug, PartialEq, Eq)]
pub enum Kind {
    Text,
    Scalar,
    OpenList,
    CloseList,
    OpenMap,
    CloseMap,
    OpenAttributes,
    CloseAttributes,
    Equals,
    Semicolon,
}

// Where the bytes of a string stand.
#[derive(Clone, Copy, Debug, PartialEq, Eq)]
pub enum Extent {
    // They are the input's own.
    Plain { start: usize, len: usize },
    // They stand between quotes, with escapes to undo.
    Quoted { start: usize, len: usize },
}

impl Token {
    // Where the bytes of a string token stand; no other token has any.
    pub fn extent(self) -> Option<Extent>
        ensures { result ≡ extent_of self }
    {
        match self {
            Token::String { start, len } => Some(Extent::Plain { start, len }),
            Token::Escaped { start, len } => Some(Extent::Quoted { start, len }),
            _ => None,
        }
    }

    // What the scan sees of a token.
    pub fn kind(self) -> Kind
        ensures { result ≡ kind_of self }
    {
        match self {
            Token::BeginAttributes => Kind::OpenAttributes,
            Token::EndAttributes => Kind::CloseAttributes,
            Token::BeginList => Kind::OpenList,
            Token::EndList => Kind::CloseList,
            Token::BeginMap => Kind::OpenMap,
            Token::EndMap => Kind::CloseMap,
            Token::String { .. } | Token::Escaped { .. } => Kind::Text,
            Token::KeyValueSeparator => Kind::Equals,
            Token::ItemSeparator => Kind::Semicolon,
            Token::Int64(_)
            | Token::Uint64(_)
            | Token::Double { .. }
            | Token::Decimal { .. }
            | Token::Boolean(_)
            | Token::Entity => Kind::Scalar,
        }
    }
}

// A token, the place of its first byte (behind blanks and comments), and the place after its last.
#[derive(Clone, Copy)]
pub struct Placed {
    pub token: Token,
    pub first: usize,
    pub next: usize,
}

// What reading a token at a place answers.
pub type Read = Result<Placed, Unread>;

// A token of one byte.
fn one_byte(token: Token, at: usize) -> Read
    requires { at + 1 < 2 ^ 64 }
    ensures { read_meaning result ≡ of_mark at (Some token) }
{
    Ok(Placed {
        token,
        first: at,
        next: at + 1,
    })
}

// The token that a byte at a place is by itself, in both formats alike: one of `# < > [ ] { } = ;`.
// Kept: each arm makes the whole answer, since a token that goes through an Option is copied piece by piece: marks took 1.7 of the time.
fn mark_of(b: u8, at: usize) -> Read
    requires { at + 1 < 2 ^ 64 }
    ensures { read_meaning result ≡ of_mark at (mark_of b) }
{
    match b {
        b'#' => one_byte(Token::Entity, at),
        b';' => one_byte(Token::ItemSeparator, at),
        b'<' => one_byte(Token::BeginAttributes, at),
        b'=' => one_byte(Token::KeyValueSeparator, at),
        b'>' => one_byte(Token::EndAttributes, at),
        b'[' => one_byte(Token::BeginList, at),
        b']' => one_byte(Token::EndList, at),
        b'{' => one_byte(Token::BeginMap, at),
        b'}' => one_byte(Token::EndMap, at),
        _ => Err(Unread::Refused(Why::BadByte.at(at))),
    }
}

// The token at a place where marks are the only tokens.
pub fn mark_at(input: &[u8], at: usize) -> Read
    ensures { read_meaning result ≡ mark_at input.now at }
{
    if input.len() < at {
        return Err(Unread::Beyond);
    }
    if input.len() == at {
        return Err(Unread::Incomplete);
    }
    mark_of(input[at], at)
}

// A string's bytes, written at the front of the output: how many, and the place after the string's token.
#[derive(Clone, Copy, Debug, PartialEq, Eq)]
pub struct Copied {
    pub count: usize,
    pub next: usize,
}

// Why no string's bytes were written. The output is as it was.
#[derive(Clone, Copy, Debug, PartialEq, Eq)]
pub enum NoBytes {
    // No token was read.
    Unread(Unread),
    // 14: the token is no string.
    NotString,
    // 27: the output is shorter than the string.
    Short,
}

impl From<Unread> for NoBytes {
    ghost use Rattle.token.specs.Strings.{none_read};

    ghost from_gives = { λ x e. e ≡ none_read x };

    fn from(unread: Unread) -> NoBytes {
        NoBytes::Unread(unread)
    }
}

// What asking for a string's bytes answers. Only `Ok` writes.
pub type Unescaped = Result<Copied, NoBytes>;
