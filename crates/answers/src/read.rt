// The input, and what a payload is made of.
use std::fmt;
use std::io::{Read, Stdin};

// The most bytes that a case asks of.
pub const MOST_BYTES: usize = 65536;

// Why a case has no answer. The word for it stands in the answer's place.
#[derive(Clone, Copy)]
pub enum Unanswered {
    // The payload is not of its form, or there is no such kind.
    BadCase,
    // More bytes than are read.
    TooLong,
    // The input ended inside the case.
    CutShort,
}

impl fmt::Display for Unanswered {
    fn fmt<W: fmt::Write>(&self, f: &mut fmt::Formatter<W>) -> fmt::Result {
        match self {
            Unanswered::BadCase => write!(f, "bad case"),
            Unanswered::TooLong => write!(f, "too long"),
            Unanswered::CutShort => write!(f, "cut short"),
        }
    }
}

// Fills the bytes from the input.
pub fn fill(mut stdin: Stdin, bytes: &mut [u8]) -> Result<(), Unanswered> {
    stdin.read_exact(bytes).map_err(|_| Unanswered::CutShort)
}

// The next bytes of the input.
pub fn next<const N: usize>(stdin: Stdin) -> Result<[u8; N], Unanswered> {
    let mut bytes = [0u8; N];
    fill(stdin, &mut bytes)?;
    Ok(bytes)
}

// The kind of the next case and the length of its payload; none at the input's end.
pub fn head(mut stdin: Stdin) -> Result<Option<(u8, usize)>, Unanswered> {
    let mut head = [0u8; 5];
    match stdin.read(&mut head) {
        Ok(0) | Err(_) => return Ok(None),
        Ok(count) => fill(stdin, &mut head[count..])?,
    }
    let [kind, a, b, c, d] = head;
    Ok(Some((kind, u32::from_le_bytes([a, b, c, d]) as usize)))
}

// Passes over so many bytes of the input, by way of a chunk.
// Kept: a loop over the chunk that is there and not `io::copy` into a sink, which reads 8 KiB at a time into a buffer that it clears each
// time: passing over long payloads took 1.34 of the time.
pub fn skip(stdin: Stdin, size: u64, chunk: &mut [u8; 65544]) -> Result<(), Unanswered> {
    let mut left = size;
    while left > 0 {
        let count = left.min(chunk.len() as u64);
        fill(stdin, &mut chunk[..count as usize])?;
        left -= count;
    }
    Ok(())
}

// Bytes that are not too long.
pub fn within(bytes: &[u8]) -> Result<&[u8], Unanswered> {
    if bytes.len() <= MOST_BYTES {
        Ok(bytes)
    } else {
        Err(Unanswered::TooLong)
    }
}

// The number that stands in four bytes at the front of a payload, and what follows it.
pub fn number(payload: &[u8]) -> Result<(usize, &[u8]), Unanswered> {
    let (number, rest) = payload.split_first_chunk().ok_or(Unanswered::BadCase)?;
    Ok((u32::from_le_bytes(*number) as usize, rest))
}
