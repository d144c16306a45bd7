// Kinds 3, 4 and 7 to 10: a varint or a token at a place, and a string's bytes.
use crate::line::Line;
use crate::read;
use crate::read::{MOST_BYTES, Unanswered};
use crate::shown::Shown;
use refusal::{Format, Unread};
use std::fmt::Display;

// What `reading` answers of some bytes at a place.
pub fn at_place<T: Copy, F: FnOnce(&[u8], usize) -> Result<T, Unread>>(
    line: &mut Line,
    payload: &[u8],
    reading: F,
) -> Result<(), Unanswered>
where
    Shown<T>: Display,
    requires { F.IsAlwaysCallable reading }
{
    let (place, bytes) = read::number(payload)?;
    let bytes = read::within(bytes)?;
    match reading(bytes, place) {
        Ok(answer) => line.put(Shown(answer)),
        Err(why) => line.put(Shown(why)),
    }
    Ok(())
}

// The bytes of the string at a place, into an output of so many bytes AA.
pub fn string(
    line: &mut Line,
    payload: &[u8],
    format: Format,
    area: &mut [u8; 65537],
) -> Result<(), Unanswered> {
    let (place, rest) = read::number(payload)?;
    let (room, bytes) = read::number(rest)?;
    let bytes = read::within(bytes)?;
    if room > MOST_BYTES {
        return Err(Unanswered::TooLong);
    }
    let out = &mut area[..room];
    out.fill(0xAA);
    match lookup::string_at(bytes, place, format, out) {
        Ok(copied) => line.put(Shown(copied)),
        Err(why) => line.put(Shown(why)),
    }
    line.put(" ");
    line.put_bytes(out);
    Ok(())
}
