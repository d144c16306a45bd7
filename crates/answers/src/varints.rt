// Kinds 5 and 6: varints, written.
use crate::line::Line;
use crate::read::Unanswered;
use crate::shown::Shown;
use varint::ShortOutput;

// A number of eight bytes, written by `write` into an output of so many bytes AA: `wrote COUNT BYTES` or `refused 27 BYTES`.
fn write<F: FnOnce([u8; 8], &mut [u8]) -> Result<usize, ShortOutput>>(
    line: &mut Line,
    payload: &[u8],
    write: F,
) -> Result<(), Unanswered>
    requires { F.IsAlwaysCallable write }
{
    let Some((value, &[room])) = payload.split_first_chunk() else {
        return Err(Unanswered::BadCase);
    };
    let mut area = [0xAAu8; 255];
    let out = &mut area[..usize::from(room)];
    match write(*value, out) {
        Ok(count) => line.put(format_args!("wrote {count} ")),
        Err(why) => line.put(format_args!("{} ", Shown(why))),
    }
    line.put_bytes(out);
    Ok(())
}

// Kind 5: an unsigned number.
pub fn write_unsigned(line: &mut Line, payload: &[u8]) -> Result<(), Unanswered> {
    write(line, payload, |value, out| {
        varint::write_uvarint(u64::from_le_bytes(value), out)
    })
}

// Kind 6: a signed number, in two's complement.
pub fn write_signed(line: &mut Line, payload: &[u8]) -> Result<(), Unanswered> {
    write(line, payload, |value, out| {
        varint::write_varint(i64::from_le_bytes(value), out)
    })
}
