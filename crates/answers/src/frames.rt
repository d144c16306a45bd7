// Kind 11: a stream in pieces, by the calling protocol of promise 3. Each piece, an empty one too, is offered at least once and until
// it is taken or next stops; next is called after each offer until it wants more or stops; after the last piece the stream is closed.
// The pieces are read one after another, so that a frame may be longer than any buffer.
ghost use Rattle.std.specs.Prelude.{◌+◌, ◌≤◌, length, IfOk};

use crate::line::Line;
use crate::read;
use crate::read::Unanswered;
use crate::shown::Shown;
use reader::{Found, State};
use std::io::Stdin;

// No piece is offered any more, and the line says why.
#[derive(Clone, Copy)]
struct Told;

// A stream under way: the readings, and the calls of next that handed out no record and left a buffered byte unpassed.
#[derive(Drop)]
struct Stream<'a> {
    state: State,
    buf: &'a mut [u8],
    readings: u64,
    nexts: u64,
}

impl Stream<'_> {
    // Next, until it wants more.
    fn drain(&mut self, line: &mut Line) -> Result<(), Told> {
        for _ in 0..u64::MAX {
            line.spare();
            let buf = &mut *self.buf;
            let next = self.state.next(buf);
            self.readings = self.readings.wrapping_add(next.readings as u64);
            if let Ok(
                Found::Record {
                    length,
                    offset,
                    mark,
                    ..
                },
            ) = next.answer
            {
                line.put(format_args!("{offset} {length} {}; ", Shown(mark)));
                continue;
            }
            if self.state.place < self.state.filled {
                self.nexts = self.nexts.wrapping_add(1);
            }
            match next.answer {
                Ok(Found::End) => line.put(format_args!("end {}", self.state.offset)),
                Ok(_) => return Ok(()),
                Err(why) => line.put(Shown(why)),
            }
            return Err(Told);
        }
        Err(Told)
    }

    // A piece is offered, and next called after it; answers what is left of it.
    fn offer<'p>(&mut self, line: &mut Line, piece: &'p [u8]) -> Result<&'p [u8], Told>
        ensures { IfOk result (λ rest. length rest.now ≤ length piece.now) }
    {
        match self.state.offer(self.buf, piece) {
            Ok(count) => {
                self.drain(line)?;
                Ok(&piece[count.min(piece.len())..])
            }
            Err(why) => {
                line.put(Shown(why));
                Err(Told)
            }
        }
    }

    // One piece, offered at least once and until it is taken.
    fn feed(&mut self, line: &mut Line, piece: &[u8]) -> Result<(), Told> {
        let mut left = self.offer(line, piece)?;
        while !left.is_empty() {
            let rest = self.offer(line, left)?;
            if rest.len() == left.len() {
                break;
            }
            left = rest;
        }
        Ok(())
    }

    // No piece follows.
    fn close(&mut self, line: &mut Line) -> Result<(), Told> {
        let buf = &mut *self.buf;
        let _ = self.state.close(buf);
        self.drain(line)
    }
}

// The next piece of a payload of which so many bytes are left. Bytes that are no piece are passed over.
fn next_piece(stdin: Stdin, left: u64, chunk: &mut [u8; 65544]) -> Result<&[u8], Unanswered>
    ensures { IfOk result (λ piece. length piece.now + 2 ≤ left) }
{
    let Some(rest) = left.checked_sub(2) else {
        read::skip(stdin, left, chunk)?;
        return Err(Unanswered::BadCase);
    };
    let count = u16::from_le_bytes(read::next(stdin)?);
    if rest < u64::from(count) {
        read::skip(stdin, rest, chunk)?;
        return Err(Unanswered::BadCase);
    }
    let piece = &mut chunk[..usize::from(count)];
    read::fill(stdin, piece)?;
    Ok(piece)
}

// One case of so many bytes.
pub fn answer(
    stdin: Stdin,
    size: u64,
    chunk: &mut [u8; 65544],
    area: &mut [u8; 65537],
    line: &mut Line,
) -> Result<(), Unanswered> {
    line.flush();
    line.begin();
    let Some(mut left) = size.checked_sub(12) else {
        read::skip(stdin, size, chunk)?;
        return Err(Unanswered::BadCase);
    };
    // Both numbers by one reading: two took 1.28 of the time of a stream without a piece.
    let [a, b, c, d, e, f, g, h, i, j, k, l] = read::next::<12>(stdin)?;
    let n = u32::from_le_bytes([a, b, c, d]) as usize;
    let start = u64::from_le_bytes([e, f, g, h, i, j, k, l]);
    if n > area.len() {
        read::skip(stdin, left, chunk)?;
        return Err(Unanswered::TooLong);
    }
    let buf = &mut area[..n];
    let opened = reader::open(start, buf);
    let mut stream = Stream {
        state: opened.state,
        buf,
        readings: 0,
        nexts: 0,
    };
    let mut going = opened.answer.map_err(|why| {
        line.put(Shown(why));
        Told
    });
    while left > 0 {
        let piece = next_piece(stdin, left, chunk)?;
        left -= piece.len() as u64 + 2;
        if going.is_ok() {
            going = stream.feed(line, piece);
        }
    }
    if going.is_ok() {
        let _ = stream.close(line);
    }
    line.spare();
    line.put(format_args!(" readings {} nexts {}", stream.readings, stream.nexts));
    Ok(())
}
