// Prints the offset, length and mark of each record of the binary stream on standard input, and how the stream ends.
// The records are those that crate `reader` hands out of a buffer of 65,536 bytes, from offset 0 on. Output goes through a buffer.
// Input that cannot be read to its end and output that cannot be written are told on standard error, and no `end` line follows.
#![tactic(auto)]

use output::Text;
use reader::{Found, Mark, NotTaken, State, Stopped};
use refusal::Cause;
use std::io::{Read, Stdin, Stdout, Write};

// More than the longest line.
const LINE: usize = 96;

// Why nothing is read any more.
#[derive(Clone, Copy)]
enum Stop {
    // The last line is put.
    Told,
    // The input could not be read.
    Unread,
    // The output could not be written.
    Unwritten,
}

// Where lines go: the text that is to be written out, and standard output.
#[derive(Drop)]
struct Lines<'a> {
    text: Text<'a>,
    stdout: Stdout,
}

impl Lines<'_> {
    // Writes the text out. What could not be written is not tried again.
    fn flush(&mut self) -> Result<(), Stop> {
        let mut stdout = self.stdout;
        let filled = self.text.filled;
        self.text.filled = 0;
        let Some(bytes) = self.text.bytes.get(..filled) else {
            return Err(Stop::Unwritten);
        };
        stdout.write_all(bytes).map_err(|_| Stop::Unwritten)
    }

    // Room for a line: where there is none, the text is written out.
    fn spare(&mut self) -> Result<(), Stop> {
        if self.text.bytes.len().saturating_sub(self.text.filled) < LINE {
            self.flush()?;
        }
        Ok(())
    }

    // `OFFSET LENGTH MARK`
    fn record(&mut self, offset: u64, length: usize, mark: Mark) -> Result<(), Stop> {
        self.spare()?;
        self.text.put_decimal(offset);
        self.text.put(b" ");
        self.text.put_decimal(length as u64);
        match mark {
            Mark::Row => self.text.put(b" row\n"),
            Mark::Control => self.text.put(b" control\n"),
        }
        Ok(())
    }

    // The last line: `refused NUMBER OFFSET`
    fn refused(&mut self, number: usize, offset: u64) -> Result<(), Stop> {
        self.spare()?;
        self.text.put(b"refused ");
        self.text.put_decimal(number as u64);
        self.text.put(b" ");
        self.text.put_decimal(offset);
        self.text.put(b"\n");
        Err(Stop::Told)
    }

    // The last line: `end TAKEN records COUNT`
    fn end(&mut self, taken: u64, records: u64) -> Result<(), Stop> {
        self.spare()?;
        self.text.put(b"end ");
        self.text.put_decimal(taken);
        self.text.put(b" records ");
        self.text.put_decimal(records);
        self.text.put(b"\n");
        Err(Stop::Told)
    }
}

// Where the program stands: the stream's buffer and state, the records handed out, and the lines about them.
#[derive(Drop)]
struct Stream<'a, 'b> {
    buf: &'a mut [u8],
    state: State,
    records: u64,
    lines: Lines<'b>,
}

impl Stream<'_, '_> {
    // Next, until it wants more or stops.
    fn drain(&mut self) -> Result<(), Stop> {
        let mut state = self.state;
        for _ in 0..u64::MAX {
            let (cause, offset) = match state.next(self.buf).answer {
                Ok(
                    Found::Record {
                        length,
                        offset,
                        mark,
                        ..
                    },
                ) => {
                    self.lines.record(offset, length, mark)?;
                    self.records = self.records.wrapping_add(1);
                    continue;
                }
                Ok(Found::More) => break,
                Ok(Found::End) => return self.lines.end(state.offset, self.records),
                Err(Stopped::Malformed { offset, .. }) => (Cause::MalformedRecord, offset),
                Err(Stopped::TooLong { offset, .. }) => (Cause::RecordTooLong, offset),
                Err(Stopped::CutShort { offset, .. }) => (Cause::CutShort, offset),
                Err(Stopped::StrangeState) => (Cause::StrangeState, 0),
            };
            return self.lines.refused(cause.number(), offset);
        }
        self.state = state;
        Ok(())
    }

    // One piece, offered until it is taken or the stream stops.
    fn feed(&mut self, piece: &[u8]) -> Result<(), Stop> {
        let mut rest = piece;
        while !rest.is_empty() {
            let number = match self.state.offer(self.buf, rest) {
                Ok(count @ 1..) => {
                    rest = &rest[count.min(rest.len())..];
                    self.drain()?;
                    continue;
                }
                // No refusal has this number.
                Ok(0) => 0,
                Err(NotTaken::StrangeState) => refusal::STRANGE_STATE,
                Err(NotTaken::AfterClosing) => refusal::AFTER_CLOSING,
                Err(NotTaken::OffsetTooHigh) => refusal::OFFSET_TOO_HIGH,
            };
            return self.lines.refused(number, self.state.offset);
        }
        Ok(())
    }

    // No piece follows: the stream is closed, and next called again until it stops.
    fn finish(&mut self) -> Result<(), Stop> {
        // A state that cannot be closed is told by next.
        let mut state = self.state;
        let _ = state.close(self.buf);
        self.state = state;
        self.drain()
    }

    // The pieces, to the input's end or the last line.
    fn pieces(&mut self, mut stdin: Stdin, piece: &mut [u8]) -> Result<(), Stop> {
        for _ in 0..u64::MAX {
            match stdin.read(piece) {
                Err(_) => return Err(Stop::Unread),
                Ok(0) => return self.finish(),
                Ok(n) => self.feed(&piece[..n])?,
            }
        }
        Ok(())
    }
}

// The whole stream, from its opening to its last line, and what went wrong.
fn run(rt: HostRuntime, buf: &mut [u8], out: &mut [u8], piece: &mut [u8]) {
    let state = reader::open(0, buf).state;
    let mut text = Text::new(out);
    text.put(b"offset length mark\n");
    let mut stream = Stream {
        buf,
        state,
        records: 0,
        lines: Lines {
            text,
            stdout: rt.stdout(),
        },
    };
    let stopped = stream.pieces(rt.stdin(), piece);
    let word: &[u8] = match stream.lines.flush().and(stopped) {
        Err(Stop::Told) => return,
        Err(Stop::Unread) => b"records: standard input could not be read to its end\n",
        Err(Stop::Unwritten) => b"records: the output could not be written\n",
        Ok(()) => b"records: the stream has no end\n",
    };
    // What cannot be written here is told nowhere.
    let _ = rt.stderr().write_all(word);
}

fn main(rt: HostRuntime) {
    let mut buf = [0u8; 65536];
    let mut out = [0u8; 65536];
    let mut piece = [0u8; 65536];
    run(rt, &mut buf, &mut out, &mut piece);
}
