// The stream reader: successive records from a lent buffer that is filled piece by piece. What a call answers is decided by
// specs/Calls.antt, which reads as document 01's "The stream"; 28's tests stand in specs/Fits.antt, those of numbers alone in crate
// `places` and those of the open blocks in crate `kept`. The calls change the state in place.
#![tactic(auto)]

ghost use Rattle.std.specs.Prelude.{◌≡◌, ◌+◌, ◌-◌, ◌≤◌, ℕ, length};
ghost use Rattle.places.specs.Places.{most_offset};
ghost use Rattle.blocks.specs.Readings.{what_meaning, run_meaning};
ghost use Rattle.reader.specs.Fits.{fits, Fitting};
ghost use Rattle.reader.specs.Meaning.{looked, found_meaning, opened_meaning, offered_meaning, closed_meaning, next_meaning};
ghost use Rattle.reader.specs.Calls.{new_state, open_of, offer_of, buffer_of, close_of, next_of};
ghost use Rattle.reader.specs.Calls.{skipped_of, mark_of, wait_of, hand_out, Within};

use blocks::Run;
use kept::Blocks;
use refusal::{Refusal, Unwhole};

// The bytes of a record that was handed out.
pub use buffer::record;

// Where a stream stands between calls. `offset` is the stream offset of the byte at `start`, the first that is neither handed out
// nor skipped; `place` is the end of the last token passed, and `filled` that of the bytes taken.
// Kept: places beside a buffer that is lent to each call, since the theorems of `stream` and `history` speak of a state and bytes apart.
#[derive(Clone, Copy)]
pub struct State {
    pub len: usize,
    pub offset: u64,
    pub start: usize,
    pub place: usize,
    pub filled: usize,
    pub closed: bool,
    pub blocks: Blocks,
}

// 23: the buffer's length is not from 64 to 65,536.
#[derive(Clone, Copy, Debug, PartialEq, Eq)]
pub struct BufferLength;

// What opening answers, and the state of the stream.
#[derive(Clone, Copy)]
pub struct Opened {
    pub answer: Result<(), BufferLength>,
    pub state: State,
}

// Why nothing of a piece is taken.
#[derive(Clone, Copy, Debug, PartialEq, Eq)]
pub enum NotTaken {
    // 28: state and buffer do not belong together.
    StrangeState,
    // 24: the stream is closed.
    AfterClosing,
    // 25: the stream's offset would pass 2^64 - 1.
    OffsetTooHigh,
}

// 28: state and buffer do not belong together.
#[derive(Clone, Copy, Debug, PartialEq, Eq)]
pub struct StrangeState;

// A record's mark.
#[derive(Clone, Copy, Debug, PartialEq, Eq)]
pub enum Mark {
    Row,
    Control,
}

impl Mark {
    // The mark of a record, by its first byte.
    fn of(first: u8) -> Mark
        ensures { result ≡ mark_of first }
    {
        if first == b'<' {
            Mark::Control
        } else {
            Mark::Row
        }
    }
}

// What next finds.
#[derive(Clone, Copy, Debug, PartialEq, Eq)]
pub enum Found {
    // A record, by its place and length in the buffer and its stream offset.
    Record {
        place: usize,
        length: usize,
        offset: u64,
        mark: Mark,
    },
    // The stream is closed and all of it is handed out.
    End,
    // More of the stream is needed.
    More,
}

// Why next stops.
#[derive(Clone, Copy, Debug, PartialEq, Eq)]
pub enum Stopped {
    // 20: the record at the offset is malformed; the refusal's place counts from its first byte.
    Malformed { offset: u64, refusal: Refusal },
    // 22: the record at the offset needs more than the buffer.
    TooLong { offset: u64, len: usize },
    // 21: the stream was closed inside the record at the offset, with so many bytes buffered.
    CutShort { offset: u64, held: usize },
    // 28: state and buffer do not belong together.
    StrangeState,
}

// What next answers, and how many readings that took.
#[derive(Clone, Copy, Debug, PartialEq, Eq)]
pub struct Next {
    pub answer: Result<Found, Stopped>,
    pub readings: usize,
}

// Nothing is taken, from a stream offset on, over a buffer of `len` bytes.
fn new_state(len: usize, offset: u64) -> State
    ensures { result ≡ new_state len offset }
{
    State {
        len,
        offset,
        start: 0,
        place: 0,
        filled: 0,
        closed: false,
        blocks: kept::no_blocks(),
    }
}

// Opens a stream over a lent buffer, from a start offset on. A refusal gives the state of zeros, which every call refuses 28.
#[tactic(auto, unfolding(crate::specs::Calls::open_of))]
pub fn open(start: u64, buf: &[u8]) -> Opened
    ensures { opened_meaning result ≡ open_of start (length buf.now) }
{
    if !places::is_buffer(buf.len()) {
        return Opened {
            answer: Err(BufferLength),
            state: new_state(0, 0),
        };
    }
    Opened {
        answer: Ok(()),
        state: new_state(buf.len(), start),
    }
}

impl State {
    // Takes as much of a piece as there is room for, and answers how much that is. A refusal leaves the state as it was and writes
    // nothing.
    #[tactic(auto, using(crate::proofs::Shell::offering), unfolding(crate::specs::Calls::offer_of, crate::specs::Calls::buffer_of))]
    pub fn offer(&mut self, buf: &mut [u8], piece: &[u8]) -> Result<usize, NotTaken>
        ensures answer { offered_meaning result self.new ≡ offer_of self.old (length buf.old) (length piece.now) }
        ensures written { buf.new ≡ buffer_of self.old piece.now buf.old }
    {
        if !self.fits_together(buf.len()) {
            return Err(NotTaken::StrangeState);
        }
        if self.closed {
            return Err(NotTaken::AfterClosing);
        }
        let held = self.filled - self.start;
        if !places::offset_fits(self.offset + held as u64, piece.len() as u64) {
            return Err(NotTaken::OffsetTooHigh);
        }
        let count = buffer::refill(buf, self.start, self.filled, piece);
        self.place -= self.start;
        self.start = 0;
        self.filled = held + count;
        Ok(count)
    }

    // No piece follows. Closing twice changes nothing, and a refusal leaves the state as it was.
    #[tactic(auto, unfolding(crate::specs::Calls::close_of))]
    pub fn close(&mut self, buf: &[u8]) -> Result<(), StrangeState>
        ensures { closed_meaning result self.new ≡ close_of self.old (length buf.now) }
    {
        if !self.fits_together(buf.len()) {
            return Err(StrangeState);
        }
        self.closed = true;
        Ok(())
    }

    // The next record, or why there is none, and how many readings that took. What was skipped and passed stays so, also where
    // the answer is a refusal; 28 leaves the state as it was.
    #[tactic(auto, using(crate::proofs::Shell::reading), unfolding(crate::specs::Calls::next_by))]
    pub fn next(&mut self, buf: &[u8]) -> Next
        ensures { next_meaning result self.new ≡ next_of self.old buf.now }
    {
        if !self.fits_together(buf.len()) {
            return Next {
                answer: Err(Stopped::StrangeState),
                readings: 0,
            };
        }
        self.skip(buf);
        let passed = self.place - self.start;
        let run = blocks::pass(&mut self.blocks, &buf[self.start..self.filled], passed);
        self.hand_out(run, buf)
    }

    // Whether the state belongs to a buffer of `n` bytes.
    #[tactic(auto, unfolding(crate::specs::Fits::fits))]
    fn fits_together(&self, n: usize) -> bool
        ensures { result ≡ fits self.now n }
    {
        places::places_fit(self.len, self.start, self.place, self.filled, n)
            && places::offset_fits(self.offset, (self.filled - self.start) as u64)
            && kept::blocks_fit(self.blocks, self.place - self.start)
    }

    // Skips the separators before a record that has no token passed.
    #[tactic(auto, using(crate::proofs::Shell::skipping), unfolding(crate::specs::Calls::skipped_of))]
    fn skip(&mut self, buf: &[u8])
        requires { Fitting self.old (length buf.now) }
        ensures skipped { self.new ≡ skipped_of self.old buf.now }
        ensures fitting { Fitting self.new (length buf.now) }
    {
        if self.place == self.start {
            let count = buffer::leading_separators(&buf[self.start..self.filled]);
            self.offset += count as u64;
            self.start += count;
            self.place = self.start;
        }
    }

    // Moves the state behind the tokens that `run` read, and says what comes of them.
    fn hand_out(&mut self, run: Run, buf: &[u8]) -> Next
        requires held { (self.old.start ≤ self.old.filled) × (self.old.filled ≤ length buf.now) }
        requires sum { self.old.offset + (self.old.filled - self.old.start) ≤ most_offset }
        requires within { Within self.old (run_meaning run self.old.blocks) }
        ensures { next_meaning result self.new ≡ hand_out (what_meaning run.what) self.old (run_meaning run self.old.blocks) buf.now }
    {
        self.place = self.start + run.place;
        let answer = match run.what {
            Ok(length) => {
                let record = Found::Record {
                    place: self.start,
                    length,
                    offset: self.offset,
                    mark: Mark::of(buf[self.start]),
                };
                self.offset += length as u64;
                self.start += length;
                self.place = self.start;
                Ok(record)
            }
            Err(Unwhole::Refused(refusal)) => Err(Stopped::Malformed {
                offset: self.offset,
                refusal,
            }),
            Err(Unwhole::Incomplete) => self.waiting(),
        };
        Next {
            answer,
            readings: run.readings,
        }
    }

    // Why there is no record where no token ended one and none was refused.
    fn waiting(&self) -> Result<Found, Stopped>
        requires { self.now.start ≤ self.now.filled }
        ensures { (n : ℕ) → looked (found_meaning result) n self.now ≡ wait_of self.now n }
    {
        let held = self.filled - self.start;
        if self.len <= held {
            Err(Stopped::TooLong {
                offset: self.offset,
                len: self.len,
            })
        } else if !self.closed {
            Ok(Found::More)
        } else if held == 0 {
            Ok(Found::End)
        } else {
            Err(Stopped::CutShort {
                offset: self.offset,
                held,
            })
        }
    }
}
