// Frames a stream that is held in memory, delivered in pieces of one size, over and over: what does the reader itself cost?
// Standard input: the size of a piece, the number of rounds and how many times the bytes come in one stream (4 bytes each, little endian),
// then these bytes, at most 65,536.
// Prints how many records were handed out and how many readings that took, over all rounds; bench/ takes the time from outside.
#![tactic(auto)]

ghost use Rattle.std.specs.Prelude.{◌≤◌, length};

use reader::{Found, State};
use std::io::{Read, Stdin};
use std::ops::ControlFlow;

// Where the rounds stand: the stream's buffer and state, the records handed out and the readings that took.
#[derive(Drop)]
struct Rounds<'a> {
    buf: &'a mut [u8],
    state: State,
    records: u64,
    readings: u64,
}

impl Rounds<'_> {
    // Next, until it wants more, where the stream goes on, or stops.
    fn drain(&mut self) -> ControlFlow<()> {
        let mut state = self.state;
        for _ in 0..u64::MAX {
            let next = state.next(self.buf);
            self.readings = self.readings.wrapping_add(next.readings as u64);
            match next.answer {
                Ok(Found::Record { .. }) => self.records = self.records.wrapping_add(1),
                Ok(Found::More) => {
                    self.state = state;
                    return ControlFlow::Continue(());
                }
                Ok(Found::End) | Err(_) => break,
            }
        }
        ControlFlow::Break(())
    }

    // The bytes once, in pieces of at most `size` bytes.
    fn pass(&mut self, stream: &[u8], size: usize) -> ControlFlow<()> {
        let mut rest = stream;
        while !rest.is_empty() {
            match self.state.offer(self.buf, &rest[..size.min(rest.len())]) {
                Ok(count @ 1..) => rest = &rest[count.min(rest.len())..],
                _ => return ControlFlow::Break(()),
            }
            self.drain()?;
        }
        ControlFlow::Continue(())
    }

    // One stream: the bytes so many times, and its end.
    fn once(&mut self, stream: &[u8], size: usize, times: u32) -> ControlFlow<()> {
        self.state = reader::open(0, self.buf).state;
        for _ in 0..times {
            self.pass(stream, size)?;
        }
        // A state that cannot be closed is told by next.
        let mut state = self.state;
        let _ = state.close(self.buf);
        self.state = state;
        self.drain()
    }
}

// Reads until the bytes are full or no more come, and answers how many did.
fn read_full(mut stdin: Stdin, bytes: &mut [u8]) -> usize
    ensures { result ≤ length bytes.new }
{
    let mut done = 0;
    while let Ok(count @ 1..) = stdin.read(&mut bytes[done..]) {
        done += count;
    }
    done
}

// The three numbers in front, each of four bytes, lowest first, of which those that do not come are zeros. They are read at once: where the
// input ends inside them, the stream begins behind them.
fn read_head(stdin: Stdin) -> [u32; 3] {
    let mut head = [0; 12];
    read_full(stdin, &mut head);
    let [a, b, c, d, e, f, g, h, i, j, k, l] = head;
    [[a, b, c, d], [e, f, g, h], [i, j, k, l]].map(u32::from_le_bytes)
}

fn run(rt: HostRuntime, buf: &mut [u8], stream: &mut [u8]) {
    let stdin = rt.stdin();
    let [size, count, times] = read_head(stdin);
    let n = read_full(stdin, stream);
    let state = reader::open(0, buf).state;
    let mut rounds = Rounds {
        buf,
        state,
        records: 0,
        readings: 0,
    };
    for _ in 0..count {
        let _ = rounds.once(&stream[..n], size as usize, times);
    }
    // What cannot be written is told nowhere.
    let _ = println!(rt; "records {} readings {}", rounds.records, rounds.readings);
}

fn main(rt: HostRuntime) {
    let mut buf = [0u8; 65536];
    let mut stream = [0u8; 65536];
    run(rt, &mut buf, &mut stream);
}
