// Varints, read and written: where does the number end that starts here, and what is it?
// The definitions are `uvarint_at` and `varint_at` (specs/Varint.antt, specs/Signed.antt) for reading and `encode` (specs/Write.antt)
// for writing, from the Protocol Buffers encoding document.
#![tactic(auto)]

ghost use Rattle.std.specs.Prelude.{◌≡◌, ◌≤◌, length, take, drop};
ghost use Rattle.varint.specs.Varint.{run, number, uvarint_at, uvarint_end};
ghost use Rattle.zigzag.specs.Zigzag.{zigzag};
ghost use Rattle.varint.specs.Signed.{varint_at};
ghost use Rattle.varint.specs.Write.{encode, write_answer, write_bytes};
ghost use Rattle.varint.specs.Meaning.{uvarint_meaning, varint_meaning, written_meaning};

use refusal::{Unread, Why};

// A number that was read, and the place after its last byte.
#[derive(Clone, Copy, Debug, PartialEq, Eq)]
pub struct Varint<T> {
    pub value: T,
    pub next: usize,
}

// 27: the output is too short, and keeps its bytes.
#[derive(Clone, Copy, Debug, PartialEq, Eq)]
pub struct ShortOutput;

// The unsigned varint that starts at `at` with nine bytes that have the top bit set, whose number is `value`.
fn tenth(input: &[u8], at: usize, value: u64) -> Result<Varint<u64>, Unread>
    requires { (9 ≤ run (drop at input.now)) × (value ≡ number (take 9 (drop at input.now))) }
    ensures { uvarint_meaning result ≡ uvarint_at input.now at }
{
    let left = input.len() - at;
    if left <= 9 {
        return Err(Unread::Incomplete);
    }
    let last = u64::from(input[at + 9]);
    if 1 < last % 128 {
        return Err(Unread::Refused(Why::WideVarint.at(at)));
    }
    if last < 128 {
        return Ok(Varint {
            value: value + last * 0x8000_0000_0000_0000,
            next: at + 10,
        });
    }
    if left <= 10 {
        return Err(Unread::Incomplete);
    }
    Err(Unread::Refused(Why::LongVarint.at(at)))
}

// The unsigned varint that starts at `at`. A refusal carries `at`.
pub fn read_uvarint(input: &[u8], at: usize) -> Result<Varint<u64>, Unread>
    ensures { uvarint_meaning result ≡ uvarint_at input.now at }
{
    if input.len() < at {
        return Err(Unread::Beyond);
    }
    let left = input.len() - at;
    let mut value: u64 = 0;
    let mut weight: u64 = 1;
    for i in 0..9 {
        if left <= i {
            return Err(Unread::Incomplete);
        }
        let b = u64::from(input[at + i]);
        value += b % 128 * weight;
        if b < 128 {
            return Ok(Varint {
                value,
                next: at + i + 1,
            });
        }
        weight *= 128;
    }
    tenth(input, at, value)
}

// The place after the varint that starts at `at` with nine bytes that have the top bit set, where a whole one stands.
fn tenth_end(input: &[u8], at: usize) -> Option<usize>
    requires { 9 ≤ run (drop at input.now) }
    ensures { result ≡ uvarint_end (uvarint_at input.now at) }
{
    let left = input.len() - at;
    if left <= 9 {
        return None;
    }
    if input[at + 9] < 2 {
        return Some(at + 10);
    }
    None
}

// The place after the varint that starts at `at`, whose number is not asked for, where a whole one stands.
pub fn uvarint_end(input: &[u8], at: usize) -> Option<usize>
    ensures { result ≡ uvarint_end (uvarint_at input.now at) }
{
    if input.len() < at {
        return None;
    }
    let left = input.len() - at;
    for i in 0..9 {
        if left <= i {
            return None;
        }
        if input[at + i] < 128 {
            return Some(at + i + 1);
        }
    }
    tenth_end(input, at)
}

// The signed varint that starts at `at`. A refusal carries `at`.
pub fn read_varint(input: &[u8], at: usize) -> Result<Varint<i64>, Unread>
    ensures { varint_meaning result ≡ varint_at input.now at }
{
    let Varint { value, next } = read_uvarint(input, at)?;
    Ok(Varint {
        value: zigzag::unzigzag(value),
        next,
    })
}

// How many bytes the shortest form of a number has.
fn uvarint_len(value: u64) -> usize
    ensures { result ≡ length (encode value) }
{
    let mut rest = value;
    let mut n: usize = 1;
    while 128 <= rest {
        rest /= 128;
        n += 1;
    }
    n
}

// The shortest form of a number, at the front of the output. A refusal writes nothing.
pub fn write_uvarint(value: u64, out: &mut [u8]) -> Result<usize, ShortOutput>
    ensures answer { written_meaning result ≡ write_answer (length out.old) value }
    ensures bytes { out.new ≡ write_bytes out.old value }
{
    let n = uvarint_len(value);
    if out.len() < n {
        return Err(ShortOutput);
    }
    let mut rest = value;
    for p in 0..n - 1 {
        out[p] = (rest % 128 + 128) as u8;
        rest /= 128;
    }
    out[n - 1] = rest as u8;
    Ok(n)
}

// The shortest form of a signed number, at the front of the output. A refusal writes nothing.
pub fn write_varint(value: i64, out: &mut [u8]) -> Result<usize, ShortOutput>
    ensures answer { written_meaning result ≡ write_answer (length out.old) (zigzag value) }
    ensures bytes { out.new ≡ write_bytes out.old (zigzag value) }
{
    write_uvarint(zigzag::to_zigzag(value), out)
}
