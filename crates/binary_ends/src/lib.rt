// Where a binary token ends, for callers that do not ask for its value.
// The definitions are the ends of `binary_from` (specs/Binary.antt of crate `binary`), and `short_string_end` (specs/Short.antt).
#![tactic(auto)]

ghost use Rattle.std.specs.Prelude.{◌≡◌, ◌+◌, ◌/◌, ◌%◌, ◌≤◌, ◌<◌, length, get_or, Some};
ghost use Rattle.std.specs.Int.Bits.{bit_and, bit_xor};
ghost use Rattle.zigzag.specs.Zigzag.{signed};
ghost use Rattle.varint.specs.Signed.{varint_at};
ghost use Rattle.token.specs.Meaning.{kinds_of};
ghost use Rattle.token.specs.Ends.{end_of, string_end, scalar_end};
ghost use Rattle.word.specs.Word.{word_at};
ghost use Rattle.binary.specs.Binary.{of_size, of_length, double_at, marked, binary_from};
ghost use Rattle.binary_ends.specs.Short.{short_string_end};

use varint::Varint;

// The size of a scalar that is not told by the bytes looked at.
// To settle, since not timed: in instructions Option<usize> took 1.07 on flat binary, 1.08 on integers, 1.02 on deep mixed; Option<u8> took
// 1.09, 1.10, 1.03.
const UNKNOWN: usize = 1000;

// The place after a string whose zigzag length was read up to `next`, unless that is below zero or the bytes end before.
fn sized_end(input: &[u8], value: u64, next: usize) -> Option<usize>
    requires { next ≤ length input.now }
    ensures { result ≡ end_of (of_size input.now 0 next (signed value)) }
{
    if value % 2 == 1 {
        return None;
    }
    let len = (value / 2) as usize;
    if input.len() - next < len {
        return None;
    }
    Some(next + len)
}

// The place after the string whose marker stands at `at`, where a whole one does. Most lengths are one byte.
// Kept: `at` and the slice, as in crate binary.
fn string_at_end(input: &[u8], at: usize) -> Option<usize>
    requires { at < length input.now }
    ensures { result ≡ end_of (of_length input.now at (varint_at input.now (at + 1))) }
{
    let p = at + 1;
    if p < input.len() {
        let b = input[p];
        if b < 128 {
            return sized_end(input, u64::from(b), p + 1);
        }
    }
    match varint::read_uvarint(input, p) {
        Ok(Varint { value, next }) => sized_end(input, value, next),
        Err(_) => None,
    }
}

// The place after the double whose marker stands at `at`, unless the bytes end inside it.
fn double_end(input: &[u8], at: usize) -> Option<usize>
    requires { at < length input.now }
    ensures { result ≡ end_of (double_at input.now at) }
{
    if input.len() - at < 9 {
        return None;
    }
    Some(at + 9)
}

// The place after the string token at a place, where a whole one stands.
pub fn string_end(input: &[u8], at: usize) -> Option<usize>
    ensures { result ≡ string_end (kinds_of (binary_from input.now at)) }
{
    if input.len() <= at {
        return None;
    }
    if input[at] == 0x01 {
        return string_at_end(input, at);
    }
    None
}

// The place after the string at a place where one byte holds its length, where such a string stands there whole.
pub fn short_string_end(input: &[u8], at: usize) -> Option<usize>
    ensures { result ≡ short_string_end input.now at }
{
    if input.len() <= at {
        return None;
    }
    if input[at] != 0x01 {
        return None;
    }
    let p = at + 1;
    if input.len() <= p {
        return None;
    }
    let b = input[p];
    if 128 <= b {
        return None;
    }
    sized_end(input, u64::from(b), p + 1)
}

// The size of a string behind its marker, by its length's first byte, which is the whole length where it is below 128.
fn by_length(first: u8) -> usize
    ensures { (result ≡ 1000 → ⊥) → (first % 2 ≡ 0) × (first < 128) × (result ≡ first / 2 + 1) }
{
    if first % 2 == 1 || 128 <= first {
        return UNKNOWN;
    }
    usize::from(first / 2) + 1
}

// The top bit of each of eight bytes that can end a varint, which are those without it.
fn last_marks(input: &[u8], at: usize) -> u64
    ensures { result ≡ bit_xor (bit_and (word_at 8 input.now at) 0x8080808080808080) 0x8080808080808080 }
{
    (word::word_at(input, at) & 0x8080_8080_8080_8080) ^ 0x8080_8080_8080_8080
}

// The marks of a number that is a varint, and for a double one in its eighth byte.
fn marks_for(b: u8, marks: u64) -> u64
    ensures { (b ≡ 2 → result ≡ marks) × (b ≡ 6 → result ≡ marks) × (b ≡ 3 → result ≡ 0x8000000000000000) }
{
    if b % 4 == 2 {
        return marks;
    }
    if b == 0x03 {
        return 0x8000_0000_0000_0000;
    }
    0x80
}

// The size of a number whose last byte has so many before it.
fn by_last(last: usize) -> usize
    requires { last ≤ 8 }
    ensures { (result ≡ 1000 → ⊥) → (last < 8) × (result ≡ last + 1) }
{
    if last == 8 {
        return UNKNOWN;
    }
    last + 1
}

// The same, or 0 behind the marker of a boolean.
fn by_flag(b: u8, size: usize) -> usize
    ensures { (b ≡ 4 → result ≡ 0) × (b ≡ 5 → result ≡ 0) × ((b ≡ 4 → ⊥) → (b ≡ 5 → ⊥) → result ≡ size) }
{
    match b {
        0x04 | 0x05 => 0,
        _ => size,
    }
}

// How many bytes a scalar has behind its marker b, which stands at `at`, as far as the next eight tell. Every kind is computed and one is
// taken, so that nothing depends on guessing the kind.
fn size_of(input: &[u8], b: u8, at: usize) -> usize
    requires { (at + 9 ≤ length input.now) × (0 < b) × (b ≤ 6) }
    ensures { (result ≡ 1000 → ⊥) → at + 1 + result ≤ length input.now → Some (at + 1 + result) ≡ scalar_end (kinds_of (marked input.now at b)) }
{
    let marks = marks_for(b, last_marks(input, at + 1));
    let size = by_flag(b, by_last(word::low_mark(marks)));
    let string = by_length(input[at + 1]);
    if b == 0x01 {
        return string;
    }
    size
}

// The place after the scalar whose marker stands at `at`, one kind after another.
fn marked_end(input: &[u8], at: usize) -> Option<usize>
    requires { (at < length input.now) × (get_or input.now at 0 ≤ 6) }
    ensures { result ≡ scalar_end (kinds_of (binary_from input.now at)) }
{
    match input[at] {
        0x01 => string_at_end(input, at),
        0x02 => varint::uvarint_end(input, at + 1),
        0x03 => double_end(input, at),
        0x04 => Some(at + 1),
        0x05 => Some(at + 1),
        0x06 => varint::uvarint_end(input, at + 1),
        _ => None,
    }
}

// The same by its marker b. A string comes first: one whose length takes more than a byte is the commonest to come here.
fn other_end(input: &[u8], b: u8, at: usize) -> Option<usize>
    requires { (at < length input.now) × (b ≡ get_or input.now at 0) × (b ≤ 6) }
    ensures { result ≡ scalar_end (kinds_of (binary_from input.now at)) }
{
    if b == 0x01 {
        return string_at_end(input, at);
    }
    marked_end(input, at)
}

// The place after the scalar whose marker b stands at `at`. An int64 of one byte comes first, and then what eight bytes tell.
// Put into each caller by the hint, as `scalar_end` is.
#[inline(always)]
fn told_end(input: &[u8], b: u8, at: usize) -> Option<usize>
    requires { (at < length input.now) × (b ≡ get_or input.now at 0) × (0 < b) × (b ≤ 6) }
    ensures { result ≡ scalar_end (kinds_of (binary_from input.now at)) }
{
    let p = at + 1;
    let left = input.len() - p;
    if left < 8 {
        return marked_end(input, at);
    }
    if input[p] / 128 * 128 + b == 0x02 {
        return Some(p + 1);
    }
    let size = size_of(input, b, at);
    if left < size {
        return other_end(input, b, at);
    }
    if size == UNKNOWN {
        return other_end(input, b, at);
    }
    Some(p + size)
}

// The place after the string or other scalar at a place, whose value is not asked for, where a whole one stands.
#[inline(always)]
pub fn scalar_end(input: &[u8], at: usize) -> Option<usize>
    ensures { result ≡ scalar_end (kinds_of (binary_from input.now at)) }
{
    if input.len() <= at {
        return None;
    }
    let b = input[at];
    // To settle: as one match, with `||` in `told_end`, flat binary takes 1.02 and integers 1.03 of the instructions; no goal is missed.
    if 6 < b {
        if b == b'#' {
            return Some(at + 1);
        }
        return None;
    }
    if b == 0 {
        return None;
    }
    told_end(input, b, at)
}

// The place after the token at a place, whatever it is, where a whole one stands.
pub fn token_end(input: &[u8], at: usize) -> Option<usize>
    ensures { result ≡ end_of (binary_from input.now at) }
{
    if let Some(end) = scalar_end(input, at) {
        return Some(end);
    }
    if input.len() <= at {
        return None;
    }
    match input[at] {
        b';' => Some(at + 1),
        b'<' => Some(at + 1),
        b'=' => Some(at + 1),
        b'>' => Some(at + 1),
        b'[' => Some(at + 1),
        b']' => Some(at + 1),
        b'{' => Some(at + 1),
        b'}' => Some(at + 1),
        _ => None,
    }
}
