// Fast searches in bytes: the first place from a place on with a byte of a kind, or the end. specs/First.antt says what that is, byte by
// byte. Here eight bytes are looked at by their marks, which crate `marks` makes, and long runs are passed by blocks of 32 bytes.
#![tactic(auto)]

ghost use Rattle.std.specs.Prelude.{◌≡◌, ◌+◌, ◌≤◌, ◌<◌, ℕ, Bool, length};
ghost use Rattle.marks.specs.Classes.{is_byte, is_quote, is_other};
ghost use Rattle.word.specs.Word.{marks_at};
ghost use Rattle.search.specs.First.{first_from, Before, is_joint, is_edge};

// A kind of byte that is looked for.
trait Class: Copy {
    ghost is: { Self → ℕ → Bool };

    // Whether a byte is of the kind.
    fn holds(self, b: u8) -> bool
        ensures { result ≡ is self b };
}

// One that eight bytes at once are marked by.
trait Marked: Class {
    // A mark in the top bit of each of the eight bytes from `p` on that is of the kind.
    fn marks(self, s: &[u8], p: usize) -> u64
        ensures { result ≡ marks_at (Self.is self) 8 s.now p };
}

// This byte.
#[derive(Clone, Copy)]
struct Byte {
    byte: u8,
}

impl Class for Byte {
    ghost is = { λ k b. is_byte k.byte b };

    fn holds(self, b: u8) -> bool {
        b == self.byte
    }
}

impl Marked for Byte {
    fn marks(self, s: &[u8], p: usize) -> u64 {
        marks::byte_marks(s, p, self.byte)
    }
}

// A quote or a backslash.
#[derive(Clone, Copy)]
struct Quote;

impl Class for Quote {
    ghost is = { λ _ b. is_quote b };

    fn holds(self, b: u8) -> bool {
        (b == b'"') | (b == b'\\')
    }
}

impl Marked for Quote {
    fn marks(self, s: &[u8], p: usize) -> u64 {
        marks::quote_marks(s, p)
    }
}

// No digit.
#[derive(Clone, Copy)]
struct Other;

impl Class for Other {
    ghost is = { λ _ b. is_other b };

    fn holds(self, b: u8) -> bool {
        !((b'0' <= b) & (b <= b'9'))
    }
}

impl Marked for Other {
    fn marks(self, s: &[u8], p: usize) -> u64 {
        marks::other_marks(s, p)
    }
}

// No letter, digit, `_`, `-` or `.`: no unquoted string runs over it.
#[derive(Clone, Copy)]
struct Edge;

impl Class for Edge {
    ghost is = { λ _ b. is_edge b };

    fn holds(self, b: u8) -> bool {
        let letter = ((b'A' <= b) & (b <= b'Z')) | ((b'a' <= b) & (b <= b'z'));
        !(letter | is_joint(b))
    }
}

// The first place from `at` on with a byte of a kind, or the end; `at` itself where it lies beyond the slice. Byte by byte.
fn by_bytes<C: Class>(s: &[u8], at: usize, class: C) -> usize
    ensures { result ≡ first_from (C.is class) s.now at }
{
    for p in at..s.len() {
        if class.holds(s[p]) {
            return p;
        }
    }
    at.max(s.len())
}

// The same by words of eight bytes.
fn by_words<C: Marked>(s: &[u8], at: usize, class: C) -> usize
    ensures { result ≡ first_from (C.is class) s.now at }
{
    if s.len() < 8 {
        return by_bytes(s, at, class);
    }
    let last = s.len() - 8;
    let mut p = at;
    // To settle, since not timed: over `chunks_exact(8)` quotes take 1.03 to 1.15 of the instructions and bytes up to 1.28, over
    // `step_by(8)` up to 1.36.
    while p <= last {
        let m = class.marks(s, p);
        if m != 0 {
            return p + word::low_mark(m);
        }
        p += 8;
    }
    by_bytes(s, p, class)
}

// 0 if none of the 32 bytes from `p` on is a quote or a backslash. Each is counted by itself, so that 16 bytes are compared at once.
// To settle, since not timed: by `any` over the 32 bytes a run stops at the first, and bytes are compared one by one: up to 2.06 of the
// instructions. As one function with `byte_in_32` over a class, quoted strings take 1.08 to 1.21.
fn quote_in_32(s: &[u8], p: usize) -> u8
    requires { p + 32 ≤ length s.now }
    ensures { result ≡ 0 → first_from is_quote s.now (p + 32) ≡ first_from is_quote s.now p }
{
    let mut quotes: u8 = 0;
    let mut backslashes: u8 = 0;
    for i in 0..32 {
        let b = s[p + i];
        quotes |= u8::from(b == b'"');
        backslashes |= u8::from(b == b'\\');
    }
    quotes | backslashes
}

// A place from `at` on, behind blocks of 32 bytes that hold no quote and no backslash.
fn past_unquoted(s: &[u8], at: usize) -> usize
    ensures { first_from is_quote s.now result ≡ first_from is_quote s.now at }
{
    if s.len() < 32 {
        return at;
    }
    let last = s.len() - 32;
    let mut p = at;
    // To settle, since not timed: over `chunks_exact(32)` quotes take 1.05 to 1.11 of the instructions.
    while p <= last {
        if quote_in_32(s, p) != 0 {
            return p;
        }
        p += 32;
    }
    p
}

// The first place from `at` on with a quote or a backslash, or the end; `at` itself where it lies beyond the slice.
pub fn find_quote(s: &[u8], at: usize) -> usize
    ensures { result ≡ first_from is_quote s.now at }
{
    by_words(s, past_unquoted(s, at), Quote)
}

// 0 if none of the 32 bytes from `p` on is `b`.
// Kept: 32 bytes by a place, here and in the two like it, since their clauses speak of places in the whole slice.
fn byte_in_32(s: &[u8], p: usize, b: u8) -> u8
    requires { p + 32 ≤ length s.now }
    ensures { result ≡ 0 → first_from (is_byte b) s.now (p + 32) ≡ first_from (is_byte b) s.now p }
{
    let mut found: u8 = 0;
    for i in 0..32 {
        found |= u8::from(s[p + i] == b);
    }
    found
}

// How many of the eight bytes from `p` on stand before the first that is `b`.
fn before_in_8(s: &[u8], p: usize, b: u8) -> usize
    requires { p + 8 ≤ length s.now }
    ensures { Before (is_byte b) s.now p 8 result }
{
    word::low_mark(marks::byte_marks(s, p, b))
}

// What stands before the first, where `a` of eight bytes do, and `rest` of those behind them.
fn joined(a: usize, rest: usize) -> usize
    requires { rest ≤ 24 }
    ensures { (a < 8 → result ≡ a) × (a ≡ 8 → result ≡ 8 + rest) }
{
    if a < 8 {
        return a;
    }
    8 + rest
}

// How many of the 32 bytes from `p` on stand before the first that is `b`. All are compared at once, and where one is there all four words
// are read, so that nothing depends on guessing which of them has it.
fn before_in_32(s: &[u8], p: usize, b: u8) -> usize
    requires { p + 32 ≤ length s.now }
    ensures { Before (is_byte b) s.now p 32 result }
{
    if byte_in_32(s, p, b) == 0 {
        return 32;
    }
    let first = before_in_8(s, p, b);
    let second = before_in_8(s, p + 8, b);
    let third = before_in_8(s, p + 16, b);
    let fourth = before_in_8(s, p + 24, b);
    joined(first, joined(second, joined(third, fourth)))
}

// The first place from `at` on with the byte `b`, or the end; `at` itself where it lies beyond the slice.
pub fn find_byte(s: &[u8], at: usize, b: u8) -> usize
    ensures { result ≡ first_from (is_byte b) s.now at }
{
    if s.len() < 32 {
        return by_words(s, at, Byte { byte: b });
    }
    let last = s.len() - 32;
    let mut place = at;
    // To settle, since not timed: over `chunks_exact(32)` it takes 1.16 to 2.6 of the instructions.
    while place <= last {
        let n = before_in_32(s, place, b);
        if n < 32 {
            return place + n;
        }
        place += 32;
    }
    by_words(s, place, Byte { byte: b })
}

// The first place from `at` on with no digit, or the end; `at` itself where it lies beyond the slice.
pub fn find_other(s: &[u8], at: usize) -> usize
    ensures { result ≡ first_from is_other s.now at }
{
    by_words(s, at, Other)
}

// Whether an unquoted string runs over a byte that is no letter.
fn is_joint(b: u8) -> bool
    ensures { result ≡ is_joint b }
{
    ((b'0' <= b) & (b <= b'9')) | ((b == b'_') | ((b == b'-') | (b == b'.')))
}

// The first place from `at` on with no letter, digit, `_`, `-` or `.`, or the end; `at` itself where it lies beyond the slice. Letters are
// passed by words of eight.
pub fn find_edge(s: &[u8], at: usize) -> usize
    ensures { result ≡ first_from is_edge s.now at }
{
    if s.len() < 8 {
        return by_bytes(s, at, Edge);
    }
    let last = s.len() - 8;
    let mut p = at;
    // Kept: a step is a word or the place behind a joint, so no iterator gives the places.
    while p <= last {
        let m = marks::letter_marks(s, p);
        if m == 0 {
            p += 8;
        } else {
            let q = p + word::low_mark(m);
            if !is_joint(s[q]) {
                return q;
            }
            p = q + 1;
        }
    }
    by_bytes(s, p, Edge)
}
