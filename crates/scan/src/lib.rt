// Where does the next value end, and is there a whole one at all? The automaton of crate `automaton`, run by specs/Walk, decides (`scan_of`).
// Each token that is passed is read once, or twice where it is a key before a block, and no value is made of it; the one at which a scan
// stops is read again, to say why. The private functions answer the end of a part; where the part is not whole they answer none, and `why`
// says why.
#![tactic(auto)]

ghost use Rattle.std.specs.Prelude.{◌≡◌, ℕ, ◌+◌, true, false, ◌⊎◌, ◌≤◌, ◌<◌, length};
ghost use Rattle.refusal.specs.Meaning.{why_number, unwhole_meaning};
ghost use Rattle.refusal.specs.declared.Format.TheVariants.{Binary, Text};
ghost use Rattle.token.specs.Ends.{string_end, scalar_end};
ghost use Rattle.lexer.specs.Lexer.{kind_at, skip_of};
ghost use Rattle.automaton.specs.Limit.{most_open};
ghost use Rattle.scan.specs.Walk.{scan_of};
ghost use Rattle.scan.specs.Meaning.{scan_meaning};
ghost use Rattle.scan.specs.Post.{answer_of, why_of, Tree, Begun, Pair, Items, Along, Pairs};

use refusal::{Format, Refusal, Unread, Unwhole, Why};
use std::marker::Model;
use token::Placed;

// How many blocks may be open at once.
const MOST_OPEN: usize = 128;

// How many blocks stand open around a part: MOST_OPEN at most.
#[derive(Clone, Copy)]
struct Depth {
    blocks: usize,
}

impl Model for Depth {
    ghost Value = { ℕ };

    ghost view = { λ d. d.blocks };

    ghost invariant = { λ d. d.blocks ≤ most_open };

    ghost inverse = { λ n. record { blocks = n } };
}

impl Depth {
    // No block stands open.
    fn outermost() -> Self
        ensures { result ≡ 0 }
    {
        Depth { blocks: 0 }
    }

    // May no block more be opened?
    fn is_full(self) -> bool
        ensures { (result ≡ true → self ≡ most_open) × (result ≡ false → self < most_open) }
    {
        self.blocks == MOST_OPEN
    }

    // In one block more.
    // Kept: `is_full` beside it and not an Option as the answer, which each caller would match to refuse: no plainer, and tiny records took
    // 1.08 of the time.
    fn deeper(self) -> Self
        requires { self < most_open }
        ensures { result ≡ self + 1 }
    {
        Depth {
            blocks: self.blocks + 1,
        }
    }
}

// What the scan for one value answers: how many bytes it takes, with what is ignored before it, or why there is no whole one.
pub type Scan = Result<usize, Unwhole>;

// The length of the first value of the input. The input is only read, so a refusal leaves nothing behind.
pub fn scan_value(input: &[u8], format: Format) -> Scan
    ensures { scan_meaning result ≡ scan_of format input.now }
{
    // To settle: with a Result out of each private function, deep mixed took 0.47 of the Rust's time, in a second form 0.46, and deep lists
    // 0.48 (the aim is 0.45). A third form, with attributes passed in a loop, took 0.43 and 0.44, which meets it, and is not proved yet.
    let mut why = Unwhole::Incomplete;
    let p = lexer::skip(input, 0, format);
    match scan_begun(input, p, Depth::outermost(), false, format, &mut why) {
        Some(len) => Ok(len),
        None => Err(why),
    }
}

// Why no part goes on at the token at `p`: the token is not whole, or it is and it is not due, which is refused as `wrong`. The token is
// read again here, by the full reader; this is called at most once in a scan.
fn stop_at(input: &[u8], p: usize, wrong: Why, format: Format) -> Unwhole
    requires { p < length input.now }
    ensures { unwhole_meaning result ≡ why_of (why_number wrong) (kind_at format input.now p) }
{
    match lexer::next_token(input, p, format) {
        Ok(Placed { next, .. }) => Unwhole::Refused(wrong.at(next)),
        Err(Unread::Refused(refusal)) => Unwhole::Refused(refusal),
        Err(Unread::Incomplete) => Unwhole::Incomplete,
        Err(Unread::Beyond) => Unwhole::Incomplete,
    }
}

// The same as a part's answer: none, and `why` says why.
// Kept out of its callers, by the hints too: with it there, each part would begin by clearing room for this answer.
#[cold]
#[inline(never)]
fn stopped(input: &[u8], p: usize, wrong: Why, format: Format, why: &mut Unwhole) -> Option<usize>
    requires { p < length input.now }
    ensures { answer_of result why.new ≡ why_of (why_number wrong) (kind_at format input.now p) }
{
    *why = stop_at(input, p, wrong, format);
    None
}

// A value: at most one attribute block, and then a scalar, a list or a map.
// Kept: a struct of input and format by value took 1.21 of the instructions on deep lists; by reference 1.03, with longer clauses.
#[cycle(values)]
fn scan_tree(
    input: &[u8],
    at: usize,
    depth: Depth,
    format: Format,
    why: &mut Unwhole,
) -> Option<usize>
    ensures { Tree format input.now at depth (answer_of result why.new) }
{
    let p = lexer::skip(input, at, format);
    scan_begun(input, p, depth, false, format, why)
}

// Does a map or an attribute block start with this byte?
fn opens_pairs(b: u8) -> bool
    ensures { (result ≡ true → (b ≡ 0x3C) ⊎ (b ≡ 0x7B)) × (result ≡ false → (b ≡ 0x3C → ⊥) × (b ≡ 0x7B → ⊥)) }
{
    b == b'<' || b == b'{'
}

// Does an attribute block start with it?
fn opens_attributes(b: u8) -> bool
    ensures { (result ≡ true → b ≡ 0x3C) × (result ≡ false → b ≡ 0x3C → ⊥) }
{
    b == b'<'
}

// Does an attribute block start with it where one was passed already?
fn second_attributes(b: u8, passed: bool) -> bool
    ensures { (result ≡ true → (b ≡ 0x3C) × (passed ≡ true)) × (result ≡ false → b ≡ 0x3C → passed ≡ false) }
{
    b == b'<' && passed
}

// The value whose first token stands at `p`; where `passed`, behind its attributes.
#[cycle(values)]
fn scan_begun(
    input: &[u8],
    p: usize,
    depth: Depth,
    passed: bool,
    format: Format,
    why: &mut Unwhole,
) -> Option<usize>
    requires { skip_of format input.now p ≡ p }
    ensures { Begun format input.now p depth passed (answer_of result why.new) }
{
    if input.len() <= p {
        *why = Unwhole::Incomplete;
        return None;
    }
    let b = input[p];
    if b == b'[' {
        if depth.is_full() {
            *why = Unwhole::Refused(Refusal {
                why: Why::TooDeep,
                place: p,
            });
            return None;
        }
        return scan_list(input, p + 1, depth.deeper(), format, why);
    }
    if second_attributes(b, passed) {
        return stopped(input, p, Why::NotValue, format, why);
    }
    if opens_pairs(b) {
        if depth.is_full() {
            *why = Unwhole::Refused(Refusal {
                why: Why::TooDeep,
                place: p,
            });
            return None;
        }
        let attributes = opens_attributes(b);
        let end = scan_fragment(input, p + 1, depth.deeper(), attributes, format, why)?;
        if attributes {
            let o = lexer::skip(input, end, format);
            return scan_attributed(input, o, depth, format, why);
        }
        return Some(end);
    }
    let Some(end) = lexer::scalar_end(input, p, format) else {
        return stopped(input, p, Why::NotValue, format, why);
    };
    Some(end)
}

// The value behind an attribute block, whose first token stands at `p`.
#[cycle(values)]
fn scan_attributed(
    input: &[u8],
    p: usize,
    depth: Depth,
    format: Format,
    why: &mut Unwhole,
) -> Option<usize>
    requires { skip_of format input.now p ≡ p }
    ensures { Begun format input.now p depth true (answer_of result why.new) }
{
    scan_begun(input, p, depth, true, format, why)
}

// The rest of a list, up to and with its `]`.
#[cycle(values)]
fn scan_list(
    input: &[u8],
    from: usize,
    depth: Depth,
    format: Format,
    why: &mut Unwhole,
) -> Option<usize>
    ensures { Items format input.now from depth (answer_of result why.new) }
{
    let mut at = from;
    loop {
        let p = lexer::skip(input, at, format);
        if input.len() <= p {
            *why = Unwhole::Incomplete;
            return None;
        }
        let b = input[p];
        if b == b']' {
            return Some(p + 1);
        }
        if b == b';' {
            at = p + 1;
        } else {
            // Most items are scalars, so they are tried before the call; a block's first byte is enough to answer none here.
            at = match lexer::scalar_end(input, p, format) {
                Some(end) => end,
                None => scan_begun(input, p, depth, false, format, why)?,
            };
        }
    }
}

// The place after all the whole pairs of a short key and a scalar that follow one another in binary, each with its separator.
// Kept out of the parts that call one another by the hint, as `past_text` is, so that these need little room on the stack.
#[inline(never)]
fn past_flat(input: &[u8], from: usize) -> usize
    ensures { Along Binary input.now from result }
{
    let mut at = from;
    loop {
        let Some(key) = binary_ends::short_string_end(input, at) else {
            return at;
        };
        if input.len() <= key {
            return at;
        }
        if input[key] != b'=' {
            return at;
        }
        let Some(end) = binary_ends::scalar_end(input, key + 1) else {
            return at;
        };
        if input.len() <= end {
            return end;
        }
        if input[end] != b';' {
            return end;
        }
        at = end + 1;
    }
}

// The place after the key at a place of a text, where a whole string stands. Most keys are unquoted, and a letter there needs no look
// for blanks.
fn key_end(input: &[u8], at: usize) -> Option<usize>
    ensures { result ≡ string_end (kind_at Text input.now at) }
{
    if at < input.len() {
        if words::is_letter(input[at]) {
            return Some(words::plain_end(input, at));
        }
    }
    let p = lexer::skip(input, at, Format::Text);
    if p < input.len() {
        if words::is_letter(input[p]) {
            return Some(words::plain_end(input, p));
        }
    }
    lexer::string_end(input, p, Format::Text)
}

// The place after the scalar at a place of a text, where a whole one stands. Most are quoted.
fn value_end(input: &[u8], at: usize) -> Option<usize>
    ensures { result ≡ scalar_end (kind_at Text input.now at) }
{
    let p = lexer::skip(input, at, Format::Text);
    if p < input.len() {
        if input[p] == b'"' {
            return quoted::quoted_end(input, p);
        }
    }
    lexer::scalar_end(input, p, Format::Text)
}

// The same in text, where a key may be long and blanks and comments may stand between.
#[inline(never)]
fn past_text(input: &[u8], from: usize) -> usize
    ensures { Along Text input.now from result }
{
    let mut at = from;
    loop {
        let Some(key) = key_end(input, at) else {
            return at;
        };
        let p = lexer::skip(input, key, Format::Text);
        if input.len() <= p {
            return at;
        }
        if input[p] != b'=' {
            return at;
        }
        let Some(end) = value_end(input, p + 1) else {
            return at;
        };
        let q = lexer::skip(input, end, Format::Text);
        if input.len() <= q {
            return end;
        }
        if input[q] != b';' {
            return end;
        }
        at = q + 1;
    }
}

// The same in either format.
fn past_pairs(input: &[u8], at: usize, format: Format) -> usize
    ensures { Along format input.now at result }
{
    match format {
        Format::Binary => past_flat(input, at),
        Format::Text => past_text(input, at),
    }
}

// The rest of a map, up to and with its `}`, or of an attribute block, to its `>`.
#[cycle(values)]
fn scan_fragment(
    input: &[u8],
    from: usize,
    depth: Depth,
    attributes: bool,
    format: Format,
    why: &mut Unwhole,
) -> Option<usize>
    ensures { Pairs format input.now from depth attributes (answer_of result why.new) }
{
    let mut at = from;
    loop {
        let q = past_pairs(input, at, format);
        let p = lexer::skip(input, q, format);
        if input.len() <= p {
            *why = Unwhole::Incomplete;
            return None;
        }
        let b = input[p];
        if b == b'}' {
            if attributes {
                return stopped(input, p, Why::NotKey, format, why);
            }
            return Some(p + 1);
        }
        if b == b'>' {
            if attributes {
                return Some(p + 1);
            }
            return stopped(input, p, Why::NotKey, format, why);
        }
        if b == b';' {
            at = p + 1;
        } else {
            let Some(key) = lexer::string_end(input, p, format) else {
                return stopped(input, p, Why::NotKey, format, why);
            };
            at = scan_pair(input, key, depth, format, why)?;
        }
    }
}

// What stands behind a key: `=` and a value.
#[cycle(values)]
fn scan_pair(
    input: &[u8],
    at: usize,
    depth: Depth,
    format: Format,
    why: &mut Unwhole,
) -> Option<usize>
    ensures { Pair format input.now at depth (answer_of result why.new) }
{
    let p = lexer::skip(input, at, format);
    if input.len() <= p {
        *why = Unwhole::Incomplete;
        return None;
    }
    if input[p] == b'=' {
        return scan_tree(input, p + 1, depth, format, why);
    }
    stopped(input, p, Why::NotEquals, format, why)
}
