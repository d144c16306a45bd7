// Eight bytes at once: a mark for each that is of a kind. specs/Classes.antt says what the kinds are, specs/Word.antt of crate `word` how
// a number marks its bytes.
#![tactic(auto)]

ghost use Rattle.std.specs.Prelude.{◌≡◌, ◌+◌};
ghost use Rattle.std.specs.Int.Bits.{bit_and, bit_or};
ghost use Rattle.word.specs.Word.{marks_at};
ghost use Rattle.marks.specs.Classes.{is_byte, is_quote, is_other, no_letter};

// The top bit of each byte of a word, and the seven others.
const TOPS: u64 = 0x8080_8080_8080_8080;

const LOWS: u64 = 0x7f7f_7f7f_7f7f_7f7f;

// The top bit of each byte that is not 0; the other bits say nothing.
fn filled(x: u64) -> u64
    ensures { result ≡ bit_or (bit_and x 9187201950435737471 + 9187201950435737471) x }
{
    ((x & LOWS) + LOWS) | x
}

// A mark in the top bit of each of eight bytes that is `b`.
pub fn byte_marks(s: &[u8], p: usize, b: u8) -> u64
    ensures { result ≡ marks_at (is_byte b) 8 s.now p }
{
    let w = word::word_at(s, p);
    let f = filled(w ^ (u64::from(b) * 0x0101_0101_0101_0101));
    !f & TOPS
}

// A mark in the top bit of each of eight bytes that is a quote or a backslash.
pub fn quote_marks(s: &[u8], p: usize) -> u64
    ensures { result ≡ marks_at is_quote 8 s.now p }
{
    let w = word::word_at(s, p);
    let f = filled(w ^ 0x2222_2222_2222_2222) & filled(w ^ 0x5c5c_5c5c_5c5c_5c5c);
    !f & TOPS
}

// A mark in the top bit of each of eight bytes that is no digit.
pub fn other_marks(s: &[u8], p: usize) -> u64
    ensures { result ≡ marks_at is_other 8 s.now p }
{
    let w = word::word_at(s, p);
    let y = w & LOWS;
    let from = y + 0x5050_5050_5050_5050;
    let over = y + 0x4646_4646_4646_4646;
    let f = from & !over & !w;
    !f & TOPS
}

// A mark in the top bit of each of eight bytes that is no letter.
pub fn letter_marks(s: &[u8], p: usize) -> u64
    ensures { result ≡ marks_at no_letter 8 s.now p }
{
    let w = word::word_at(s, p);
    let z = (w & LOWS) | 0x2020_2020_2020_2020;
    let from = z + 0x1f1f_1f1f_1f1f_1f1f;
    let over = z + 0x0505_0505_0505_0505;
    let f = from & !(over | w);
    !f & TOPS
}
