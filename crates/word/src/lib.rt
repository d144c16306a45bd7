// Eight bytes as one number, and the lowest mark in such a number. specs/Word.antt says what the number is.
#![tactic(auto)]

ghost use Rattle.std.specs.Prelude.{◌≡◌, ◌+◌, ◌/◌, ◌≤◌, ◌<◌, length};
ghost use Rattle.std.specs.Int.Count.{count_trailing_zeros};
ghost use Rattle.word.specs.Word.{word_at};

// As `word_at`, where the bytes end before the eighth.
fn word_cut(s: &[u8], p: usize) -> u64
    requires { length s.now < p + 8 }
    ensures { result ≡ word_at 8 s.now p }
{
    let mut w = 0;
    for q in (p..s.len()).rev() {
        w = w * 256 + u64::from(s[q]);
    }
    w
}

// The eight bytes from `p` on as one number, lowest first; behind the end of the slice each is 0.
pub fn word_at(s: &[u8], p: usize) -> u64
    ensures { result ≡ word_at 8 s.now p }
{
    // To settle: as one condition with `||`, flat binary takes 1.02 and integers 1.03 of the instructions, and no goal is missed.
    if s.len() < 8 {
        return word_cut(s, p);
    }
    if s.len() - 8 < p {
        return word_cut(s, p);
    }
    u64::from_le_bytes(*s[p..p + 8].as_array().unwrap())
}

// How many bytes stand before the lowest mark; 8 where there is none.
pub fn low_mark(m: u64) -> usize
    ensures { (result ≡ count_trailing_zeros 64 m / 8) × (result ≤ 8) }
{
    (m.trailing_zeros() / 8) as usize
}
