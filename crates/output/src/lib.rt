// Text put into a lent buffer, for programs that print much: what does the buffer hold, and up to where?
// A count goes in and comes back by value, or stands beside the buffer in a `Text`. What does not fit is not put at all (specs/Put.antt).
#![tactic(auto)]

ghost use Rattle.std.specs.Prelude.{◌≡◌, ℕ, ◌+◌, ◌≤◌, length, SomeIff};
ghost use Rattle.output.specs.Digits.{last_digits, IsDigitCount};
ghost use Rattle.output.specs.Put.{put, after, Decimal};

// The place after `more` bytes at n, where they fit into `len` bytes.
fn end_within(len: usize, n: usize, more: usize) -> Option<usize>
    ensures { SomeIff result (n + more ≤ len) (n + more) }
{
    n.checked_add(more).filter(|&end| end <= len)
}

// Copies w into out from n on and answers the place after it; where it does not fit, writes nothing and answers n.
pub fn put_word(out: &mut [u8], n: usize, w: &[u8]) -> usize
    ensures { (result ≡ after out.old n w.now) × (out.new ≡ put out.old n w.now) }
{
    let Some(end) = end_within(out.len(), n, w.len()) else {
        return n;
    };
    out[n..end].copy_from_slice(w);
    end
}

// How many decimal digits x has, of which 0 has one.
fn digit_count(x: u64) -> usize
    ensures { IsDigitCount 10 1 x result }
{
    match x.checked_ilog10() {
        Some(power) => power as usize + 1,
        None => 1,
    }
}

// Fills out with x's last decimal digits.
fn put_digits(out: &mut [u8], x: u64)
    ensures { (k : ℕ) → k ≡ length out.old → out.new ≡ last_digits 10 k x }
{
    let mut rest = x;
    for i in (0..out.len()).rev() {
        out[i] = b'0' + (rest % 10) as u8;
        rest /= 10;
    }
}

// The same as `put_word`, of x's decimal digits.
pub fn put_decimal(out: &mut [u8], n: usize, x: u64) -> usize
    ensures { Decimal out.old n x result out.new }
{
    let Some(end) = end_within(out.len(), n, digit_count(x)) else {
        return n;
    };
    put_digits(&mut out[n..end], x);
    end
}

// A lent buffer and how much of it is filled.
#[derive(Drop)]
pub struct Text<'a> {
    pub bytes: &'a mut [u8],
    pub filled: usize,
}

impl<'a> Text<'a> {
    // The buffer, of which nothing is filled.
    pub fn new(bytes: &'a mut [u8]) -> Text<'a>
        ensures filled { result.filled ≡ 0 }
        ensures bytes { result.bytes.now ≡ bytes.old }
        ensures same_reference { result.bytes.ghost_name ≡ bytes.entry.ghost_name }
    {
        Text { bytes, filled: 0 }
    }

    // Puts the word after what is filled, by `put_word`.
    pub fn put(&mut self, word: &[u8])
        ensures filled { self.new.filled ≡ after self.old.bytes.now self.old.filled word.now }
        ensures bytes { self.new.bytes.now ≡ put self.old.bytes.now self.old.filled word.now }
        ensures same_reference { self.new.bytes.ghost_name ≡ self.old.bytes.ghost_name }
    {
        let bytes = &mut *self.bytes;
        self.filled = put_word(bytes, self.filled, word);
    }

    // Puts x's decimal digits after what is filled, by `put_decimal`.
    pub fn put_decimal(&mut self, x: u64)
        ensures decimal { Decimal self.old.bytes.now self.old.filled x self.new.filled self.new.bytes.now }
        ensures same_reference { self.new.bytes.ghost_name ≡ self.old.bytes.ghost_name }
    {
        let bytes = &mut *self.bytes;
        self.filled = put_decimal(bytes, self.filled, x);
    }
}
