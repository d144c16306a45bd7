// Signed numbers as numbers of 64 bits, and back: zigzag, and two's complement. specs/Zigzag.antt says what they are, zigzag from the
// Protocol Buffers encoding document.
#![tactic(auto)]

ghost use Rattle.std.specs.Prelude.{◌≡◌};
ghost use Rattle.std.specs.Int.Signed.{mag};
ghost use Rattle.zigzag.specs.Zigzag.{signed, twos, zigzag};

// The signed number of a pattern of 64 bits, in two's complement.
pub fn to_i64(pattern: u64) -> i64
    ensures { result ≡ twos pattern }
{
    pattern.cast_signed()
}

// The signed number of a zigzag number: half of it, exclusive or with nought less its low bit, wrapping at 64 bits.
pub fn unzigzag(n: u64) -> i64
    ensures { result ≡ signed n }
{
    to_i64((n / 2) ^ 0u64.wrapping_sub(n % 2))
}

// The number itself, or -1 less it where it is below nought.
pub fn magnitude(v: i64) -> u64
    ensures { result ≡ mag v }
{
    if v >= 0 { v as u64 } else { (-1 - v) as u64 }
}

// The zigzag number of a signed one.
pub fn to_zigzag(v: i64) -> u64
    ensures { result ≡ zigzag v }
{
    let m = magnitude(v);
    if v >= 0 { m * 2 } else { m * 2 + 1 }
}
