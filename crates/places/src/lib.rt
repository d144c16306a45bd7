// The lengths, places and offsets of a stream: 23's test, and those of 28's and 25's that ask numbers alone. Each is a test of
// specs/Places.antt.
#![tactic(auto)]

ghost use Rattle.std.specs.Prelude.{◌≡◌};
ghost use Rattle.places.specs.Places.{is_buffer, places_fit, offset_fits};

// The lengths that a buffer may have.
pub const LEAST_BUFFER: usize = 64;

pub const MOST_BUFFER: usize = 65536;

// The largest stream offset.
pub const MOST_OFFSET: u64 = u64::MAX;

// Whether a buffer may have `n` bytes.
pub fn is_buffer(n: usize) -> bool
    ensures { result ≡ is_buffer n }
{
    (LEAST_BUFFER..=MOST_BUFFER).contains(&n)
}

// Whether a state's lengths and places belong to a buffer of `n` bytes.
pub fn places_fit(len: usize, start: usize, place: usize, filled: usize, n: usize) -> bool
    ensures { result ≡ places_fit len start place filled n }
{
    len == n && is_buffer(n) && start <= place && place <= filled && filled <= n
}

// Whether the stream offset behind `count` bytes from `offset` on is one.
pub fn offset_fits(offset: u64, count: u64) -> bool
    ensures { result ≡ offset_fits offset count }
{
    count <= MOST_OFFSET - offset
}
