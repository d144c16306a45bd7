// The grammar of number text, by place: each function answers the place behind a part of it, and `None` where a part that may be missing
// is not there. specs/Grammar.antt decides, and specs/Places.antt says how a place stands for what is left behind it.
ghost use Rattle.std.specs.Prelude.{◌≡◌, ◌≤◌, drop, length};
ghost use Rattle.token.specs.Digits.{is_digit};
ghost use Rattle.number.specs.Bytes.{is_minus, is_sign, is_exponent, is_pointed, is_text, starts, any};
ghost use Rattle.number.specs.Grammar.{past, after_sign, mantissa_left, exponent_left, onward, is_double};
ghost use Rattle.number.specs.Places.{Leaves, MayLeave};

// `+` or `-`.
#[tactic(auto, unfolding(crate::specs::Bytes::is_sign))]
pub(crate) fn is_sign(b: u8) -> bool
    ensures { result ≡ is_sign b }
{
    matches!(b, b'+' | b'-')
}

// `e` or `E`.
#[tactic(auto, unfolding(crate::specs::Bytes::is_exponent))]
fn is_exponent(b: u8) -> bool
    ensures { result ≡ is_exponent b }
{
    matches!(b, b'e' | b'E')
}

// `.`, `e` or `E`.
#[tactic(auto, unfolding(crate::specs::Bytes::is_pointed))]
pub(crate) fn is_pointed(b: u8) -> bool
    ensures { result ≡ is_pointed b }
{
    b == b'.' || is_exponent(b)
}

// A byte that number text runs over.
#[tactic(auto, unfolding(crate::specs::Bytes::is_text, token::specs::Digits::is_digit))]
pub(crate) fn is_text(b: u8) -> bool
    ensures { result ≡ is_text b }
{
    b.is_ascii_digit() || is_sign(b) || is_pointed(b)
}

// The place behind the digits from `at` on.
pub(crate) fn digits_end(s: &[u8], at: usize) -> usize
    ensures { Leaves s.now at (past is_digit (drop at s.now)) result }
{
    search::find_other(s, at)
}

// The place behind the number text from `at` on.
pub(crate) fn text_end(s: &[u8], at: usize) -> usize
    requires { at ≤ length s.now }
    ensures { Leaves s.now at (past is_text (drop at s.now)) result }
{
    let rest = &s[at..];
    at + rest.iter().position(|&b| !is_text(b)).unwrap_or(rest.len())
}

// The place behind an optional sign.
pub(crate) fn sign_end(s: &[u8], at: usize) -> usize
    ensures { Leaves s.now at (after_sign (drop at s.now)) result }
{
    match s.get(at) {
        Some(&b) if is_sign(b) => at + 1,
        _ => at,
    }
}

// The place behind digits with at most one point, where there is a digit. `b` is the place behind the digits from `a` on.
fn mantissa_end(s: &[u8], a: usize, b: usize) -> Option<usize>
    requires { Leaves s.now a (past is_digit (drop a s.now)) b }
    ensures { MayLeave s.now a (mantissa_left (drop a s.now)) result }
{
    match s.get(b) {
        Some(b'.') => {
            let d = digits_end(s, b + 1);
            (d != a + 1).then_some(d)
        }
        _ => (a < b).then_some(b),
    }
}

// The place behind an optional exponent, unless one has no digit.
fn exponent_end(s: &[u8], at: usize) -> Option<usize>
    ensures { MayLeave s.now at (exponent_left (drop at s.now)) result }
{
    match s.get(at) {
        Some(&b) if is_exponent(b) => {
            let a = sign_end(s, at + 1);
            let b = digits_end(s, a);
            (a < b).then_some(b)
        }
        _ => Some(at),
    }
}

// The place behind a double whose sign ends at `a` and whose first digits end at `b`, where one stands there.
pub(crate) fn double_end(s: &[u8], a: usize, b: usize) -> Option<usize>
    requires { Leaves s.now a (past is_digit (drop a s.now)) b }
    ensures { MayLeave s.now a (onward exponent_left (mantissa_left (drop a s.now))) result }
{
    exponent_end(s, mantissa_end(s, a, b)?)
}

// Whether text is a double's, whole.
pub(crate) fn double_ok(t: &[u8]) -> bool
    ensures { result ≡ is_double t.now }
{
    let a = sign_end(t, 0);
    double_end(t, a, digits_end(t, a)) == Some(t.len())
}

// Whether a point or an exponent stands in text.
pub(crate) fn has_point(t: &[u8]) -> bool
    ensures { result ≡ any is_pointed t.now }
{
    t.iter().any(|&b| is_pointed(b))
}

// Whether text starts with `-`.
pub(crate) fn has_minus(t: &[u8]) -> bool
    ensures { result ≡ starts is_minus t.now }
{
    t.starts_with(b"-")
}
