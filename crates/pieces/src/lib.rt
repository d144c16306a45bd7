// Which bytes do the pieces of a quoted string give: what is an escape, and how many bytes come before the closing quote?
// specs/Pieces.antt decides both, and specs/Answers.antt says what each answer means.
#![tactic(auto)]

ghost use Rattle.std.specs.Prelude.{◌≡◌, ◌<◌, drop, SomeIff, IfOk, IfErr};
ghost use Rattle.pieces.specs.Bytes.{hex_digit};
ghost use Rattle.pieces.specs.Pieces.{byte, ends, hex_of, third_of, octal_of, escape_of, walk};
ghost use Rattle.pieces.specs.Answers.{broken_at, piece_meaning, measure_of};

// An escape: the byte that it gives, and how many input bytes it takes, the backslash among them: two to four.
#[derive(Clone, Copy, Debug, PartialEq, Eq)]
pub struct Escaped {
    pub byte: u8,
    pub size: usize,
}

// Why an escape, or the pieces up to a closing quote, are not whole.
#[derive(Clone, Copy, Debug, PartialEq, Eq)]
pub enum Broken {
    // The input ends before they do.
    Cut,
    // `\x` without two hex digits, or `+` and one, behind it.
    Bad,
}

// A hex digit as a number.
#[tactic(auto, unfolding(crate::specs::Bytes::hex_digit))]
fn hex_digit(b: u8) -> Option<u8>
    ensures { SomeIff result (hex_digit b < 16) (hex_digit b) }
{
    match b {
        b'0'..=b'9' => Some(b - b'0'),
        b'A'..=b'F' => Some(b - b'A' + 10),
        b'a'..=b'f' => Some(b - b'a' + 10),
        _ => None,
    }
}

// The byte that the escape `\x` gives, by the bytes behind it.
#[tactic(auto, unfolding(crate::specs::Pieces::hex_of))]
fn hex(t: &[u8]) -> Result<u8, Broken>
    ensures gives { IfOk result (λ b. byte b 4 ≡ hex_of t.now) }
    ensures ends { IfErr result (λ e. ends (broken_at e) ≡ hex_of t.now) }
{
    let [a, b, ..] = *t else {
        return Err(Broken::Cut);
    };
    let low = hex_digit(b).ok_or(Broken::Bad)?;
    match hex_digit(a) {
        Some(high) => Ok(high * 16 + low),
        None if a == b'+' => Ok(low),
        None => Err(Broken::Bad),
    }
}

// The octal escape whose first two digits have the value `w`, by the bytes behind them. A third counts if the value stays at most 255.
#[tactic(auto, unfolding(crate::specs::Pieces::third_of, crate::specs::Bytes::octal_digit))]
fn third(w: u8, t: &[u8]) -> Escaped
    requires { w < 64 }
    ensures { byte result.byte result.size ≡ third_of w t.now }
{
    match t {
        [c @ b'0'..=b'7', ..] if w < 32 => Escaped {
            byte: w * 8 + (*c - b'0'),
            size: 4,
        },
        _ => Escaped { byte: w, size: 3 },
    }
}

// The octal escape whose first digit has the value `v`, by the bytes behind it.
#[tactic(auto, unfolding(crate::specs::Pieces::octal_of, crate::specs::Bytes::octal_digit))]
fn octal(v: u8, t: &[u8]) -> Escaped
    requires { v < 8 }
    ensures { byte result.byte result.size ≡ octal_of v t.now }
{
    match t {
        [c @ b'0'..=b'7', rest @ ..] => third(v * 8 + (*c - b'0'), rest),
        _ => Escaped { byte: v, size: 2 },
    }
}

// The escape whose backslash stands before `t`.
#[tactic(auto, unfolding(crate::specs::Pieces::escape_of, crate::specs::Bytes::octal_digit))]
pub fn escape(t: &[u8]) -> Result<Escaped, Broken>
    ensures { piece_meaning result ≡ escape_of t.now }
{
    let Some((&c, rest)) = t.split_first() else {
        return Err(Broken::Cut);
    };
    let byte = match c {
        b'n' => b'\n',
        b'r' => b'\r',
        b't' => b'\t',
        b'x' => {
            return Ok(Escaped {
                byte: hex(rest)?,
                size: 4,
            });
        }
        b'0'..=b'7' => return Ok(octal(c - b'0', rest)),
        _ => c,
    };
    Ok(Escaped { byte, size: 2 })
}

// How many bytes the pieces from `from` on give, up to the closing quote.
#[tactic(auto, using(crate::proofs::Walks::measured))]
pub fn measure(input: &[u8], from: usize) -> Result<usize, Broken>
    ensures { result ≡ measure_of (walk 0 (drop from input.now)) }
{
    let mut p = from;
    let mut n: usize = 0;
    while let Some(&b) = input.get(p) {
        match b {
            b'"' => return Ok(n),
            b'\\' => p += escape(&input[p + 1..])?.size,
            _ => p += 1,
        }
        n += 1;
    }
    Err(Broken::Cut)
}
