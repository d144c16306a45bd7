// What bytes has the quoted string at a place, once its escapes are undone?
// `quoted_string_at` of crate quoted decides, and `bytes_answer` and `bytes_written` of crate token say what is answered and written.
#![tactic(auto)]

ghost use Rattle.std.specs.Prelude.{◌≡◌, length, drop};
ghost use Rattle.token.specs.Strings.{unescaped_meaning, bytes_answer, bytes_written};
ghost use Rattle.pieces.specs.Pieces.{closed, walk};
ghost use Rattle.quoted.specs.Quoted.{quoted_string_at};
ghost use Rattle.unescape.specs.Overlay.{overlay, bytes_from};

use token::{Copied, Extent, NoBytes, Placed, Unescaped};

// Writes the bytes that the pieces from `from` on give, as far as there is room.
#[tactic(auto, using(crate::proofs::Writes::writes))]
fn write(input: &[u8], from: usize, out: &mut [u8])
    ensures { out.new ≡ overlay (walk 0 (drop from input.now)).bytes out.old }
{
    let mut p = from;
    for slot in out.iter_mut() {
        let Some(&b) = input.get(p) else {
            return;
        };
        *slot = match b {
            b'"' => return,
            b'\\' => {
                let Ok(escape) = pieces::escape(&input[p + 1..]) else {
                    return;
                };
                p += escape.size;
                escape.byte
            }
            _ => {
                p += 1;
                b
            }
        };
    }
}

// Writes the bytes of the pieces from `from` on, which end at a closing quote before `next`, to the front of `out`.
// They are counted first: 27 where they do not fit, and then nothing is written.
#[tactic(auto, using(crate::proofs::Writes::counts), unfolding(token::specs::Strings::bytes_answer, token::specs::Strings::bytes_written))]
fn undo(input: &[u8], from: usize, next: usize, out: &mut [u8]) -> Unescaped
    requires { (walk 0 (drop from input.now)).end ≡ closed }
    ensures answer { unescaped_meaning result ≡ bytes_answer (bytes_from input.now from next) (length out.old) }
    ensures written { out.new ≡ bytes_written (bytes_from input.now from next) out.old }
{
    let count = pieces::measure(input, from).unwrap();
    if out.len() < count {
        return Err(NoBytes::Short);
    }
    write(input, from, out);
    Ok(Copied { count, next })
}

// Writes the bytes of the quoted string whose opening quote stands at `at`, with escapes undone, to the front of `out`.
// An `Err` leaves `out` as it was.
#[tactic(auto, unfolding(token::specs::Strings::bytes_answer, token::specs::Strings::bytes_written, quoted::specs::Quoted::quoted_string_at))]
pub fn unescape(input: &[u8], at: usize, out: &mut [u8]) -> Unescaped
    ensures answer { unescaped_meaning result ≡ bytes_answer (quoted_string_at input.now at) (length out.old) }
    ensures written { out.new ≡ bytes_written (quoted_string_at input.now at) out.old }
{
    let Placed { token, next, .. } = quoted::quoted_token(input, at)?;
    match token.extent() {
        Some(Extent::Plain { start, len }) => strings::plain_bytes(input, start, len, next, out),
        Some(Extent::Quoted { start, .. }) => undo(input, start, next, out),
        None => unreachable!(),
    }
}
