// The bytes of a string that stand in the input as they are: handed out into lent output, or not at all.
// What is answered and what the output then holds is `bytes_answer` and `bytes_written` of crate token.
#![tactic(auto)]

ghost use Rattle.std.specs.Prelude.{◌≡◌, length, Some};
ghost use Rattle.token.specs.Meaning.{read_meaning};
ghost use Rattle.token.specs.declared.Extent.TheVariants.{Plain};
ghost use Rattle.token.specs.Strings.{unescaped_meaning, bytes_answer, bytes_written, string_of, string_found};
ghost use Rattle.strings.specs.Part.{part_of};

use token::{Copied, Extent, NoBytes, Placed, Read, Unescaped};

// The bytes of a string token that ends at `next`, into `out`. 27 where they do not fit, and then nothing is written.
#[tactic(auto, unfolding(token::specs::Strings::bytes_answer, token::specs::Strings::bytes_written))]
fn put_part(bytes: &[u8], next: usize, out: &mut [u8]) -> Unescaped
    ensures answer { unescaped_meaning result ≡ bytes_answer (part_of bytes.now next) (length out.old) }
    ensures written { out.new ≡ bytes_written (part_of bytes.now next) out.old }
{
    let count = bytes.len();
    if out.len() < count {
        return Err(NoBytes::Short);
    }
    out[..count].copy_from_slice(bytes);
    Ok(Copied { count, next })
}

// The string of `len` bytes from `start` on, as far as the input has them, whose token ends at `next`.
pub fn plain_bytes(input: &[u8], start: usize, len: usize, next: usize, out: &mut [u8]) -> Unescaped
    ensures answer { unescaped_meaning result ≡ bytes_answer (string_of input.now next (Some (Plain start len))) (length out.old) }
    ensures written { out.new ≡ bytes_written (string_of input.now next (Some (Plain start len))) out.old }
{
    let rest = input.get(start..).unwrap_or(&[]);
    let bytes = rest.get(..len).unwrap_or(rest);
    put_part(bytes, next, out)
}

// The bytes of the string that was read, into `out`: the token's own answer, 14, 27; only an accepted call writes.
#[tactic(auto, unfolding(token::specs::Strings::bytes_answer, token::specs::Strings::bytes_written))]
pub fn found_bytes(input: &[u8], read: Read, out: &mut [u8]) -> Unescaped
    ensures answer { unescaped_meaning result ≡ bytes_answer (string_found input.now (read_meaning read)) (length out.old) }
    ensures written { out.new ≡ bytes_written (string_found input.now (read_meaning read)) out.old }
{
    let Placed { token, next, .. } = read?;
    match token.extent() {
        Some(Extent::Plain { start, len }) => plain_bytes(input, start, len, next, out),
        Some(Extent::Quoted { .. }) | None => Err(NoBytes::NotString),
    }
}
