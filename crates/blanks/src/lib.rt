// Where does text go on after blanks and comments? `skip_ignored` answers that, and specs/Skip.antt decides it. The end of a comment is
// looked for by crate search.
#![tactic(auto)]

ghost use Rattle.std.specs.Prelude.{◌≡◌};
ghost use Rattle.blanks.specs.Skip.{is_blank, skip_from};

// Whether a byte is a blank of text.
pub fn is_blank(b: u8) -> bool
    ensures { result ≡ is_blank b }
{
    if b == b' ' {
        return true;
    }
    if b == b'\n' {
        return true;
    }
    if b == b'\r' {
        return true;
    }
    if b == b'\t' {
        return true;
    }
    b == 0x0c
}

// The first place from `at` on that is no blank and in no comment: `at` itself where nothing is ignored there, or where it
// lies beyond the input.
// Kept: labelled loops, continued or left from the search inside, which is the form that document 01 names for this place.
pub fn skip_ignored(input: &[u8], at: usize) -> usize
    ensures { result ≡ skip_from input.now at }
{
    let mut p = at;
    'blanks: while p < input.len() {
        let b = input[p];
        if b == b' ' {
            p += 1;
            continue 'blanks;
        }
        if b < b' ' {
            if is_blank(b) {
                p += 1;
                continue 'blanks;
            }
            break 'blanks;
        }
        if b != b'/' {
            break 'blanks;
        }
        let n = p + 1;
        if input.len() <= n {
            break 'blanks;
        }
        let c = input[n];
        if c == b'/' {
            p += 2;
            'line: loop {
                if input.len() <= p {
                    break 'blanks;
                }
                let d = input[p];
                p += 1;
                if d == b'\n' {
                    continue 'blanks;
                }
                p = search::find_byte(input, p, b'\n');
            }
        }
        if c != b'*' {
            break 'blanks;
        }
        p = n + 1;
        'block: loop {
            if input.len() <= p {
                break 'blanks;
            }
            let d = input[p];
            p += 1;
            if d == b'*' {
                if p < input.len() {
                    let f = input[p];
                    if f == b'/' {
                        p += 1;
                        continue 'blanks;
                    }
                }
            } else {
                p = search::find_byte(input, p, b'*');
            }
        }
    }
    p
}

// As `skip_ignored`, which is asked at a `/` alone: for callers that mostly stand at a token, or a few blanks before one. Most
// tokens start above `/`, so that is tested first.
pub fn first_place(input: &[u8], at: usize) -> usize
    ensures { result ≡ skip_from input.now at }
{
    let mut p = at;
    while p < input.len() {
        let a = input[p];
        if b'/' < a {
            return p;
        }
        if a == b' ' {
            p += 1;
        } else {
            if b' ' < a {
                if a != b'/' {
                    return p;
                }
                return skip_ignored(input, p);
            }
            if !is_blank(a) {
                return p;
            }
            p += 1;
        }
    }
    p
}
