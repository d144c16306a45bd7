// The scan across the C boundary: what one number does the host get? `call_number` of specs/Call decides. A slice is passed in C as a
// pointer and then a length.
#![tactic(auto)]

ghost use Rattle.std.specs.Prelude.{◌≡◌, ◌≤◌, pos, neg_ℤ};
ghost use Rattle.refusal.specs.Numbers.{bad_call};
ghost use Rattle.scan.specs.Meaning.{scan_meaning};
ghost use Rattle.abi.specs.Call.{call_number, signed, Fitting};

use refusal::{Format, Unwhole};
use scan::Scan;

// The format numbers.
const BINARY: u64 = 0;

const TEXT: u64 = 1;

// The most bytes that are scanned: their number is the greatest i64.
const MOST_BYTES: usize = 9223372036854775807;

// The length of the first value of the bytes, 0 where they end inside it or before it, or minus the number of a refusal; 29 before the
// scan for a format number neither 0 (binary) nor 1 (text), or over 2^63 - 1 bytes. The bytes are only read, so a refusal leaves nothing
// behind.
#[unsafe(no_mangle)]
pub extern "C" fn yson_scan(format: u64, bytes: &[u8]) -> i64
    ensures { result ≡ call_number format bytes.now }
{
    if MOST_BYTES < bytes.len() {
        return minus(refusal::BAD_CALL);
    }
    if format == BINARY {
        return number(scan::scan_value(bytes, Format::Binary));
    }
    if format == TEXT {
        return number(scan::scan_value(bytes, Format::Text));
    }
    minus(refusal::BAD_CALL)
}

// The signed number of a scan's answer.
fn number(answer: Scan) -> i64
    requires { Fitting (scan_meaning answer) }
    ensures { result ≡ signed (scan_meaning answer) }
{
    match answer {
        Ok(len) => len as i64,
        Err(Unwhole::Incomplete) => 0,
        Err(Unwhole::Refused(refusal)) => minus(refusal.number()),
    }
}

// Minus a refusal's number.
// Kept: numbers, since they are what the C interface answers.
fn minus(number: usize) -> i64
    requires { number ≤ bad_call }
    ensures { result ≡ neg_ℤ (pos number) }
{
    0 - number as i64
}
