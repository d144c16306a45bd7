// The archive for C: exports the scan that crate abi has, since a crate is either a library for other crates or an archive for C.
// A slice is passed in C as a pointer and then a length; include/onionsail.h declares the function.
#![tactic(auto)]

ghost use Rattle.std.specs.Prelude.{◌≡◌};
ghost use Rattle.abi.specs.Call.{call_number};

// The length of the first value of the bytes, 0 where they end inside it or before it, or minus the number of a refusal; 29 before the
// scan for a format number neither 0 (binary) nor 1 (text), or over 2^63 - 1 bytes. The bytes are only read.
#[unsafe(no_mangle)]
pub extern "C" fn yson_scan(format: u64, bytes: &[u8]) -> i64
    ensures { result ≡ call_number format bytes.now }
{
    abi::yson_scan(format, bytes)
}
