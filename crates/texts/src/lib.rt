// ASCII text put into an output: bytes, decimal numbers, and the heading of a P6 frame.
//
// heading_length   how many bytes a heading has
// put_bytes        bytes into an output that has room for them, from a place on; the place after them
// put_number       the decimal digits of a number, likewise
// put_heading      a heading at the beginning of an output; the place after it
#![tactic(auto)]

ghost use Rattle.std.specs.Prelude.{◌≡◌, ◌+◌, ◌≤◌, ◌<◌, length};
ghost use Rattle.texts.specs.Ascii.{decimal};
ghost use Rattle.texts.specs.Placing.{Put};
ghost use Rattle.texts.specs.Heading.{heading};

// How many digits a number below 10,000 has.
#[tactic(auto, using(crate::proofs::Decimal::length_of_log))]
fn digits_of(x: usize) -> usize
    requires { x < 10000 }
    ensures { result ≡ length (decimal x) }
{
    x.checked_ilog10().unwrap_or(0) as usize + 1
}

// How many bytes the heading for sides below 10,000 has.
#[tactic(auto, using(crate::proofs::Heading::lengths))]
pub fn heading_length(w: usize, h: usize) -> usize
    requires { (w < 10000) × (h < 10000) }
    ensures { result ≡ length (heading w h) }
{
    9 + digits_of(w) + digits_of(h)
}

// Writes `bytes` into `output` from `at` on, and answers the place after them. By a loop: std's `copy_from_slice` calls
// `memmove`, which a caller in C would have to bring.
pub fn put_bytes(output: &mut [u8], at: usize, bytes: &[u8]) -> usize
    requires { at + length bytes.now ≤ length output.old }
    ensures { Put output.old at bytes.now result output.new }
{
    for (i, byte) in bytes.iter().enumerate() {
        output[at + i] = *byte;
    }
    at + bytes.len()
}

// Writes the digits of x into `output` from `at` on, and answers the place after them. They are put by hand, as no
// contract says which bytes std's `write!` stores in a slice.
#[tactic(auto, using(crate::proofs::Digits::digit_by_digit))]
pub fn put_number(output: &mut [u8], at: usize, x: usize) -> usize
    requires { (x < 1000000) × (at + length (decimal x) ≤ length output.old) }
    ensures { Put output.old at (decimal x) result output.new }
{
    if x < 10 {
        output[at] = b'0' + x as u8;
        return at + 1;
    }
    let last = put_number(output, at, x / 10);
    output[last] = b'0' + (x % 10) as u8;
    last + 1
}

// Writes the heading at the beginning of `output`, and answers the place after it, where the raster begins.
#[tactic(auto, using(crate::proofs::Heading::room))]
pub fn put_heading(output: &mut [u8], w: usize, h: usize) -> usize
    requires { ((w < 1000000) × (h < 1000000)) × (length (heading w h) ≤ length output.old) }
    ensures { Put output.old 0 (heading w h) result output.new }
{
    let after_mark = put_bytes(output, 0, b"P6\n");
    let after_w = put_number(output, after_mark, w);
    let after_space = put_bytes(output, after_w, b" ");
    let after_h = put_number(output, after_space, h);
    put_bytes(output, after_h, b"\n255\n")
}
