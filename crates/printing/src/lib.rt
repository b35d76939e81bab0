// What the program writes into its output: the line of a refusal, or an enhanced frame.
//
// put_refusal    `refused N` and LF
// put_enhanced   a frame, enhanced with the house setting
#![tactic(auto)]

ghost use Rattle.std.specs.Prelude.{drop};
ghost use Rattle.netpbm.specs.Frames.{IsFrame};
ghost use Rattle.printing.specs.Printing.{greatest_frame, refusal_line, enhanced_frame, Emitted};

use enhance::Settings;
use netpbm::Header;
use planes::Shape;

// The greatest number of pixels of a frame.
pub const PIXELS: usize = 16384;

// Room for any output: a frame is written in no more bytes than the longest input has.
pub const OUTPUT: usize = 65536;

// Writes the line of a refusal by its number, and answers its length.
#[tactic(auto, using(texts::proofs::Decimal::decimal_few))]
pub fn put_refusal(number: u8, output: &mut [u8; OUTPUT]) -> usize
    ensures { Emitted (refusal_line number) output.old result output.new }
{
    let after_word = texts::put_bytes(output, 0, b"refused ");
    let after_number = texts::put_number(output, after_word, usize::from(number));
    texts::put_bytes(output, after_number, b"\n")
}

// Writes the frame with this header, enhanced with the house setting, and answers the length written. The output has
// room for every frame within the limits, so that neither the enhancement nor writing is refused.
pub fn put_enhanced(input: &[u8], header: Header, output: &mut [u8; OUTPUT]) -> usize
    requires { IsFrame input.now greatest_frame header.w header.h header.offset }
    ensures { Emitted (enhanced_frame (drop header.offset input.now) header.w header.h)
        output.old result output.new }
{
    let Header { w, h, offset } = header;
    let n = w * h;
    let mut plane = [0u8; PIXELS];
    let mut marks = [0u8; PIXELS];
    let mut queue = [0u32; PIXELS];
    let mut colours = [0u8; 3 * PIXELS];
    let _ = enhance::enhance(
        &input[offset..],
        Shape { w, h },
        Settings::house(),
        &mut plane[..n],
        &mut marks,
        &mut queue,
        &mut colours,
    );
    netpbm::write(&colours[..3 * n], w, h, output).unwrap()
}
