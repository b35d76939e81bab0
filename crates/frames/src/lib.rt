// The program without its input and output: from the bytes that it read to the bytes that it writes.
//
// program_output   the enhanced frame, or the line of a refusal
// mlhe_program     the same under the name that callers in C and Rust have
#![tactic(auto)]

ghost use Rattle.printing.specs.Printing.{Emitted};
ghost use Rattle.frames.specs.Program.{program_output};

mod export;

pub use export::mlhe_program;
use planes::Refusal;
pub use printing::{OUTPUT, PIXELS};

// The greatest number of bytes of an input.
pub const INPUT: usize = 65536;

// The answer to an input, from the beginning of the output on; how many bytes it has.
pub fn program_output(input: &[u8], output: &mut [u8; OUTPUT]) -> usize
    ensures { Emitted (program_output input.now) output.old result output.new }
{
    if INPUT < input.len() {
        return printing::put_refusal(Refusal::Trailing.number(), output);
    }
    match netpbm::read_within(input, PIXELS) {
        Ok(header) => printing::put_enhanced(input, header, output),
        Err(refusal) => printing::put_refusal(refusal.number(), output),
    }
}
