// The answer to an input, as the crate `frames_c` exports it to callers in C and Rust.
ghost use Rattle.printing.specs.Printing.{Emitted};
ghost use Rattle.frames.specs.Program.{program_output};

use crate::program_output;

pub fn mlhe_program(input: &[u8], output: &mut [u8; 65536]) -> usize
    ensures { Emitted (program_output input.now) output.old result output.new }
{
    program_output(input, output)
}
