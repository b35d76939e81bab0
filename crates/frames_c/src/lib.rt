// The static library of the program's function for callers in C and Rust: the input is a pointer and a length, the
// output a pointer to 65,536 bytes.
#![tactic(auto)]

ghost use Rattle.printing.specs.Printing.{Emitted};
ghost use Rattle.frames.specs.Program.{program_output};

// The answer to an input, from the beginning of the output on; how many bytes it has.
#[unsafe(no_mangle)]
pub extern "C" fn mlhe_program(input: &[u8], output: &mut [u8; 65536]) -> usize
    ensures { Emitted (program_output input.now) output.old result output.new }
{
    frames::mlhe_program(input, output)
}
