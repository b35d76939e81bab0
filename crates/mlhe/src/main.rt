// The program: one P6 frame of at most 65,536 bytes and 16,384 pixels from standard input, enhanced with the house
// setting, or `refused N`, to standard output. What is written for what was read is the contract of
// `frames::program_output`; here is nothing but reading and writing.
//
// Where reading fails, the input ends there: nothing tells the two apart. Where writing fails, what was not yet written
// is dropped, and a line on standard error says so; a pipe that nobody reads is such an output. The exit status is 0 in
// all these cases: a refusal is told by the first bytes `refused `, with which no frame begins.
#![tactic(auto)]

// One byte more than an input may have, so that a longer one is seen to be longer.
const BUFFER: usize = frames::INPUT + 1;

fn main(rt: HostRuntime) {
    let mut input = [0u8; BUFFER];
    let mut output = [0u8; frames::OUTPUT];
    let got = inputs::read_full(&mut rt.stdin(), &mut input);
    let size = frames::program_output(&input[..got], &mut output);
    if rt.write_all(&output[..size]).is_err() {
        let _ = rt.eprintln("mlhe: output not written whole");
    }
}
