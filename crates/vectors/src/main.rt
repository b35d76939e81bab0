// Answers the stored test cases on standard input, one line each.
#![tactic(auto)]

use std::io;

fn main(rt: HostRuntime) -> io::Result<()> {
    cases::run_cases(&rt)
}
