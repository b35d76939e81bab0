// One turn of a run over passes that are known to be accepted, kept in a file or in memory.
//
// step   runs the pass that is due, and adds its counts to those of the passes before it
#![tactic(auto)]

ghost use Rattle.std.specs.Prelude.{◌≤◌};
ghost use Rattle.passturns.specs.Turns.{Room, Turned};

use model::{Counts, Pass};
use works::Work;

// Runs the pass over the plane, and answers the sums of both counts, of the passes before it and of this one.
pub fn step(work: &mut Work<'_>, pass: Pass, before: Counts) -> Counts
    requires { (pass.a ≤ pass.b) × Room pass before work.old }
    ensures { Turned pass before work.old work.new result }
{
    let counts = passes::treat(work, pass);
    model::plus(before, counts)
}
