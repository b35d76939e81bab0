// Section passes: the components of a section are found, and each with the least area gets the tone rule.
//
// pass    a pass over a lent plane, or the refusal that it meets with: refusals 1 to 8, 18 and 19
// treat   the same for a pass and memory that are known to be accepted
#![tactic(auto)]

ghost use Rattle.std.specs.Prelude.{◌≡◌, ◌≤◌};
ghost use Rattle.planes.specs.Refusals.{number_in};
ghost use Rattle.model.specs.Neighbourhoods.{pass_neighbours};
ghost use Rattle.model.specs.Calls.{pass_refusal};
ghost use Rattle.model.specs.Effects.{pass_effect};
ghost use Rattle.model.specs.Outcomes.{answer_reply};
ghost use Rattle.passes.specs.Calls.{call_on, PassOutcome};
ghost use Rattle.passes.specs.Works.{Ran};

use model::{Counts, Pass};
use painting::Next;
use planes::{Refusal, Shape};
use works::Work;

// A pass over a plane with room for it. How many components were retoned, and how many kept back.
pub fn treat(work: &mut Work<'_>, pass: Pass) -> Counts
    requires { pass.a ≤ pass.b }
    ensures { Ran (pass_effect (pass_neighbours work.old.shape) pass work.old.plane.now) work.old work.new result }
{
    let n = work.shape.pixels();
    let plane = &mut *work.plane;
    painting::mark_section(plane, work.marks, n, pass);
    let gone = Next {
        mid: 0,
        low: 0,
        high: 0,
    };
    let t = sections::treat_section(work, 1, true, pass, gone);
    Counts {
        retoned: t.retoned,
        kept: t.kept,
    }
}

// 1 to 8, 18 or 19 for a call of a pass.
#[tactic(auto, using(planes::proofs::Refusals::in_order), unfolding(model::specs::Calls::pass_refusal))]
fn refusal_of(
    shape: Shape,
    plane: usize,
    marks: usize,
    queue: usize,
    pass: Pass,
) -> Result<(), Refusal>
    ensures { number_in result ≡ pass_refusal shape plane (call_on marks queue pass) }
{
    planes::lent_refusal(shape, plane, marks, queue)?;
    model::pass_refusal(pass)
}

// A pass over the lent plane of the shape, or the refusal that it meets with. Marks and queue are working memory of at
// least as many entries as the plane has pixels, and may come with any content.
pub fn pass(
    plane: &mut [u8],
    marks: &mut [u8],
    queue: &mut [u32],
    shape: Shape,
    pass: Pass,
) -> Result<Counts, Refusal>
    ensures { PassOutcome shape pass
        plane.old marks.old queue.old (answer_reply result)
        plane.new marks.new queue.new }
{
    refusal_of(shape, plane.len(), marks.len(), queue.len(), pass)?;
    let mut work = Work {
        plane,
        marks,
        queue,
        shape,
    };
    Ok(treat(&mut work, pass))
}
