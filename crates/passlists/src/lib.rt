// Lists of passes: chains of passes that are kept in a file or in memory.
//
// run_list      the passes of a list of bytes, of either version, or the refusal that it meets with: 1 to 4, 16 for
//               fewer bytes than a head has, 15, 16, then for each record 17, 5, 6, 7, 8, 18, 19
// run_passes    lent passes, or the refusal that they meet with: 1 to 4, 16, then for each pass 5, 6, 7, 8, 18, 19
// list_refusal  the refusal that a list of bytes meets with, and nothing is run
// convert       a list of bytes in the other version, into a lent output, or the refusal that it meets with
//
// All passes are checked before the first one runs, so a refusal changes nothing.
#![tactic(auto)]

ghost use Rattle.std.specs.Prelude.{◌≡◌};
ghost use Rattle.planes.specs.Refusals.{number_in, ◌▷◌};
ghost use Rattle.planes.specs.Shapes.{lent_refusal};
ghost use Rattle.texts.specs.Writing.{written_reply};
ghost use Rattle.model.specs.Neighbourhoods.{pass_neighbours};
ghost use Rattle.model.specs.Effects.{run_effect};
ghost use Rattle.model.specs.Outcomes.{answer_reply};
ghost use Rattle.listformat.specs.Format.{passes_of};
ghost use Rattle.listchecks.specs.Refusals.{list_refusal, passes_refusal};
ghost use Rattle.conversion.specs.Conversion.{ConvertOutcome};
ghost use Rattle.passes.specs.Works.{Ran};
ghost use Rattle.passlists.specs.Outcomes.{ListOutcome, PassesOutcome};

use model::{Counts, Pass};
use planes::{Refusal, Shape};
use works::Work;

// The passes of a list of bytes that is not refused, one after the other.
fn run_records(list: &[u8], work: &mut Work<'_>) -> Counts
    requires { list_refusal list.now ≡ 0 }
    ensures { Ran (run_effect (pass_neighbours work.old.shape) (passes_of list.now) work.old.plane.now)
        work.old work.new result }
{
    let mut counts = Counts {
        retoned: 0,
        kept: 0,
    };
    for j in 0..listformat::count_of(list) {
        let pass = listchecks::pass_of(list, j);
        counts = passturns::step(work, pass, counts);
    }
    counts
}

// The passes of a list of bytes over the lent plane of the shape, one after the other, or the refusal that the list
// meets with. Marks and queue are working memory of at least as many entries as the plane has pixels, with any content.
pub fn run_list(
    list: &[u8],
    plane: &mut [u8],
    marks: &mut [u8],
    queue: &mut [u32],
    shape: Shape,
) -> Result<Counts, Refusal>
    ensures { ListOutcome shape list.now plane.old marks.old
        queue.old (answer_reply result) plane.new marks.new queue.new }
{
    list_refusal(list, shape, plane.len(), marks.len(), queue.len())?;
    let mut work = Work {
        plane,
        marks,
        queue,
        shape,
    };
    Ok(run_records(list, &mut work))
}

// The refusal that a list of bytes meets with where memory of these lengths is lent. Nothing is run.
#[tactic(auto, using(planes::proofs::Refusals::in_order))]
pub fn list_refusal(
    list: &[u8],
    shape: Shape,
    plane: usize,
    marks: usize,
    queue: usize,
) -> Result<(), Refusal>
    ensures { number_in result ≡ lent_refusal shape plane marks queue ▷ list_refusal list.now }
{
    planes::lent_refusal(shape, plane, marks, queue)?;
    listchecks::list_refusal(list)
}

// The list in the other version at the beginning of the output, and its length: version 1 becomes version 2, and
// version 2 becomes version 1. Or the refusal that it meets with: those of a list, then 20 where a pass with eight
// neighbours is to become version 1, then 14 where the output is too short.
pub fn convert(list: &[u8], output: &mut [u8]) -> Result<usize, Refusal>
    ensures { ConvertOutcome list.now output.old (written_reply result)
        output.new }
{
    conversion::convert(list, output)
}

// Passes that are not refused, one after the other.
fn run_each(passes: &[Pass], work: &mut Work<'_>) -> Counts
    requires { passes_refusal passes.now ≡ 0 }
    ensures { Ran (run_effect (pass_neighbours work.old.shape) passes.now work.old.plane.now)
        work.old work.new result }
{
    let mut counts = Counts {
        retoned: 0,
        kept: 0,
    };
    for pass in passes {
        counts = passturns::step(work, *pass, counts);
    }
    counts
}

// Lent passes over the lent plane of the shape, one after the other, or the refusal that they meet with. Marks and
// queue are working memory of at least as many entries as the plane has pixels, with any content.
pub fn run_passes(
    passes: &[Pass],
    plane: &mut [u8],
    marks: &mut [u8],
    queue: &mut [u32],
    shape: Shape,
) -> Result<Counts, Refusal>
    ensures { PassesOutcome shape passes.now plane.old marks.old
        queue.old (answer_reply result) plane.new marks.new queue.new }
{
    planes::lent_refusal(shape, plane.len(), marks.len(), queue.len())?;
    listchecks::passes_refusal(passes)?;
    let mut work = Work {
        plane,
        marks,
        queue,
        shape,
    };
    Ok(run_each(passes, &mut work))
}
