// Passes in an array: lists in memory for callers that have the passes by value, and lend no slice of them.
//
// run_array   the first passes of an array, or the refusal that they meet with: 1 to 4, 16, then for each pass 5 to 8,
//             18, 19
#![tactic(auto)]

ghost use Rattle.std.specs.Prelude.{◌≡◌, ◌≤◌, min, take};
ghost use Rattle.model.specs.Outcomes.{answer_reply};
ghost use Rattle.passlists.specs.Outcomes.{PassesOutcome};
ghost use Rattle.passarrays.specs.Arrays.{array_length};

use listchecks::COUNT;
use model::{Counts, Pass};
use planes::{Refusal, Shape};

// One more than a list may have, so that a list that is too long fits too.
pub const ROOM: usize = COUNT + 1;

// The first `count` passes of the array, or all where it has fewer, over the lent plane of the shape, one after the
// other, or the refusal that they meet with. Marks and queue are working memory of at least as many entries as the
// plane has pixels, with any content.
pub fn run_array(
    list: [Pass; ROOM],
    count: usize,
    plane: &mut [u8],
    marks: &mut [u8],
    queue: &mut [u32],
    shape: Shape,
) -> Result<Counts, Refusal>
    ensures { PassesOutcome shape (take count list) plane.old marks.old
        queue.old (answer_reply result) plane.new marks.new queue.new }
{
    let end = count.min(ROOM);
    passlists::run_passes(&list[..end], plane, marks, queue, shape)
}
