// Enhancement of a frame: its intensity, the published recursion on it, and the frame recoloured.
//
// Settings   the last level, the least area, the tone rule and the number of neighbours, with the house setting
// enhance    enhances a frame: refusals 1, 2, 3, 4, 14, 9, 6, 7, 8, 18, 19
#![tactic(auto)]

ghost use Rattle.std.specs.Prelude.{◌≡◌, length};
ghost use Rattle.planes.specs.Refusals.{number_in};
ghost use Rattle.model.specs.Outcomes.{answer_reply};
ghost use Rattle.enhance.specs.Calls.{memory_refusal, enhance_refusal, Enhances, EnhanceOutcome};

pub use levels::Settings;
use model::Counts;
use planes::{Refusal, Shape};
use works::Work;

// 1, 2, 3, 4, 14 in that order, by the shape and the lengths that are lent.
#[tactic(auto, using(planes::proofs::Shapes::in_order), unfolding(crate::specs::Calls::memory_refusal))]
pub fn memory_refusal(
    shape: Shape,
    frame: usize,
    plane: usize,
    marks: usize,
    queue: usize,
    output: usize,
) -> Result<(), Refusal>
    ensures { number_in result ≡ memory_refusal shape frame plane marks queue output }
{
    planes::shape_refusal(shape)?;
    let n = shape.pixels();
    planes::length_refusal(plane, n)?;
    planes::length_refusal(frame, 3 * n)?;
    planes::room_refusal(n, marks, queue)?;
    planes::output_refusal(output, 3 * n)
}

// The same, then 9, 6, 7, 8, 18, 19 for the settings.
#[tactic(auto, using(planes::proofs::Refusals::in_order), unfolding(crate::specs::Calls::enhance_refusal))]
fn refusal_of(
    shape: Shape,
    frame: usize,
    plane: usize,
    marks: usize,
    queue: usize,
    output: usize,
    settings: Settings,
) -> Result<(), Refusal>
    ensures { number_in result ≡ enhance_refusal shape frame plane marks queue output settings }
{
    memory_refusal(shape, frame, plane, marks, queue, output)?;
    levels::settings_refusal(settings)
}

// The enhancement of a frame that is accepted. How many components were retoned and kept back. The answers of the calls
// on the frame are not read: neither refuses what is accepted here.
fn enhance_frame(
    frame: &[u8],
    shape: Shape,
    settings: Settings,
    plane: &mut [u8],
    marks: &mut [u8],
    queue: &mut [u32],
    output: &mut [u8],
) -> Counts
    requires { enhance_refusal shape (length frame.now) (length plane.old) (length marks.old)
        (length queue.old) (length output.old) settings ≡ 0 }
    ensures { Enhances shape settings frame.now marks.old queue.old
        output.old result plane.new marks.new queue.new output.new }
{
    let _ = colours::intensity(frame, shape.w, shape.h, plane);
    let mut work = Work {
        plane,
        marks,
        queue,
        shape,
    };
    let counts = recursion::run_levels(&mut work, settings);
    let _ = colours::recolour(frame, shape.w, shape.h, plane, output);
    counts
}

// Enhances a frame of the shape, or answers the refusal that it meets with. The new intensity is left in the plane and
// the recoloured frame in the output; marks and queue are working memory that may come with any content.
pub fn enhance(
    frame: &[u8],
    shape: Shape,
    settings: Settings,
    plane: &mut [u8],
    marks: &mut [u8],
    queue: &mut [u32],
    output: &mut [u8],
) -> Result<Counts, Refusal>
    ensures { EnhanceOutcome shape settings frame.now plane.old marks.old
        queue.old output.old (answer_reply result) plane.new marks.new
        queue.new output.new }
{
    refusal_of(
        shape,
        frame.len(),
        plane.len(),
        marks.len(),
        queue.len(),
        output.len(),
        settings,
    )?;
    Ok(enhance_frame(frame, shape, settings, plane, marks, queue, output))
}
