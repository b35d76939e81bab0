// Colour frames: their intensity (Algorithm 1), and a frame recoloured from a new intensity (Algorithm 6).
//
// intensity           fills a plane with the intensities of a frame
// recolour            writes a frame, recoloured from a new plane, to an output
// intensity_refusal   refusal 1, 2 or 3 for a frame and its plane
#![tactic(auto)]

ghost use Rattle.std.specs.Prelude.{◌≡◌, ◌+◌, ◌*◌, ◌≤◌, ◌<◌, length};
ghost use Rattle.planes.specs.Refusals.{number_in};
ghost use Rattle.colours.specs.Frames.{pixel_at, intensity};
ghost use Rattle.colours.specs.Calls.{status_reply, intensity_refusal, recolour_refusal};
ghost use Rattle.colours.specs.Calls.{IntensityOutcome, RecolourOutcome};
ghost use Rattle.colours.specs.Steps.{with_pixel, with_frame};

use channels::{Inverses, Pixel};
use planes::Refusal;

// Pixel i.
fn pixel_at(frame: &[u8], i: usize) -> Pixel
    requires { 3 * i + 2 < length frame.now }
    ensures { result ≡ pixel_at frame.now i }
{
    Pixel {
        red: frame[3 * i],
        green: frame[3 * i + 1],
        blue: frame[3 * i + 2],
    }
}

// Stores the channels of pixel i.
fn put_pixel(output: &mut [u8], i: usize, new: Pixel)
    requires { 3 * i + 2 < length output.old }
    ensures { output.new ≡ with_pixel new i output.old }
{
    output[3 * i] = new.red;
    output[3 * i + 1] = new.green;
    output[3 * i + 2] = new.blue;
}

// Stores the intensity of each pixel.
#[tactic(auto, using(crate::proofs::Overwrite::filled), unfolding(crate::specs::Frames::pixel_intensity))]
fn fill_plane(frame: &[u8], plane: &mut [u8])
    requires { length frame.now ≡ 3 * length plane.old }
    ensures { plane.new ≡ intensity frame.now }
{
    for (i, v) in plane.iter_mut().enumerate() {
        *v = pixel_at(frame, i).intensity();
    }
}

// 1, 2 or 3 for a frame and a plane of these lengths.
#[tactic(auto, using(planes::proofs::Refusals::by_size), unfolding(crate::specs::Calls::intensity_refusal))]
pub fn intensity_refusal(w: usize, h: usize, frame: usize, plane: usize) -> Result<(), Refusal>
    ensures { number_in result ≡ intensity_refusal w h frame plane }
{
    planes::size_refusal(w, h, planes::PIXELS)?;
    let n = w * h;
    planes::length_refusal(plane, n)?;
    planes::length_refusal(frame, 3 * n)
}

// Fills the plane with the intensities of the frame.
#[tactic(auto, using(crate::proofs::Calls::intensity_accepted))]
pub fn intensity(frame: &[u8], w: usize, h: usize, plane: &mut [u8]) -> Result<(), Refusal>
    ensures { IntensityOutcome w h frame.now plane.old (status_reply result)
        plane.new }
{
    intensity_refusal(w, h, frame.len(), plane.len())?;
    fill_plane(frame, plane);
    Ok(())
}

// Stores the new channels of each pixel.
#[tactic(auto, using(crate::proofs::Overwrite::recoloured))]
fn recolour_frame(frame: &[u8], plane: &[u8], output: &mut [u8])
    requires { (length frame.now ≡ 3 * length plane.now) × (length frame.now ≤ length output.old) }
    ensures { output.new ≡ with_frame frame.now plane.now output.old }
{
    let inverses = Inverses::new();
    for (i, j) in plane.iter().enumerate() {
        put_pixel(output, i, pixel_at(frame, i).recoloured(&inverses, *j));
    }
}

// 1, 2, 3 or 14 for a frame, a plane and an output of these lengths.
#[tactic(auto, using(crate::proofs::Calls::in_order))]
fn recolour_refusal(
    w: usize,
    h: usize,
    frame: usize,
    plane: usize,
    output: usize,
) -> Result<(), Refusal>
    ensures { number_in result ≡ recolour_refusal w h frame plane output }
{
    intensity_refusal(w, h, frame, plane)?;
    planes::output_refusal(output, frame)
}

// Writes the frame, recoloured from the new intensities in the plane, to the first bytes of the output.
#[tactic(auto, using(crate::proofs::Calls::recolour_accepted))]
pub fn recolour(
    frame: &[u8],
    w: usize,
    h: usize,
    plane: &[u8],
    output: &mut [u8],
) -> Result<(), Refusal>
    ensures { RecolourOutcome w h frame.now plane.now output.old
        (status_reply result) output.new }
{
    recolour_refusal(w, h, frame.len(), plane.len(), output.len())?;
    recolour_frame(frame, plane, output);
    Ok(())
}
