// P6 frames: reading, and writing.
//
// Header        the width and height of a frame that was read, and the place of its raster
// read          the header of a frame of at most 1,048,576 pixels, or a refusal
// read_within   the same, with the greatest number of pixels given
// write         a frame into a lent output: the length written, or a refusal
#![tactic(auto)]

ghost use Rattle.std.specs.Prelude.{◌≡◌};
ghost use Rattle.planes.specs.Refusals.{number_in, greatest_pixels};
ghost use Rattle.netpbm.specs.Reading.{maxval_refusal, raster_refusal, trailing_refusal, frame_refusal};
ghost use Rattle.netpbm.specs.Reading.{header_reply, read_reply};
ghost use Rattle.texts.specs.Writing.{written_reply};
ghost use Rattle.netpbm.specs.Writing.{write_refusal, WriteOutcome};

use headers::Fields;
use planes::Refusal;

// The third number of a header: the greatest value of a channel.
const MAXVAL: usize = 255;

// A frame's width and height, and the place of its raster.
#[derive(Clone, Copy, Debug, PartialEq, Eq)]
pub struct Header {
    pub w: usize,
    pub h: usize,
    pub offset: usize,
}

// Refused where the third number is another.
#[tactic(auto, using(planes::proofs::Refusals::by_test), unfolding(crate::specs::Reading::maxval_refusal))]
fn maxval_refusal(maxval: usize) -> Result<(), Refusal>
    ensures { number_in result ≡ maxval_refusal maxval }
{
    if maxval != MAXVAL {
        return Err(Refusal::Maxval);
    }
    Ok(())
}

// Refused where the raster is shorter than needed.
#[tactic(auto, using(planes::proofs::Refusals::by_test), unfolding(crate::specs::Reading::raster_refusal))]
fn raster_refusal(raster: usize, needed: usize) -> Result<(), Refusal>
    ensures { number_in result ≡ raster_refusal raster needed }
{
    if raster < needed {
        return Err(Refusal::Raster);
    }
    Ok(())
}

// Refused where bytes follow the raster.
#[tactic(auto, using(planes::proofs::Refusals::by_test), unfolding(crate::specs::Reading::trailing_refusal))]
fn trailing_refusal(raster: usize, needed: usize) -> Result<(), Refusal>
    ensures { number_in result ≡ trailing_refusal raster needed }
{
    if needed < raster {
        return Err(Refusal::Trailing);
    }
    Ok(())
}

// The refusals of a frame whose header has these numbers and is followed by `raster` bytes.
#[tactic(auto, using(crate::proofs::Refusals::in_order), unfolding(crate::specs::Reading::frame_refusal))]
fn frame_refusal(
    w: usize,
    h: usize,
    maxval: usize,
    raster: usize,
    limit: usize,
) -> Result<(), Refusal>
    ensures { number_in result ≡ frame_refusal w h maxval raster limit }
{
    planes::size_refusal(w, h, limit)?;
    maxval_refusal(maxval)?;
    let needed = 3 * (w * h);
    raster_refusal(raster, needed)?;
    trailing_refusal(raster, needed)
}

// Refused with 10 where the header is malformed or ended, and else with 1, 2, 11, 12 or 13, in that order.
#[tactic(auto, using(headers::proofs::Grammar::header_shorter), unfolding(crate::specs::Reading::read_reply))]
pub fn read_within(bytes: &[u8], limit: usize) -> Result<Header, Refusal>
    ensures { header_reply result ≡ read_reply bytes.now limit }
{
    let Fields {
        w,
        h,
        maxval,
        raster,
    } = headers::read_header(bytes).ok_or(Refusal::Header)?;
    frame_refusal(w, h, maxval, raster.len(), limit)?;
    Ok(Header {
        w,
        h,
        offset: bytes.len() - raster.len(),
    })
}

// Refused as above, with 2 for more than 1,048,576 pixels.
pub fn read(bytes: &[u8]) -> Result<Header, Refusal>
    ensures { header_reply result ≡ read_reply bytes.now greatest_pixels }
{
    read_within(bytes, planes::PIXELS)
}

// The refusals of writing a frame with a raster and an output of so many bytes.
#[tactic(auto, using(crate::proofs::Refusals::in_order), unfolding(crate::specs::Writing::write_refusal))]
fn write_refusal(w: usize, h: usize, raster: usize, output: usize) -> Result<(), Refusal>
    ensures { number_in result ≡ write_refusal w h raster output }
{
    planes::size_refusal(w, h, planes::PIXELS)?;
    planes::length_refusal(raster, 3 * (w * h))?;
    planes::output_refusal(output, texts::heading_length(w, h) + raster)
}

// Refused with 1, 2, 3 or 14, in that order; then `output` stays as it is. Else its first bytes are P6, LF, width,
// space, height, LF, 255, LF and the raster, and the bytes beyond stay.
#[tactic(auto, using(crate::proofs::Writing::room))]
pub fn write(raster: &[u8], w: usize, h: usize, output: &mut [u8]) -> Result<usize, Refusal>
    ensures { WriteOutcome raster.now w h output.old
        (written_reply result) output.new }
{
    write_refusal(w, h, raster.len(), output.len())?;
    let offset = texts::put_heading(output, w, h);
    Ok(texts::put_bytes(output, offset, raster))
}
