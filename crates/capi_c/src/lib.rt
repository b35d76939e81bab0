// The static library for C and Rust callers: the functions of `capi`, under the same names and with the same contracts.
// A slice is a pointer and then a length. Every function answers one signed number, a refusal k as -k; include/mlhe.h
// describes each for its callers.
//
// mlhe_intensity      0: the plane holds the intensities of the frame
// mlhe_pass           0: both counts are in the lent numbers
// mlhe_run_list       0: the sums of both counts, of all passes, are in the lent numbers
// mlhe_convert_list   the number of bytes written
// mlhe_recolour       0: the output holds the frame, recoloured
// mlhe_enhance        0: the sums of both counts, of all levels, are in the lent numbers
// mlhe_read           0: width, height and the raster's offset are in the lent numbers
// mlhe_write          the number of bytes written
#![tactic(auto)]

ghost use Rattle.colours.specs.Calls.{IntensityOutcome, RecolourOutcome};
ghost use Rattle.netpbm.specs.Writing.{WriteOutcome};
ghost use Rattle.conversion.specs.Conversion.{ConvertOutcome};
ghost use Rattle.cnumbers.specs.Numbers.{number_reply, done_reply};
ghost use Rattle.capi.specs.Calls.{PassNumber, ListNumber, EnhanceNumber, ReadNumber};

// Fills the plane with the intensities of the frame.
#[unsafe(no_mangle)]
pub extern "C" fn mlhe_intensity(frame: &[u8], w: usize, h: usize, plane: &mut [u8]) -> i64
    ensures { IntensityOutcome w h frame.now plane.old (done_reply result)
        plane.new }
{
    capi::mlhe_intensity(frame, w, h, plane)
}

// Writes the frame, recoloured from the new intensities in the plane, to the output.
#[unsafe(no_mangle)]
pub extern "C" fn mlhe_recolour(
    frame: &[u8],
    w: usize,
    h: usize,
    plane: &[u8],
    output: &mut [u8],
) -> i64
    ensures { RecolourOutcome w h frame.now plane.now output.old
        (done_reply result) output.new }
{
    capi::mlhe_recolour(frame, w, h, plane, output)
}

// A pass over the plane.
#[unsafe(no_mangle)]
pub extern "C" fn mlhe_pass(
    plane: &mut [u8],
    marks: &mut [u8],
    queue: &mut [u32],
    w: usize,
    h: usize,
    a: u8,
    b: u8,
    area: u32,
    rule: &[u16],
    counts: &mut [usize],
) -> i64
    ensures { PassNumber w h a b area rule.now plane.old marks.old
        queue.old counts.old result plane.new marks.new queue.new
        counts.new }
{
    capi::mlhe_pass(plane, marks, queue, w, h, a, b, area, rule, counts)
}

// The passes of a list over the plane.
#[unsafe(no_mangle)]
pub extern "C" fn mlhe_run_list(
    list: &[u8],
    plane: &mut [u8],
    marks: &mut [u8],
    queue: &mut [u32],
    w: usize,
    h: usize,
    counts: &mut [usize],
) -> i64
    ensures { ListNumber w h list.now plane.old marks.old
        queue.old counts.old result plane.new marks.new queue.new
        counts.new }
{
    capi::mlhe_run_list(list, plane, marks, queue, w, h, counts)
}

// Writes a list in the other version.
#[unsafe(no_mangle)]
pub extern "C" fn mlhe_convert_list(list: &[u8], output: &mut [u8]) -> i64
    ensures { ConvertOutcome list.now output.old (number_reply result)
        output.new }
{
    capi::mlhe_convert_list(list, output)
}

// Enhances the frame.
#[unsafe(no_mangle)]
pub extern "C" fn mlhe_enhance(
    frame: &[u8],
    w: usize,
    h: usize,
    last: u8,
    area: u32,
    rule: &[u16],
    plane: &mut [u8],
    marks: &mut [u8],
    queue: &mut [u32],
    output: &mut [u8],
    counts: &mut [usize],
) -> i64
    ensures { EnhanceNumber w h last area rule.now frame.now plane.old
        marks.old queue.old output.old counts.old result
        plane.new marks.new queue.new output.new counts.new }
{
    capi::mlhe_enhance(
        frame, w, h, last, area, rule, plane, marks, queue, output, counts,
    )
}

// Reads the header of a frame.
#[unsafe(no_mangle)]
pub extern "C" fn mlhe_read(bytes: &[u8], numbers: &mut [usize]) -> i64
    ensures { ReadNumber bytes.now numbers.old result numbers.new }
{
    capi::mlhe_read(bytes, numbers)
}

// Writes a frame.
#[unsafe(no_mangle)]
pub extern "C" fn mlhe_write(raster: &[u8], w: usize, h: usize, output: &mut [u8]) -> i64
    ensures { WriteOutcome raster.now w h output.old (number_reply result)
        output.new }
{
    capi::mlhe_write(raster, w, h, output)
}
