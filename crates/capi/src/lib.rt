// The library's calls for C and Rust callers: numbers and slices only. Every function answers one signed number, a
// refusal k as -k; include/mlhe.h describes each for its callers, to whom the crate `capi_c` exports them.
//
// mlhe_intensity      0: the plane holds the intensities of the frame
// mlhe_pass           0: both counts are in the lent numbers
// mlhe_run_list       0: the sums of both counts, of all passes, are in the lent numbers
// mlhe_convert_list   the number of bytes written
// mlhe_recolour       0: the output holds the frame, recoloured
// mlhe_enhance        0: the sums of both counts, of all levels, are in the lent numbers
// mlhe_read           0: width, height and the raster's offset are in the lent numbers
// mlhe_write          the number of bytes written
#![tactic(auto)]

ghost use Rattle.colours.specs.Calls.{IntensityOutcome, RecolourOutcome};
ghost use Rattle.netpbm.specs.Writing.{WriteOutcome};
ghost use Rattle.conversion.specs.Conversion.{ConvertOutcome};
ghost use Rattle.model.specs.Outcomes.{answer_reply};
ghost use Rattle.crules.specs.Rules.{numbers_for};
ghost use Rattle.cnumbers.specs.Numbers.{number_reply, done_reply, pass_of, settings_of};
ghost use Rattle.capi.specs.Calls.{PassCounted, ListCounted, EnhanceCounted};
ghost use Rattle.capi.specs.Calls.{PassNumber, ListNumber, EnhanceNumber, ReadNumber};

use enhance::Settings;
use model::{Counts, Pass};
use planes::{Refusal, Shape};
use tones::Rule;

// Fills the plane with the intensities of the frame.
pub fn mlhe_intensity(frame: &[u8], w: usize, h: usize, plane: &mut [u8]) -> i64
    ensures { IntensityOutcome w h frame.now plane.old (done_reply result)
        plane.new }
{
    cnumbers::status_number(colours::intensity(frame, w, h, plane))
}

// Writes the frame, recoloured from the new intensities in the plane, to the output.
pub fn mlhe_recolour(frame: &[u8], w: usize, h: usize, plane: &[u8], output: &mut [u8]) -> i64
    ensures { RecolourOutcome w h frame.now plane.now output.old
        (done_reply result) output.new }
{
    cnumbers::status_number(colours::recolour(frame, w, h, plane, output))
}

// A pass by its numbers, or its refusal: 1 to 4, 17, 5 to 8, 18, 19, then 14 where too few numbers are lent for both
// counts.
fn counted_pass(
    plane: &mut [u8],
    marks: &mut [u8],
    queue: &mut [u32],
    shape: Shape,
    a: u8,
    b: u8,
    area: u32,
    rule: &[u16],
    counts: &[usize],
) -> Result<Counts, Refusal>
    ensures { PassCounted shape (numbers_for rule.now) (pass_of a b area rule.now) counts.now plane.old marks.old
        queue.old (answer_reply result) plane.new marks.new queue.new }
{
    planes::lent_refusal(shape, plane.len(), marks.len(), queue.len())?;
    let pass = Pass {
        a,
        b,
        area,
        rule: Rule::try_from(crules::rule_numbers(rule))?,
        neighbours: crules::neighbour_number(rule),
    };
    model::pass_refusal(pass)?;
    cnumbers::counts_refusal(counts.len())?;
    passes::pass(plane, marks, queue, shape, pass)
}

// A pass over the plane.
pub fn mlhe_pass(
    plane: &mut [u8],
    marks: &mut [u8],
    queue: &mut [u32],
    w: usize,
    h: usize,
    a: u8,
    b: u8,
    area: u32,
    rule: &[u16],
    counts: &mut [usize],
) -> i64
    ensures { PassNumber w h a b area rule.now plane.old marks.old
        queue.old counts.old result plane.new marks.new queue.new
        counts.new }
{
    let shape = Shape { w, h };
    let answer = counted_pass(plane, marks, queue, shape, a, b, area, rule, counts);
    cnumbers::put_counts(counts, answer)
}

// The passes of a list, or its refusal, then 14 where too few numbers are lent for both counts.
fn counted_list(
    list: &[u8],
    plane: &mut [u8],
    marks: &mut [u8],
    queue: &mut [u32],
    shape: Shape,
    counts: &[usize],
) -> Result<Counts, Refusal>
    ensures { ListCounted shape list.now counts.now plane.old marks.old queue.old (answer_reply result)
        plane.new marks.new queue.new }
{
    if counts.len() < cnumbers::COUNTS {
        passlists::list_refusal(list, shape, plane.len(), marks.len(), queue.len())?;
        return Err(Refusal::Output);
    }
    passlists::run_list(list, plane, marks, queue, shape)
}

// The passes of a list over the plane.
pub fn mlhe_run_list(
    list: &[u8],
    plane: &mut [u8],
    marks: &mut [u8],
    queue: &mut [u32],
    w: usize,
    h: usize,
    counts: &mut [usize],
) -> i64
    ensures { ListNumber w h list.now plane.old marks.old
        queue.old counts.old result plane.new marks.new queue.new
        counts.new }
{
    let answer = counted_list(list, plane, marks, queue, Shape { w, h }, counts);
    cnumbers::put_counts(counts, answer)
}

// Writes a list in the other version.
pub fn mlhe_convert_list(list: &[u8], output: &mut [u8]) -> i64
    ensures { ConvertOutcome list.now output.old (number_reply result)
        output.new }
{
    cnumbers::written_number(passlists::convert(list, output))
}

// An enhancement by its numbers, or its refusal: 1, 2, 3, 4, 14, 17, 9, 6, 7, 8, 18, 19, then 14 where too few numbers
// are lent for both counts.
fn counted_enhancement(
    frame: &[u8],
    shape: Shape,
    last: u8,
    area: u32,
    rule: &[u16],
    plane: &mut [u8],
    marks: &mut [u8],
    queue: &mut [u32],
    output: &mut [u8],
    counts: &[usize],
) -> Result<Counts, Refusal>
    ensures { EnhanceCounted shape (numbers_for rule.now) (settings_of last area rule.now) frame.now counts.now
        plane.old marks.old queue.old output.old (answer_reply result)
        plane.new marks.new queue.new output.new }
{
    enhance::memory_refusal(
        shape,
        frame.len(),
        plane.len(),
        marks.len(),
        queue.len(),
        output.len(),
    )?;
    let settings = Settings {
        last,
        area,
        rule: Rule::try_from(crules::rule_numbers(rule))?,
        neighbours: crules::neighbour_number(rule),
    };
    levels::settings_refusal(settings)?;
    cnumbers::counts_refusal(counts.len())?;
    enhance::enhance(frame, shape, settings, plane, marks, queue, output)
}

// Enhances the frame.
pub fn mlhe_enhance(
    frame: &[u8],
    w: usize,
    h: usize,
    last: u8,
    area: u32,
    rule: &[u16],
    plane: &mut [u8],
    marks: &mut [u8],
    queue: &mut [u32],
    output: &mut [u8],
    counts: &mut [usize],
) -> i64
    ensures { EnhanceNumber w h last area rule.now frame.now plane.old
        marks.old queue.old output.old counts.old result
        plane.new marks.new queue.new output.new counts.new }
{
    let shape = Shape { w, h };
    let answer = counted_enhancement(
        frame, shape, last, area, rule, plane, marks, queue, output, counts,
    );
    cnumbers::put_counts(counts, answer)
}

// Reads the header of a frame.
pub fn mlhe_read(bytes: &[u8], numbers: &mut [usize]) -> i64
    ensures { ReadNumber bytes.now numbers.old result numbers.new }
{
    cnumbers::put_header(numbers, netpbm::read(bytes))
}

// Writes a frame.
pub fn mlhe_write(raster: &[u8], w: usize, h: usize, output: &mut [u8]) -> i64
    ensures { WriteOutcome raster.now w h output.old (number_reply result)
        output.new }
{
    cnumbers::written_number(netpbm::write(raster, w, h, output))
}
