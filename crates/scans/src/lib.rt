// The pixels of a plane in reading order: the search for the next that has a code, and all of them taken.
//
// next_pixel   the first pixel from one on, in reading order, that has the code
// take_plane   takes all pixels of a plane, and tells their number, their least and their greatest value; where they
//              have one code, they are one component: nothing is searched
#![tactic(auto)]

ghost use Rattle.std.specs.Prelude.{length};
ghost use Rattle.planes.specs.Shapes.{pixels, Lent};
ghost use Rattle.histograms.specs.Histograms.{Measured};
ghost use Rattle.scans.specs.Search.{Searchable, found_reply, NextPixel};
ghost use Rattle.scans.specs.Taking.{PlaneTaken};

use histograms::Measures;
use planes::Shape;
use rows::Grid;

// The first pixel that has the code, in reading order from the pixel `from` on; past the last pixel there is none.
// The requirements name its form: loops over rows and columns, left by a label.
pub fn next_pixel(marks: &[u8], grid: Grid, code: u8, from: usize) -> Option<usize>
    requires { Searchable marks.now grid.shape from }
    ensures { NextPixel marks.now code from (pixels grid.shape) (found_reply result) }
{
    if from == grid.shape.pixels() {
        return None;
    }
    let w = grid.shape.w;
    let h = grid.shape.h;
    let mut found = None;
    let top = grid.row_of(from);
    let mut first = from - top * w;
    'search: for y in top..h {
        let row = y * w;
        for x in rows::skip(marks, row + first, row + w, code) - row..w {
            let p = row + x;
            if marks[p] == code {
                found = Some(p);
                break 'search;
            }
        }
        first = 0;
    }
    found
}

// Takes all pixels of the plane in reading order, whatever their marks are: the marks become 0, and entry k of the
// queue is k. Tells their number, their least and their greatest value. Where they all had one code, this is the flood
// of their one component, but for the counts.
#[tactic(auto, using(crate::proofs::Taking::plane_taken))]
pub fn take_plane(plane: &[u8], marks: &mut [u8], queue: &mut [u32], shape: Shape) -> Measures
    requires { Lent shape (length plane.now) (length marks.old) (length queue.old) }
    ensures { PlaneTaken (pixels shape) marks.old queue.old
        marks.new queue.new × Measured plane.now result }
{
    let n = shape.pixels();
    marks[..n].fill(0);
    for (k, q) in queue[..n].iter_mut().enumerate() {
        *q = k as u32;
    }
    histograms::measure(plane)
}
