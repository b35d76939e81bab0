// What is next to a taken pixel is taken, run by run, by four and by eight neighbours.
//
// reach_column   takes the runs of the pixels above and below a pixel: for a pixel that was taken with the run of its
//                row, all that the four neighbours have in other rows
// spread         takes what is next to a pixel by eight neighbours: the pixels above and below those of a run and of
//                one more at either end of it, never past the ends of the row
// Front          how far a flood by eight neighbours has come
//
// Which pixels of other rows are neighbours is known here alone.
#![tactic(auto)]

ghost use Rattle.std.specs.Prelude.{◌*◌, ◌/◌, ◌≤◌, ◌<◌, ◌≡◌};
ghost use Rattle.planes.specs.Shapes.{pixels};
ghost use Rattle.spreading.specs.Spreads.{Above, Below, Left, Right, Reachable, ColumnReached};
ghost use Rattle.spreading.specs.Spreads.{Spreadable, Begun, RunBegun, SpreadOn};

use rows::Grid;

// The queue's tail, and the last pixel that was spread from or the one right of it: above and below it, and above and
// below the pixel left of it, nothing is left that has the code. Before the first pixel, a number that is none.
#[derive(Clone, Copy, Debug, PartialEq, Eq)]
pub struct Front {
    pub tail: usize,
    pub reached: usize,
}

// The pixels above and below the pixel p, of n pixels in rows of w: p itself where the plane ends there.
fn above(p: usize, w: usize) -> usize
    ensures { Above w p result }
{
    if p < w { p } else { p - w }
}

fn below(p: usize, w: usize, n: usize) -> usize
    requires { (w ≤ 4096) × (p < 1048576) }
    ensures { Below w n p result }
{
    if p + w < n { p + w } else { p }
}

// The pixels left and right of the pixel p, in the row from `row` on and before `end`: p itself where the row ends
// there.
fn left(p: usize, row: usize) -> usize
    ensures { Left row p result }
{
    if p <= row { p } else { p - 1 }
}

fn right(p: usize, end: usize) -> usize
    requires { p < 1048576 }
    ensures { Right end p result }
{
    if p + 1 < end { p + 1 } else { p }
}

// Takes the runs of the pixels above and below q that have the code. The new tail.
pub fn reach_column(
    marks: &mut [u8],
    queue: &mut [u32],
    grid: Grid,
    code: u8,
    q: usize,
    tail: usize,
) -> usize
    requires { Reachable marks.old queue.old grid.shape code q tail }
    ensures { ColumnReached grid.shape.w (pixels grid.shape) code q
        marks.old queue.old tail marks.new queue.new result }
{
    let w = grid.shape.w;
    let n = grid.shape.pixels();
    let next = grid.reach(marks, queue, code, above(q, w), tail);
    grid.reach(marks, queue, code, below(q, w, n), next)
}

// Where p is the first pixel of a run, takes the runs of the pixels above and below it and the pixel left of it that
// have the code; any other was reached already. The new tail.
fn begin_run(
    marks: &mut [u8],
    queue: &mut [u32],
    grid: Grid,
    code: u8,
    p: usize,
    row: usize,
    front: Front,
) -> usize
    requires { Spreadable marks.old queue.old grid.shape code p front.tail
        × ((row ≡ p / grid.shape.w * grid.shape.w)
        × (p ≡ front.reached → Begun grid.shape.w (pixels grid.shape) code marks.old p)) }
    ensures { RunBegun grid.shape.w (pixels grid.shape) code p
        marks.old queue.old front.tail marks.new queue.new result }
{
    if p == front.reached {
        return front.tail;
    }
    let next = reach_column(marks, queue, grid, code, left(p, row), front.tail);
    reach_column(marks, queue, grid, code, p, next)
}

// Takes what is next to the pixel p by eight neighbours, which was taken with the run of its row: the runs of its
// neighbours in other rows that have the code. Where the flood has come then.
pub fn spread(
    marks: &mut [u8],
    queue: &mut [u32],
    grid: Grid,
    code: u8,
    p: usize,
    front: Front,
) -> Front
    requires { Spreadable marks.old queue.old grid.shape code p front.tail
        × (p ≡ front.reached → Begun grid.shape.w (pixels grid.shape) code marks.old p) }
    ensures { SpreadOn grid.shape.w (pixels grid.shape) code p
        marks.old queue.old front.tail marks.new queue.new result }
{
    let w = grid.shape.w;
    let row = grid.row_of(p) * w;
    let next = begin_run(marks, queue, grid, code, p, row, front);
    let reached = right(p, row + w);
    let tail = reach_column(marks, queue, grid, code, reached, next);
    Front { tail, reached }
}
