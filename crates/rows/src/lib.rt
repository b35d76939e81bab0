// Rows of a plane of marks: the row of a pixel, and the pixels of a row that have one code.
//
// inverse     the inverse of a width
// row_of      the row of a pixel, by multiplication with the inverse in place of a division by the width
// Grid        the rows of a plane: its shape, and the inverse of its width
//   new         those of a shape
//   row_of      the row of a pixel
//   reach       takes a pixel with its run: the pixels of its row that have the code and follow one another
// skip        passes pixels that have not the code, by stretches of 64
// run_start   the first pixel of a run
// take_run    takes a run: its marks become 0, and its pixels are put at the queue's tail
//
// Which pixels are neighbours is not known here, but for those of one row.
#![tactic(auto)]

ghost use Rattle.std.specs.Prelude.{◌+◌, ◌/◌, ◌≤◌, ◌<◌, ◌≡◌, length};
ghost use Rattle.planes.specs.Refusals.{greatest_pixels};
ghost use Rattle.planes.specs.Shapes.{SizedShape};
ghost use Rattle.rows.specs.Rows.{Width, inverse_of, row_end};
ghost use Rattle.rows.specs.Stretches.{Tells, Skipped};
ghost use Rattle.rows.specs.Runs.{Room, RunStart, RunTaken, Reached};

use planes::Shape;

// The inverse of the width w: the least number whose product with w is more than 2 ^ 32.
#[tactic(auto, unfolding(crate::specs::Rows::inverse_of))]
pub fn inverse(w: usize) -> u64
    requires { 1 ≤ w }
    ensures { result ≡ inverse_of w }
{
    4294967296 / w as u64 + 1
}

// The row of the pixel q, in rows of w pixels, by the inverse of w: any width that is not refused, whatever the rows.
#[tactic(auto, using(crate::proofs::Rows::product_le, crate::proofs::Rows::row_by_inverse))]
pub fn row_of(q: usize, w: usize, inverse: u64) -> usize
    requires { Width w inverse × (q < greatest_pixels) }
    ensures { result ≡ q / w }
{
    (q as u64 * inverse / 4294967296) as usize
}

// The rows of a plane whose shape is not refused. The inverse of the width is the least number whose product with it is
// more than 2 ^ 32.
#[derive(Clone, Copy)]
pub struct Grid {
    pub shape: Shape,
    pub inverse: u64,
    pub ghost size: { SizedShape shape },
    pub ghost inverse_is: { inverse ≡ inverse_of shape.w },
}

impl Grid {
    // The grid of a shape that is not refused.
    pub fn new(shape: Shape) -> Self
        requires { SizedShape shape }
        ensures { result.shape ≡ shape }
    {
        Grid {
            shape,
            inverse: inverse(shape.w),
        }
    }

    // The row of the pixel q.
    pub fn row_of(self, q: usize) -> usize
        requires { q < greatest_pixels }
        ensures { result ≡ q / self.shape.w }
    {
        row_of(q, self.shape.w, self.inverse)
    }

    // Takes the pixel q, if it has the code, with the run of its row. The new tail.
    #[tactic(auto, using(crate::proofs::Rows::row_bounds, crate::proofs::Taken::room_less))]
    pub fn reach(
        self,
        marks: &mut [u8],
        queue: &mut [u32],
        code: u8,
        q: usize,
        tail: usize,
    ) -> usize
        requires { Room marks.old queue.old (row_end self.shape.w q) code tail }
        ensures { Reached self.shape.w code q marks.old queue.old tail marks.new
            queue.new result }
    {
        if marks[q] != code {
            return tail;
        }
        let row = self.row_of(q) * self.shape.w;
        let first = run_start(marks, code, row, q);
        take_run(marks, queue, code, first, row + self.shape.w, tail)
    }
}

// Whether one of the 64 marks from `at` on has the code.
fn holds(marks: &[u8], at: usize, code: u8) -> bool
    requires { at + 64 ≤ length marks.now }
    ensures { Tells marks.now code at (at + 64) result }
{
    let mut found = false;
    for m in &marks[at..at + 64] {
        found |= *m == code;
    }
    found
}

// A pixel from `at` on, such that none between has the code: stretches of 64 marks are passed until one holds the code,
// `end` is reached, or the marks end within the stretch. A `step_by` would ask twice at each stretch whether `end` is
// reached, and take an eighth longer.
pub fn skip(marks: &[u8], at: usize, end: usize, code: u8) -> usize
    requires { end ≤ length marks.now }
    ensures { Skipped marks.now code at result }
{
    let mut p = at;
    while p < end && 64 <= marks.len() - p && !holds(marks, p, code) {
        p += 64;
    }
    p
}

// The first pixel of the run of pixels that have the code and end before q, in the row that starts at `row`; q if the
// pixel before it has not the code.
fn run_start(marks: &[u8], code: u8, row: usize, q: usize) -> usize
    requires { (row ≤ q) × (q ≤ length marks.now) }
    ensures { RunStart marks.now code row q result }
{
    for p in (row..q).rev() {
        if marks[p] != code {
            return p + 1;
        }
    }
    row
}

// Takes pixels from `at` on while they have the code, up to `end`: the mark of each becomes 0, and it is put at the
// queue's tail. The new tail, which is counted by hand since it is told also where the run ends early.
#[tactic(auto, using(crate::specs::Runs::start, crate::specs::Runs::more, crate::proofs::Runs::run_space))]
fn take_run(
    marks: &mut [u8],
    queue: &mut [u32],
    code: u8,
    at: usize,
    end: usize,
    tail: usize,
) -> usize
    requires { (at ≤ end) × Room marks.old queue.old end code tail }
    ensures { RunTaken code at end marks.old queue.old tail marks.new
        queue.new result }
{
    let mut next = tail;
    for p in at..end {
        if marks[p] != code {
            return next;
        }
        marks[p] = 0;
        queue[next] = p as u32;
        next += 1;
    }
    next
}
