// Components of the pixels whose marks have one code: the flood that takes the component of a pixel.
//
// flood      takes the component of a pixel: its marks become 0, and its pixels are the first entries of the queue;
//            tells its size, its least and its greatest value, and counts its values
// flood_by   the same by the neighbours of one kind of flood
// Spreads    how far a flood has come, and how it goes on: by four neighbours a `Tail`, by eight a `spreading::Front`
// see        counts a value, and takes it into the measures
//
// A pixel is taken with the run of its row, and its value is seen when the flood spreads from it. Which pixels of other
// rows are neighbours, by 4 and by 8, is known to `spreading` alone.
#![tactic(auto)]

ghost use Rattle.std.specs.Prelude.{ℕ, ◌≤◌, ◌<◌, ◌≡◌, length, List, ⊤};
ghost use Rattle.planes.specs.Lists.{at};
ghost use Rattle.planes.specs.Refusals.{greatest_pixels};
ghost use Rattle.planes.specs.Neighbours.{Near, eight};
ghost use Rattle.planes.specs.Shapes.{pixels, neighbours, adjacency, Narrower};
ghost use Rattle.planes.specs.declared.Shape.{Shape};
ghost use Rattle.rows.specs.Rows.{in_row};
ghost use Rattle.spreading.specs.Spreads.{Spread, Spreadable, Begun};
ghost use Rattle.spreading.proofs.Around.{row_neighbours, row_eight};
ghost use Rattle.components.specs.Floods.{Seen, FloodAsks, FloodGives};

use histograms::Measures;
use planes::EIGHT;
use rows::Grid;
use spreading::Front;

// How far a flood has come, and how it goes on from a pixel.
trait Spreads: Copy + Drop {
    // The neighbours that it takes.
    ghost near: { Shape → Near };

    // The queue's tail.
    ghost end: { Self → ℕ };

    // What it knows of the marks that have the code.
    ghost knows: { Self → Shape → ℕ → List ℕ → Type 0 };

    // Where the flood has taken the run of its first pixel, with n pixels.
    fn begin(tail: usize, n: usize) -> Self
        ensures is_end { end result ≡ tail }
        ensures known { (z : Shape) (code : ℕ) (marks : List ℕ) → pixels z ≤ n → knows result z code marks };

    // The queue's tail.
    fn tail(self) -> usize
        ensures { result ≡ end self };

    // Takes what is next to the pixel p, which was taken with the run of its row.
    fn spread(self, marks: &mut [u8], queue: &mut [u32], grid: Grid, code: u8, p: usize) -> Self
        requires { Spreadable marks.old queue.old grid.shape code p (end self) × knows self grid.shape code marks.old }
        ensures { Spread (near grid.shape) (near grid.shape) grid.shape.w (pixels grid.shape) code p
            marks.old queue.old (end self) marks.new queue.new (end result)
            × knows result grid.shape code marks.new };

    // The neighbours in a row are among them.
    ghost rows: { (z : Shape) → 1 ≤ z.w → Narrower (in_row z.w) (near z) };
}

// By four neighbours: the queue's tail alone.
#[derive(Clone, Copy)]
struct Tail(usize);

impl Spreads for Tail {
    ghost near = { neighbours };

    ghost end = { λ s. s.0 };

    ghost knows = { λ s z code marks. ⊤ };

    ghost rows = { row_neighbours };

    fn begin(tail: usize, n: usize) -> Self {
        Tail(tail)
    }

    fn tail(self) -> usize {
        self.0
    }

    fn spread(self, marks: &mut [u8], queue: &mut [u32], grid: Grid, code: u8, p: usize) -> Self {
        Tail(spreading::reach_column(marks, queue, grid, code, p, self.0))
    }
}

impl Spreads for Front {
    ghost near = { λ z. eight z.w };

    ghost end = { λ s. s.tail };

    ghost knows = { λ s z code marks. s.reached < pixels z → Begun z.w (pixels z) code marks s.reached };

    ghost rows = { λ z. row_eight z.w };

    fn begin(tail: usize, n: usize) -> Self {
        Front { tail, reached: n }
    }

    fn tail(self) -> usize {
        self.tail
    }

    fn spread(self, marks: &mut [u8], queue: &mut [u32], grid: Grid, code: u8, p: usize) -> Self {
        spreading::spread(marks, queue, grid, code, p, self)
    }
}

// Counts the value of the pixel p, and takes it into the measures of the pixels that were seen before.
fn see(plane: &[u8], counts: &mut [u32; 256], p: usize, seen: Measures) -> Measures
    requires { (p < length plane.now)
        × ((seen.size < greatest_pixels) × (at counts.old (at plane.now p) < greatest_pixels)) }
    ensures { Seen (at plane.now p) seen counts.old result counts.new }
{
    let v = plane[p];
    counts[v as usize] += 1;
    Measures {
        size: seen.size + 1,
        least: seen.least.min(v),
        greatest: seen.greatest.max(v),
    }
}

// Takes the component of the pixel `start` among those that have the code, by the neighbours of F, breadth first.
fn flood_by<F: Spreads>(
    plane: &[u8],
    marks: &mut [u8],
    queue: &mut [u32],
    counts: &mut [u32; 256],
    grid: Grid,
    code: u8,
    start: usize,
) -> Measures
    requires { FloodAsks plane.now marks.old queue.old counts.old grid.shape code start }
    ensures { FloodGives (F.near grid.shape) (pixels grid.shape) code start plane.now
        marks.old queue.old marks.new queue.new counts.new result }
{
    let v = plane[start];
    let mut seen = Measures {
        size: 0,
        least: v,
        greatest: v,
    };
    let tail = grid.reach(marks, queue, code, start, 0);
    let mut front = F::begin(tail, grid.shape.pixels());
    while seen.size < front.tail() {
        let p = queue[seen.size] as usize;
        front = front.spread(marks, queue, grid, code, p);
        seen = see(plane, counts, p, seen);
    }
    seen
}

// Takes the component of the pixel `start` among those that have the code, by the number of neighbours. The number of
// its pixels, and its least and greatest value. Its values are counted; the counts are 0 before. Each number has a loop
// of its own, so that four neighbours do not pay for eight.
#[tactic(auto, unfolding(planes::specs::Shapes::adjacency))]
pub fn flood(
    plane: &[u8],
    marks: &mut [u8],
    queue: &mut [u32],
    counts: &mut [u32; 256],
    grid: Grid,
    neighbours: u8,
    code: u8,
    start: usize,
) -> Measures
    requires { FloodAsks plane.now marks.old queue.old counts.old grid.shape code start }
    ensures { FloodGives (adjacency grid.shape neighbours) (pixels grid.shape) code start plane.now
        marks.old queue.old marks.new queue.new counts.new result }
{
    if neighbours == EIGHT {
        return flood_by::<Front>(plane, marks, queue, counts, grid, code, start);
    }
    flood_by::<Tail>(plane, marks, queue, counts, grid, code, start)
}
