// The points of the piecewise affine rule: places and heights, by the sums of a component's counts.
//
// Slopes         the rule's own numbers
// Point          a place and a height
// Curve          the sums of a component's counts, and its points: start, next_point, top_height
// find, grown    within: a point's place and height
//
// The points are gone over without being stored. Heights are below 2^32 for any numbers of the rule, since slopes have
// 16 bits, segments 8 and distances 8; so all products fit 64 bits.
#![tactic(auto)]

ghost use Rattle.std.specs.Prelude.{◌≡◌, ℕ, ◌+◌, ◌-◌, ◌*◌, ◌^◌, ◌≤◌, ◌<◌, min, max, length};
ghost use Rattle.planes.specs.Lists.{at};
ghost use Rattle.points.specs.Points.{growth, next_point, start, points, top_of, Cumulative, First, Reached};

use histograms::Measures;

// The rule's numbers: how many segments, and the least and the greatest slope of each, in hundredths.
#[derive(Clone, Copy, Debug, PartialEq, Eq)]
pub struct Slopes {
    pub segments: u8,
    pub smin: u16,
    pub smax: u16,
}

// A point: a value, and the height there in units of 1 / (100 × segments).
#[derive(Clone, Copy, Debug, PartialEq, Eq)]
pub struct Point {
    pub place: usize,
    pub height: u64,
}

// The sums of a component's counts in the section [a, b], with the rule's numbers: what the points go by.
#[derive(Clone, Copy)]
pub struct Curve<'a> {
    pub sums: &'a [u32; 256],
    pub c: Measures,
    pub s: Slopes,
    pub a: u8,
    pub b: u8,
    ghost cumulative: { Cumulative sums.now c a b },
}

// The least value from x on whose sum, times n, is at least `need`; y if none before it is.
fn find(sums: &[u32; 256], n: u64, need: u64, x: usize, y: usize) -> usize
    requires { ((v : ℕ) → v ≤ y → at sums.now v ≤ 1048576)
        × ((n < 256) × ((x ≤ y) × (y < 256))) }
    ensures { First sums.now n need x y result }
{
    for v in x..y {
        if need <= n * u64::from(sums[v]) {
            return v;
        }
    }
    y
}

// The growth of the height over the distance d: what is wanted, held between low and high; where low is above high,
// high.
fn grown(s: Slopes, d: u64, more: u64) -> u64
    requires { d < 256 }
    ensures { result ≡ growth s d more }
{
    let n = u64::from(s.segments);
    let low = u64::from(s.smin) * n * d;
    let high = u64::from(s.smax) * n * d;
    more.max(low).min(high)
}

impl Curve<'_> {
    // Point 0.
    pub fn start(self) -> Point
        ensures { result ≡ start self.entry.a }
    {
        Point {
            place: usize::from(self.a),
            height: 0,
        }
    }

    // The point after p, which is point i.
    pub fn next_point(self, i: u64, p: Point) -> Point
        requires { (i < self.s.segments) × Reached self.s self.sums.now self.c self.a i p }
        ensures { result ≡
            next_point self.entry.s self.entry.a self.entry.b (at self.entry.sums.now) self.entry.c.size (i + 1) p }
    {
        let j = i + 1;
        let n = u64::from(self.s.segments);
        let from = p.place.max(usize::from(self.c.least));
        let need = j * self.c.size as u64;
        let place = find(self.sums, n, need, from, usize::from(self.c.greatest));
        let d = (place - p.place) as u64;
        let goal = 100 * u64::from(self.b - self.a) * j;
        let height = p.height + grown(self.s, d, goal.saturating_sub(p.height));
        Point { place, height }
    }

    // The height of the last point.
    pub fn top_height(self) -> u64
        ensures { (result ≡ (top_of (start self.entry.a)
            (points self.entry.s self.entry.a self.entry.b (at self.entry.sums.now) self.entry.c.size)).height)
            × (result < 2 ^ 32) }
    {
        let mut p = self.start();
        for i in 0..u64::from(self.s.segments) {
            p = self.next_point(i, p);
        }
        p.height
    }
}
