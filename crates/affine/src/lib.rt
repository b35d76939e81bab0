// The piecewise affine rule, which joins some points of a component's sums by straight lines and holds the slope of
// each between two limits. Only `affine_tones` is public.
//
// affine_tones                        a component's table of tones, and whether it is retoned
// keeps                               the test that keeps the old values
// fill_lines, fill_line, line_tone    entries of the table
//
// Counts and table are lent, with any content in the table, and only their entries of [least, greatest], from the
// component's least value to its greatest, are read or written. The points are gone over twice, once for the last
// height and once for the tones: a component costs time in the spread of its values and in its segments. What is
// divided is a height, below 2^32, times two numbers of 8 bits.
#![tactic(auto)]

ghost use Rattle.std.specs.Prelude.{◌≡◌, ◌+◌, ◌^◌, ◌≤◌, ◌<◌, max, length};
ghost use Rattle.planes.specs.Lists.{at};
ghost use Rattle.histograms.specs.Histograms.{Confined, Refilled};
ghost use Rattle.histograms.specs.Tables.{Ruled};
ghost use Rattle.points.specs.Points.{start, points, top_of, Cumulative};
ghost use Rattle.affine.specs.Affine.{line_tone, joined, kept_at, affine_tone, affine_kept, Drawn};

use histograms::{Measures, fill_same, refill, scale, sum_up};
use points::{Curve, Point, Slopes};

// Whether the old values are kept, by the number n of segments, d = b - a, and the last height y.
fn keeps(n: u8, d: u8, y: u64) -> bool
    ensures { result ≡ kept_at n d y }
{
    d == 0 || n == 0 || y < 100 * u64::from(n) * u64::from(d)
}

// The tone of v on the line from p to q, where the height y becomes b.
fn line_tone(p: Point, q: Point, y: u64, a: u8, b: u8, v: usize) -> u8
    requires { (((a ≤ b) × (p.place ≤ v)) × ((v < q.place) × (q.place < 256)))
        × (((p.height ≤ q.height) × (q.height ≤ y)) × ((1 ≤ y) × (y < 2 ^ 32))) }
    ensures { result ≡ line_tone a b y p q v }
{
    let d = (q.place - p.place) as u64;
    let along = (v - p.place) as u64;
    let rise = q.height - p.height;
    scale(a, b, p.height * d + rise * along, y * d)
}

// The tones of the values from x to below q on the line from p to q.
fn fill_line(table: &mut [u8; 256], p: Point, q: Point, y: u64, a: u8, b: u8, x: usize)
    requires { (((a ≤ b) × (p.place ≤ x)) × (q.place < 256))
        × (((p.height ≤ q.height) × (q.height ≤ y)) × ((1 ≤ y) × (y < 2 ^ 32))) }
    ensures { Refilled (line_tone a b y p q) x (max x q.place) table.old table.new }
{
    refill(table, x, q.place, |v| line_tone(p, q, y, a, b, v));
}

// The tones of the values of [least, greatest], where the height y of the last point becomes b.
fn fill_lines(curve: Curve, table: &mut [u8; 256], y: u64)
    requires { ((1 ≤ curve.s.segments) × ((1 ≤ y) × (y < 2 ^ 32)))
        × (y ≡ (top_of (start curve.a)
        (points curve.s curve.a curve.b (at curve.sums.now) curve.c.size)).height) }
    ensures { Refilled (joined curve.entry.a curve.entry.b y (start curve.entry.a)
        (points curve.entry.s curve.entry.a curve.entry.b (at curve.entry.sums.now) curve.entry.c.size))
        curve.entry.c.least (curve.entry.c.greatest + 1) table.old table.new }
{
    let least = usize::from(curve.c.least);
    let mut p = curve.start();
    for i in 0..u64::from(curve.s.segments) {
        let q = curve.next_point(i, p);
        fill_line(table, p, q, y, curve.a, curve.b, p.place.max(least));
        p = q;
    }
    table[usize::from(curve.c.greatest)] = curve.b;
}

// The table of the rule; whether the component is retoned.
pub fn affine_tones(
    counts: &mut [u32; 256],
    table: &mut [u8; 256],
    c: Measures,
    s: Slopes,
    a: u8,
    b: u8,
) -> bool
    requires { Drawn counts.old c a b }
    ensures { Ruled (affine_kept s a b) (affine_tone s a b) c counts.old table.new result
        × Confined c.least c.greatest
        counts.old table.old counts.new table.new }
{
    sum_up(counts, c.least, c.greatest);
    let curve = Curve {
        sums: counts,
        c,
        s,
        a,
        b,
    };
    let y = curve.top_height();
    if keeps(s.segments, b - a, y) {
        fill_same(table, c.least, c.greatest);
        return false;
    }
    fill_lines(curve, table, y);
    true
}
