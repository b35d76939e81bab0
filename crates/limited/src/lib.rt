// The limited rule, which clips the counts at k thousandths of the pixels. Only `limited_tones` is public.
//
// limited_tones           a component's table of tones
// clip, sum_clipped       clipped counts and their sums, in place
// Clipped                 those sums, and the tones by them: tone, of one value; fill_all, fill_listed and fill, of the
//                         entries of the table
//
// Counts and table are lent, with any content in the table, and only their entries of [least, greatest], from the
// component's least value to its greatest, are read or written. The table divides once for each value of
// [least, greatest] or each pixel, whichever are fewer.
#![tactic(auto)]

ghost use Rattle.std.specs.Prelude.{◌≡◌, ◌+◌, ◌*◌, ◌^◌, ◌≤◌, ◌<◌, min, length};
ghost use Rattle.planes.specs.Lists.{at};
ghost use Rattle.histograms.specs.Values.{sum_to};
ghost use Rattle.histograms.specs.Histograms.{Component, Gathered, Outside, Refilled, Counted};
ghost use Rattle.histograms.specs.Sums.{Sums};
ghost use Rattle.histograms.specs.Tables.{RuleTabled};
ghost use Rattle.limited.specs.Limited.{limited_tone, never_kept, limited_by, clipped_at, ClippedSums, Filled};

use histograms::{Measures, refill, scale, sum_up};

// The counts from first to last in thousandths, none above `most`.
fn clip(counts: &mut [u32; 256], first: u8, last: u8, most: u64)
    requires { (first ≤ last) × (sum_to (at counts.old) first last ≤ 1048576) }
    ensures { Refilled (clipped_at most counts.old) first (last + 1)
        counts.old counts.new }
{
    for n in &mut counts[usize::from(first)..=usize::from(last)] {
        *n = most.min(1000 * u64::from(*n)) as u32;
    }
}

// The sums of the clipped counts of a component in the section [a, b], by which the limited rule's tones go.
#[derive(Clone, Copy)]
struct Clipped<'a> {
    sums: &'a [u32; 256],
    c: Measures,
    a: u8,
    b: u8,
    ghost rising: { Sums sums.now (1000 * c.size) c a b },
}

impl Clipped<'_> {
    // The limited rule's tone of v. Each value of [a, b] has its share of what the clipping left over.
    fn tone(&self, v: usize) -> u8
        requires { (self.now.c.least ≤ v) × (v ≤ self.now.c.greatest) }
        ensures { result ≡ limited_by self.now.sums.now self.now.c self.now.a self.now.b v }
    {
        let w = u64::from(self.b - self.a) + 1;
        let n = (v - usize::from(self.a)) as u64 + 1;
        let all = 1000 * self.c.size as u64;
        let e = all - u64::from(self.sums[usize::from(self.c.greatest)]);
        scale(self.a, self.b, w * u64::from(self.sums[v]) + n * e, w * all)
    }

    // The tones of the values of [least, greatest].
    fn fill_all(&self, table: &mut [u8; 256])
        ensures { Refilled (limited_by self.now.sums.now self.now.c self.now.a self.now.b)
            self.now.c.least (self.now.c.greatest + 1) table.old table.new }
    {
        let first = usize::from(self.c.least);
        let end = usize::from(self.c.greatest) + 1;
        refill(table, first, end, |v| self.tone(v));
    }

    // The tones of the values of the component's pixels.
    fn fill_listed(&self, plane: &[u8], queue: &[u32], table: &mut [u8; 256])
        requires { Component plane.now queue.now self.now.c.size self.now.c.least self.now.c.greatest }
        ensures { Filled (limited_by self.now.sums.now self.now.c self.now.a self.now.b)
            plane.now queue.now table.new self.now.c.size
            × Outside self.now.c.least self.now.c.greatest table.old table.new }
    {
        for p in &queue[..self.c.size] {
            let v = usize::from(plane[*p as usize]);
            table[v] = self.tone(v);
        }
    }

    // The tones by whichever are fewer, the values of [least, greatest] or the pixels.
    #[tactic(auto, using(crate::proofs::Stores::filled_all, histograms::proofs::Stores::refilled_outside))]
    fn fill(&self, plane: &[u8], queue: &[u32], table: &mut [u8; 256])
        requires { Component plane.now queue.now self.now.c.size self.now.c.least self.now.c.greatest }
        ensures { Filled (limited_by self.now.sums.now self.now.c self.now.a self.now.b)
            plane.now queue.now table.new self.now.c.size
            × Outside self.now.c.least self.now.c.greatest table.old table.new }
    {
        if self.c.size <= usize::from(self.c.greatest - self.c.least) {
            self.fill_listed(plane, queue, table);
        } else {
            self.fill_all(table);
        }
    }
}

// Clips the counts of the values of [least, greatest] at k thousandths of the pixels, and sums them, in place.
fn sum_clipped(counts: &mut [u32; 256], c: Measures, k: u16)
    requires { Counted counts.old c c.least c.greatest }
    ensures { ClippedSums k c counts.old counts.new }
{
    clip(counts, c.least, c.greatest, u64::from(k) * c.size as u64);
    sum_up(counts, c.least, c.greatest);
}

// The table of the limited rule; whether the component is retoned, which it always is: all rules answer alike.
pub fn limited_tones(
    plane: &[u8],
    queue: &[u32],
    c: Measures,
    counts: &mut [u32; 256],
    table: &mut [u8; 256],
    k: u16,
    a: u8,
    b: u8,
) -> bool
    requires { Gathered plane.now queue.now counts.old c a b }
    ensures { RuleTabled never_kept (limited_tone k a b) c.least c.greatest
        plane.now queue.now counts.old table.old
        c.size result counts.new table.new }
{
    sum_clipped(counts, c, k);
    let clipped = Clipped {
        sums: counts,
        c,
        a,
        b,
    };
    clipped.fill(plane, queue, table);
    true
}
