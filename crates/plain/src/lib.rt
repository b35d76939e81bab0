// The plain rule, which keeps the old values where the spread grows or shrinks too much, in hundredths. Only
// `plain_tones` is public.
//
// plain_tones                         a component's table of tones, and whether it is retoned
// plain_keeps, keeps                  the test that keeps the old values
// plain_table, fill_plain             entries of the table
//
// Counts and table are lent, with any content in the table, and only their entries of [least, greatest], from the
// component's least value to its greatest, are read or written. The table divides once for each value that occurs.
#![tactic(auto)]

ghost use Rattle.std.specs.Prelude.{◌≡◌, List, ℕ, ◌+◌, ◌≤◌, ◌<◌, length};
ghost use Rattle.planes.specs.Lists.{at};
ghost use Rattle.histograms.specs.Values.{scaled};
ghost use Rattle.histograms.specs.Histograms.{Outside, Confined, Refilled, Histogram, Counted};
ghost use Rattle.histograms.specs.Sums.{SummedInPlace, Sums};
ghost use Rattle.histograms.specs.Tables.{Tabled, Ruled};
ghost use Rattle.plain.specs.Plain.{plain_tone, kept_by, plain_kept};

use histograms::{Measures, fill_same, scale, sum_up};

// The tones of the values of [least, greatest] by the sums of their counts. Equal sums need no second division. It is
// no `refill`, whose closure goes by the place alone and keeps nothing from one entry to the next.
fn fill_plain(sums: &[u32; 256], table: &mut [u8; 256], c: Measures, a: u8, b: u8)
    requires { Sums sums.now c.size c a b }
    ensures { Refilled (λ v. scaled a b (at sums.now v) c.size) c.least (c.greatest + 1)
        table.old table.new }
{
    let mut last = 0;
    let mut tone = a;
    for v in usize::from(c.least)..=usize::from(c.greatest) {
        let sum = sums[v];
        if sum != last {
            tone = scale(a, b, u64::from(sum), c.size as u64);
            last = sum;
        }
        table[v] = tone;
    }
}

// The plain rule's tone of each value of [least, greatest]; the counts become their sums.
#[tactic(auto, using(crate::proofs::Histograms::plain_tabled, histograms::proofs::Stores::refilled_outside))]
fn plain_table(counts: &mut [u32; 256], table: &mut [u8; 256], c: Measures, a: u8, b: u8)
    requires { Counted counts.old c a b }
    ensures { SummedInPlace c.least c.greatest counts.old counts.new
        × (Tabled (plain_tone a b) c counts.old table.new
        × Outside c.least c.greatest table.old table.new) }
{
    sum_up(counts, c.least, c.greatest);
    fill_plain(counts, table, c, a, b);
}

// Whether the old values are kept, by the spreads s before and t after.
fn keeps(low: u16, high: u16, s: u32, t: u32) -> bool
    requires { (s < 256) × (t < 256) }
    ensures { result ≡ kept_by low high s t }
{
    s == 0 || u32::from(high) * s < 100 * t || 100 * t < u32::from(low) * s
}

// Whether the plain rule keeps the old values. The greatest value would become b, so the least value's tone decides;
// its sum is its count.
#[tactic(auto, using(crate::proofs::Histograms::kept_by_ends))]
fn plain_keeps(counts: &[u32; 256], c: Measures, low: u16, high: u16, a: u8, b: u8) -> bool
    requires { Counted counts.now c a b }
    ensures { (vs : List ℕ) → Histogram vs counts.now c →
        result ≡ plain_kept low high a b vs }
{
    let count = counts[usize::from(c.least)];
    let tone = scale(a, b, u64::from(count), c.size as u64);
    let s = u32::from(c.greatest - c.least);
    let t = u32::from(b - tone);
    keeps(low, high, s, t)
}

// The table of the plain rule; whether the component is retoned.
pub fn plain_tones(
    counts: &mut [u32; 256],
    table: &mut [u8; 256],
    c: Measures,
    low: u16,
    high: u16,
    a: u8,
    b: u8,
) -> bool
    requires { Counted counts.old c a b }
    ensures { Ruled (plain_kept low high a b) (plain_tone a b) c counts.old table.new result
        × Confined c.least c.greatest
        counts.old table.old counts.new table.new }
{
    if plain_keeps(counts, c, low, high, a, b) {
        fill_same(table, c.least, c.greatest);
        return false;
    }
    plain_table(counts, table, c, a, b);
    true
}
