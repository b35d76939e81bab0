// Measures and counts of values, of a component or of a plane; sums of counts; and the one rounding that all tone rules
// share.
//
// Measures                              how many values, the least and the greatest of them
// measure, histogram                    the measures and the counts of a plane
// clear                                 counts of a component, zeroed
// sum_up                                sums of counts, in place
// refill                                entries of a table, each by its place
// fill_same                             values that are kept, in a table
// scale                                 a part of b - a, rounded
// nearest                               within
//
// Counts are lent all 0, and cleared after use: those of the values of [least, greatest], for those of all others stay
// 0. What clears or fills takes any slice that has the entries.
#![tactic(auto)]

ghost use Rattle.std.specs.Prelude.{ℕ, ◌≡◌, [], ◌+◌, ◌^◌, ◌≤◌, ◌<◌, max, length};
ghost use Rattle.planes.specs.Lists.{at};
ghost use Rattle.planes.specs.Rounding.{rounded};
ghost use Rattle.histograms.specs.Values.{sum_to, scaled};
ghost use Rattle.histograms.specs.Histograms.{Measured, Tally, Refilled};
ghost use Rattle.histograms.specs.Sums.{SummedInPlace};

// What is known of a component: the number of its pixels, its least and its greatest value.
#[derive(Clone, Copy, Debug, PartialEq, Eq)]
pub struct Measures {
    pub size: usize,
    pub least: u8,
    pub greatest: u8,
}

// The measures of all values of a plane.
#[tactic(auto, using(crate::proofs::Measured::least_taken, crate::proofs::Measured::greatest_taken))]
pub fn measure(plane: &[u8]) -> Measures
    requires { (1 ≤ length plane.now) × (length plane.now ≤ 1048576) }
    ensures { Measured plane.now result }
{
    let mut least = plane[0];
    let mut greatest = least;
    for v in plane {
        least = least.min(*v);
        greatest = greatest.max(*v);
    }
    Measures {
        size: plane.len(),
        least,
        greatest,
    }
}

// Counts all values of a plane, in reading order. The counts are 0 before.
pub fn histogram(plane: &[u8], counts: &mut [u32; 256])
    requires { Tally [] counts.old × (length plane.now ≤ 1048576) }
    ensures { Tally plane.now counts.new }
{
    for value in plane {
        counts[usize::from(*value)] += 1;
    }
}

// Zeroes the counts of the values of [least, greatest], which is often one value.
pub fn clear(counts: &mut [u32], c: Measures)
    requires { (c.least ≤ c.greatest) × (c.greatest < length counts.old) }
    ensures { Refilled (λ v. 0) c.least (c.greatest + 1) counts.old counts.new }
{
    let first = usize::from(c.least);
    let last = usize::from(c.greatest);
    if first == last {
        counts[first] = 0;
    } else {
        counts[first..=last].fill(0);
    }
}

// Sums the counts of the values of [a, b], in place.
pub fn sum_up(counts: &mut [u32; 256], a: u8, b: u8)
    requires { (a ≤ b) × (sum_to (at counts.old) a b < 2 ^ 32) }
    ensures { SummedInPlace a b counts.old counts.new }
{
    // By index: a running sum over the part of [a, b] was tried, and made the tables by it up to 7 percent slower.
    for v in usize::from(a)..usize::from(b) {
        counts[v + 1] += counts[v];
    }
}

// Fills the entries from first up to, and not including, end, each by its place, which a loop over the entries would
// have to count beside.
pub fn refill<F: Fn(usize) -> u8>(table: &mut [u8], first: usize, end: usize, tone: F)
    requires bounds { end ≤ length table.old }
    requires callable { (v : ℕ) → first ≤ v → v < end → F.pre tone v }
    ensures { (f : ℕ → ℕ) → ((v y : ℕ) → first ≤ v → v < end → F.post tone v y → y ≡ f v) →
        Refilled f first (max first end) table.old table.new }
{
    for v in first..end {
        table[v] = tone(v);
    }
}

// The values from first to last themselves.
pub fn fill_same(table: &mut [u8], first: u8, last: u8)
    requires { (first ≤ last) × (last < length table.old) }
    ensures { Refilled (λ v. v) first (last + 1) table.old table.new }
{
    refill(
        table,
        usize::from(first),
        usize::from(last) + 1,
        |v| v as u8,
    );
}

// x / y to nearest, halves upward.
fn nearest(x: u64, y: u64) -> u64
    requires { (x < 2 ^ 62) × ((1 ≤ y) × (y < 2 ^ 62)) }
    ensures { result ≡ rounded x y }
{
    (2 * x + y) / (2 * y)
}

// a and the part x of y of b - a, rounded.
#[tactic(auto, using(planes::proofs::Rounding::rounded_le))]
pub fn scale(a: u8, b: u8, x: u64, y: u64) -> u8
    requires { (a ≤ b) × ((x ≤ y) × ((1 ≤ y) × (y < 2 ^ 40))) }
    ensures { result ≡ scaled a b x y }
{
    let d = u64::from(b - a);
    let t = nearest(d * x, y);
    a + t as u8
}
