// The tone rules.
//
// Rule                      a tone rule with its own numbers
// tone_table                a component's table of tones, and whether it is retoned
// is_lone                   whether a component is kept back whatever part of its section a later pass is on
// rule_refusal              refusals 7, 8 and 18 for a rule's own numbers
// RuleNumbers               the numbers that stand for a rule in a record of a pass list and in a call from C
// rule_of, form_refusal     their rule, and refusal 17 where they stand for none; both by `Rule::try_from`
//
// A component is the pixels that the first entries of a queue name; it is measured, and its values are counted. Counts
// and table are lent, the table with any content, and only their entries of [least, greatest], from the component's
// least value to its greatest, are read or written: a component costs time in its pixels and in the spread of its
// values.
#![tactic(auto)]

ghost use Rattle.std.specs.Prelude.{◌≡◌, List, ℕ, ◌≤◌, length};
ghost use Rattle.histograms.specs.Histograms.{Measured, Gathered};
ghost use Rattle.tones.specs.Tables.{ToneTabled};
ghost use Rattle.tones.specs.Lone.{lone};
ghost use Rattle.planes.specs.Refusals.{number_in};
ghost use Rattle.tones.specs.Refusals.{rule_refusal};
ghost use Rattle.tones.specs.Numbers.{rule_of, form_refusal, Reads};

use affine::affine_tones;
use histograms::Measures;
use limited::limited_tones;
use plain::plain_tones;
use planes::Refusal;
use points::Slopes;

// A tone rule: plain, which keeps the old values where the spread grows or shrinks too much, in hundredths; limited,
// which clips the counts at k thousandths of the pixels; or affine, which joins points of the sums by straight lines,
// with the slope of each held between smin and smax, in hundredths.
#[derive(Clone, Copy, Debug, PartialEq, Eq)]
pub enum Rule {
    Plain { low: u16, high: u16 },
    Limited { k: u16 },
    Affine { segments: u8, smin: u16, smax: u16 },
}

// The numbers that stand for a rule: its code, 0 for plain, 1 for limited and 2 for affine; a byte that is 0 for plain
// and limited, and the segments for affine; and low and high, k and 0, or smin and smax.
#[derive(Clone, Copy, Debug, PartialEq, Eq)]
pub struct RuleNumbers {
    pub code: u8,
    pub extra: u8,
    pub first: u16,
    pub second: u16,
}

// The codes of the rules.
const PLAIN: u8 = 0;

const LIMITED: u8 = 1;

const AFFINE: u8 = 2;

// The greatest high of the plain rule.
const GREATEST_HIGH: u16 = 25500;

// The greatest clip of the limited rule.
const GREATEST_CLIP: u16 = 1000;

// The most segments, and the greatest slope, of the affine rule.
const GREATEST_SEGMENTS: u8 = 16;

const GREATEST_SLOPE: u16 = 10000;

// Fills the table's entries at the values of a component with their new values by the rule; whether it is retoned, and
// so not kept back. The table may come with any content. Of what counts and table are left with, free are the counts of
// [least, greatest], and the table's entries of [least, greatest] that no pixel of the component has for a value; all
// other entries stay.
pub fn tone_table(
    plane: &[u8],
    queue: &[u32],
    c: Measures,
    rule: Rule,
    a: u8,
    b: u8,
    counts: &mut [u32; 256],
    table: &mut [u8; 256],
) -> bool
    requires { Gathered plane.now queue.now counts.old c a b }
    ensures { ToneTabled rule a b c plane.now queue.now
        counts.old table.old result counts.new table.new }
{
    match rule {
        Rule::Plain { low, high } => plain_tones(counts, table, c, low, high, a, b),
        Rule::Limited { k } => limited_tones(plane, queue, c, counts, table, k, a, b),
        Rule::Affine {
            segments,
            smin,
            smax,
        } => {
            let slopes = Slopes {
                segments,
                smin,
                smax,
            };
            affine_tones(counts, table, c, slopes, a, b)
        }
    }
}

// Whether the rule keeps a component with these measures back, and does so on every part of its section.
pub fn is_lone(rule: Rule, c: Measures) -> bool
    ensures { (vs : List ℕ) → 1 ≤ length vs → Measured vs c → result ≡ lone rule vs }
{
    match rule {
        Rule::Plain { .. } => c.least == c.greatest,
        Rule::Limited { .. } => false,
        Rule::Affine { .. } => false,
    }
}

// 7 where the plain rule's low is above high, or high above its limit; 8 where the limited rule's clip is above its
// limit; 18 where the affine rule has no segments or too many, smin is above smax, or smax above its limit.
#[tactic(auto, using(planes::proofs::Refusals::by_test), unfolding(crate::specs::Refusals::rule_refusal))]
pub fn rule_refusal(rule: Rule) -> Result<(), Refusal>
    ensures { number_in result ≡ rule_refusal rule }
{
    match rule {
        Rule::Plain { low, high } => {
            if high < low || GREATEST_HIGH < high {
                return Err(Refusal::Ratios);
            }
        }
        Rule::Limited { k } => {
            if GREATEST_CLIP < k {
                return Err(Refusal::Clip);
            }
        }
        Rule::Affine {
            segments,
            smin,
            smax,
        } => {
            if segments == 0
                || GREATEST_SEGMENTS < segments
                || smax < smin
                || GREATEST_SLOPE < smax
            {
                return Err(Refusal::Slopes);
            }
        }
    }
    Ok(())
}

// The rule that the numbers stand for; where they are malformed, one of those rules all the same.
pub fn rule_of(numbers: RuleNumbers) -> Rule
    ensures { result ≡ rule_of numbers }
{
    match numbers.code {
        PLAIN => Rule::Plain {
            low: numbers.first,
            high: numbers.second,
        },
        LIMITED => Rule::Limited { k: numbers.first },
        _ => Rule::Affine {
            segments: numbers.extra,
            smin: numbers.first,
            smax: numbers.second,
        },
    }
}

// 17 where the numbers stand for no rule.
#[tactic(auto, using(planes::proofs::Refusals::by_test), unfolding(crate::specs::Numbers::malformed))]
pub fn form_refusal(numbers: RuleNumbers) -> Result<(), Refusal>
    ensures { number_in result ≡ form_refusal numbers }
{
    match (numbers.code, numbers.extra, numbers.second) {
        (PLAIN, 0, _) => Ok(()),
        (LIMITED, 0, 0) => Ok(()),
        (AFFINE, _, _) => Ok(()),
        _ => Err(Refusal::Record),
    }
}

// The rule that the numbers stand for, or 17.
impl TryFrom<RuleNumbers> for Rule {
    type Error = Refusal;

    ghost try_from_gives = { Reads };

    fn try_from(numbers: RuleNumbers) -> Result<Self, Refusal> {
        form_refusal(numbers)?;
        Ok(rule_of(numbers))
    }
}
