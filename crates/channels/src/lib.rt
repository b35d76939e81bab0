// The channels of one pixel: its intensity (Algorithm 1), and the scale by which a new intensity multiplies them
// (Algorithm 6).
//
// Pixel            the channels of a pixel; its intensity, and what they become for a new one
// rounded_thirds   the table of the intensities of all channel sums
// Inverses         the inverses of 1 to 255, by which recolouring divides
//
// No channel costs a division: `nearest` multiplies by an inverse, and divides by a constant power of two.
#![tactic(auto)]

ghost use Rattle.std.specs.Prelude.{◌≡◌, ◌+◌, ◌*◌, ◌≤◌, ◌<◌, max};
ghost use Rattle.planes.specs.Rounding.{rounded};
ghost use Rattle.channels.specs.Channels.{third, thirds, new_pixel};
ghost use Rattle.channels.specs.Scales.{Scales, Inverses, inverse, Quotient};

use std::array;

mod table;

use table::THIRDS;

// The rounded thirds of all channel sums. Their rule is computed once, here.
#[tactic(auto, unfolding(crate::specs::Channels::third, crate::specs::Channels::thirds))]
pub fn rounded_thirds() -> &'static [u8; 766]
    ensures { result.now ≡ thirds }
{
    &THIRDS
}

// 2^26, in whose parts the inverses are: enough that no rounded quotient is off.
const PARTS: u32 = 67108864;

// The inverses of 1 to 255, by which `nearest` multiplies, each at its index. Entry 0 is not used.
#[derive(Debug, Drop)]
pub struct Inverses {
    pub table: [u32; 256],
    pub ghost inverted: { Inverses table },
}

impl Inverses {
    pub fn new() -> Self {
        Self {
            table: array::from_fn(|m| PARTS / (2 * m.max(1) as u32) + 1),
        }
    }

    // The inverse of m.
    fn of(&self, m: u8) -> u32
        requires { 1 ≤ m }
        ensures { result ≡ inverse m }
    {
        self.table[m as usize]
    }
}

// x / m to nearest, halves upward, by the inverse of m.
#[tactic(auto, using(crate::proofs::Quotients::rounded_by_inverse))]
fn nearest(x: u32, m: u32, by: u32) -> u32
    requires { Quotient x m by }
    ensures { result ≡ rounded x m }
{
    (u64::from(2 * x + m) * u64::from(by) / u64::from(PARTS)) as u32
}

// The quotient times / over by which all channels of a pixel are multiplied.
#[derive(Clone, Copy, Debug, PartialEq, Eq)]
struct Scale {
    times: u8,
    over: u8,
}

impl Scale {
    // That of a pixel of intensity i and greatest channel m for the new intensity j.
    #[tactic(auto, using(crate::proofs::Scales::cases), unfolding(crate::specs::Channels::new_channel))]
    fn new(i: u8, m: u8, j: u8) -> Self
        ensures { Scales i m j result.times result.over }
    {
        if i == 0 {
            return Self { times: 0, over: 1 };
        }
        if u32::from(j) * u32::from(m) <= 255 * u32::from(i) {
            return Self { times: j, over: i };
        }
        Self {
            times: 255,
            over: m,
        }
    }

    // A channel, multiplied by the scale and rounded.
    #[tactic(auto, using(planes::proofs::Rounding::rounded_in))]
    fn scaled(self, c: u8, by: u32) -> u8
        requires { Quotient (c * self.times) self.over by }
        ensures { result ≡ rounded (c * self.times) self.over }
    {
        nearest(
            u32::from(c) * u32::from(self.times),
            u32::from(self.over),
            by,
        ) as u8
    }
}

// The channels of a pixel.
#[derive(Clone, Copy, Debug, PartialEq, Eq)]
pub struct Pixel {
    pub red: u8,
    pub green: u8,
    pub blue: u8,
}

impl Pixel {
    // The intensity.
    #[tactic(auto, using(crate::proofs::Channels::thirds_at))]
    pub fn intensity(self) -> u8
        ensures { result ≡ third (self.red + self.green + self.blue) }
    {
        rounded_thirds()[usize::from(self.red) + usize::from(self.green) + usize::from(self.blue)]
    }

    // The scale for the new intensity j.
    fn scale(self, j: u8) -> Scale
        ensures { Scales (third (self.red + self.green + self.blue)) (max self.red (max self.green self.blue)) j
            result.times result.over }
    {
        let m = self.red.max(self.green.max(self.blue));
        Scale::new(self.intensity(), m, j)
    }

    // What the channels become for the new intensity j.
    pub fn recoloured(self, inverses: &Inverses, j: u8) -> Self
        ensures { result ≡ new_pixel self.red self.green self.blue j }
    {
        let s = self.scale(j);
        let by = inverses.of(s.over);
        Self {
            red: s.scaled(self.red, by),
            green: s.scaled(self.green, by),
            blue: s.scaled(self.blue, by),
        }
    }
}
