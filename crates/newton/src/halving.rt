// Halving: how a zero of the slope is looked for between two heights where a walk has not found one.

ghost use Rattle.std.specs.Prelude.{◌≡◌};
ghost use Rattle.newton.specs.Halvings.{middle_of, halved_of, last_middle};

use super::slope;
use super::slope::Slope;

const MIDDLES: u8 = 60;

// Two heights between which a zero of the slope is looked for.
#[derive(Clone, Copy)]
pub struct Heights {
    pub z1: f64,
    pub z2: f64,
}

impl Heights {
    #[tactic(auto, unfolding(crate::specs::Halvings::middle_of))]
    fn middle(self) -> f64
        ensures { result ≡ middle_of self }
    {
        0.5 * (self.z1 + self.z2)
    }

    // The middle takes the place of one of the two.
    #[tactic(auto, unfolding(crate::specs::Halvings::halved_of))]
    fn halved(self, slope: Slope, first: f64) -> Heights
        ensures { result ≡ halved_of slope first self }
    {
        let z = self.middle();
        if slope::have_same_sign(slope.slope(z), first) {
            Heights { z1: z, z2: self.z2 }
        } else {
            Heights { z1: self.z1, z2: z }
        }
    }

    // Each middle but the last takes a height's place. A for, as document 02 has a count and no test that ends it sooner.
    pub fn last_middle(self, slope: Slope) -> f64
        ensures { result ≡ last_middle slope self }
    {
        let first = slope.slope(self.z1);
        let mut heights = self;
        for _ in 0..MIDDLES - 1 {
            heights = heights.halved(slope, first);
        }
        heights.middle()
    }
}
