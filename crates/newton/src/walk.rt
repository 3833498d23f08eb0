// A walk: Newton steps from a height, until a size that is not greater than the limit or as many as the allowance.

ghost use Rattle.std.specs.Prelude.{◌≡◌, ◌<◌};
ghost use Rattle.newton.specs.Walks.{limit_of, going_of, start_walk, step_of, Walked};

use super::slope::Slope;
use angles::float;

const FIFTIETH: f64 = 0.02;

const LEAST_LIMIT: f64 = 1.0e-15;

// What a walk that begins is given.
#[derive(Clone, Copy)]
pub struct Start {
    pub slope: Slope,
    pub limit: f64,
    pub z: f64,
}

// Where a walk has come to: the height, the size of the last step, and how many steps it took.
#[derive(Clone, Copy)]
pub struct Walk {
    pub z: f64,
    pub size: f64,
    pub steps: u8,
}

#[tactic(auto, unfolding(crate::specs::Walks::limit_of))]
pub fn limit(precision: f64, h: f64) -> f64
    ensures { result ≡ limit_of precision h }
{
    float::max(float::min(precision, FIFTIETH * h), LEAST_LIMIT)
}

impl Walk {
    #[tactic(auto, unfolding(crate::specs::Walks::start_walk))]
    fn start(z: f64) -> Walk
        ensures { result ≡ start_walk z }
    {
        Walk {
            z,
            size: 1.0,
            steps: 0,
        }
    }

    // A NaN is not greater than the limit.
    #[tactic(auto, unfolding(crate::specs::Walks::going_of))]
    fn going(self, limit: f64) -> bool
        ensures { result ≡ going_of limit self }
    {
        float::abs(self.size) > limit
    }

    #[tactic(auto, unfolding(crate::specs::Walks::step_of))]
    fn step(self, slope: Slope) -> Walk
        requires { self.steps < 255 }
        ensures { result ≡ step_of slope self }
    {
        let size = slope.ratio(self.z);
        Walk {
            z: self.z - size,
            size,
            steps: self.steps + 1,
        }
    }
}

// A while and no count of its own: the walk ends by its last step's size too, and the steps are part of what it answers.
impl Start {
    pub fn walked(self, allowance: u8) -> Walk
        ensures { Walked self allowance result }
    {
        let slope = self.slope;
        let limit = self.limit;
        let mut w = Walk::start(self.z);
        while (w.steps < allowance) & w.going(limit) {
            w = w.step(slope);
        }
        w
    }
}
