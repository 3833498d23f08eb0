// The crossing of an arc with the parallel of height z.

ghost use Rattle.std.specs.Prelude.{◌≡◌};
ghost use Rattle.crossing.specs.Parallels.{strictly_between, first_that_passes, near_meridian, short_arc, quadratic as quadratic_of, rule_of, crossing_by, crossing_of, intersect_parallel};

use super::great_arc::GreatArc;
use angles::{PI, float, inverse};
use coo3d::vect3::Vect3;

// One arcsecond.
const SHORT_ARC: f64 = PI / 648000.0;

const NEAR_MERIDIAN: f64 = 1.0e-14;

// Why there is no crossing: the height is not strictly between the ends, or neither root passes.
#[derive(Clone, Copy, Debug, PartialEq, Eq)]
pub enum NoCrossing {
    NotBetween,
    NoRoot,
}

// How an arc is crossed, whatever the height. A value and no closure, as one choice serves both heights at which an arc is split.
#[derive(Clone, Copy)]
pub enum Rule {
    NearMeridian,
    ShortArc,
    Quadratic,
}

#[tactic(auto, unfolding(crate::specs::Parallels::strictly_between))]
pub fn strictly_between(a: f64, z: f64, b: f64) -> bool
    ensures { result ≡ strictly_between a z b }
{
    ((a < z) & (z < b)) | ((b < z) & (z < a))
}

impl GreatArc {
    #[tactic(auto, unfolding(crate::specs::Parallels::first_that_passes))]
    fn first_that_passes(self, v: Vect3, w: Vect3) -> Result<Vect3, NoCrossing>
        ensures { result ≡ first_that_passes self v w }
    {
        if self.passes(v) {
            Ok(v)
        } else if self.passes(w) {
            Ok(w)
        } else {
            Err(NoCrossing::NoRoot)
        }
    }

    #[tactic(auto, unfolding(crate::specs::Parallels::near_meridian))]
    fn near_meridian(self, z: f64) -> Result<Vect3, NoCrossing>
        ensures { result ≡ near_meridian self z }
    {
        let x = -(z * self.normal.z) / self.normal.x;
        let y = root::root(1.0 - (x * x + z * z));
        self.first_that_passes(Vect3 { x, y, z }, Vect3 { x, y: -y, z })
    }

    // On a short arc, the point of the chord, made a unit vector.
    #[tactic(auto, unfolding(crate::specs::Parallels::short_arc))]
    fn short_arc(self, z: f64) -> Vect3
        ensures { result ≡ short_arc self z }
    {
        let p1 = self.p1;
        let p2 = self.p2;
        let t = (z - p1.z) / (p2.z - p1.z);
        Vect3::new_unit((p2.x - p1.x) * t + p1.x, (p2.y - p1.y) * t + p1.y, z)
    }

    // The roots of a x² + b x + c.
    #[tactic(auto, unfolding(crate::specs::Parallels::quadratic))]
    fn quadratic(self, z: f64) -> Result<Vect3, NoCrossing>
        ensures { result ≡ quadratic_of self z }
    {
        let x0_y0 = self.normal.x / self.normal.y;
        let zz0_y0 = z * self.normal.z / self.normal.y;
        let a = 1.0 + x0_y0 * x0_y0;
        let b = 2.0 * x0_y0 * zz0_y0;
        let c = zz0_y0 * zz0_y0 + z * z - 1.0;
        let sqrt_delta = root::root(b * b - 4.0 * a * c);
        let x1 = (-b + sqrt_delta) / (2.0 * a);
        let y1 = -x1 * x0_y0 - zz0_y0;
        let x2 = (-b - sqrt_delta) / (2.0 * a);
        let y2 = -x2 * x0_y0 - zz0_y0;
        self.first_that_passes(Vect3 { x: x1, y: y1, z }, Vect3 { x: x2, y: y2, z })
    }

    // The short-arc rule comes before the near-meridian rule.
    #[tactic(auto, unfolding(crate::specs::Parallels::rule_of))]
    pub fn rule(self) -> Rule
        ensures { result ≡ rule_of self }
    {
        if inverse::atan2(self.norm, self.dot) < SHORT_ARC {
            Rule::ShortArc
        } else if float::abs(self.normal.y) <= NEAR_MERIDIAN {
            Rule::NearMeridian
        } else {
            Rule::Quadratic
        }
    }

    #[tactic(auto, unfolding(crate::specs::Parallels::crossing_by, crate::specs::Parallels::by_rule))]
    pub fn crossing_by(self, rule: Rule, z: f64) -> Result<Vect3, NoCrossing>
        ensures { result ≡ crossing_by self rule z }
    {
        if !strictly_between(self.p1.z, z, self.p2.z) {
            return Err(NoCrossing::NotBetween);
        }
        match rule {
            Rule::NearMeridian => self.near_meridian(z),
            Rule::ShortArc => Ok(self.short_arc(z)),
            Rule::Quadratic => self.quadratic(z),
        }
    }

    #[tactic(auto, unfolding(crate::specs::Parallels::crossing_of))]
    pub fn crossing(self, z: f64) -> Result<Vect3, NoCrossing>
        ensures { result ≡ crossing_of self z }
    {
        self.crossing_by(self.rule(), z)
    }
}

#[tactic(auto, unfolding(crate::specs::Parallels::intersect_parallel))]
pub fn intersect_parallel(p1: Vect3, p2: Vect3, z: f64) -> Result<Vect3, NoCrossing>
    ensures { result ≡ intersect_parallel p1 p2 z }
{
    GreatArc::new(p1, p2).crossing(z)
}
