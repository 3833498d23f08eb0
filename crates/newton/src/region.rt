// The constants of the slopes in the two regions, the slope of an arc in the equatorial one, and the south cap seen as the north one.

ghost use Rattle.std.specs.Prelude.{◌≡◌};
ghost use Rattle.newton.specs.Regions.{cte_eqr, slope_in_eqr, cte_npc, direction_of, mirrored_of};

use super::slope::{Cone, EqrSlope, ONE_OVER_TRANSITION_Z, Slope};
use angles::{EIGHTH_PI, QUARTER_PI};

// For the north or the south point of a cone.
#[tactic(auto, unfolding(crate::specs::Regions::cte_eqr))]
pub fn cte_eqr(north: bool) -> f64
    ensures { result ≡ cte_eqr north }
{
    // Each sign written out, as the source groups them: no `mirrored`.
    if north {
        -ONE_OVER_TRANSITION_Z * QUARTER_PI
    } else {
        ONE_OVER_TRANSITION_Z * QUARTER_PI
    }
}

// The slope of the great circle whose normal has the height z0.
#[tactic(auto, unfolding(crate::specs::Regions::slope_in_eqr))]
pub fn slope_in_eqr(z0: f64) -> Slope
    ensures { result ≡ slope_in_eqr z0 }
{
    Slope::Equatorial(EqrSlope {
        cone: Cone::new(z0, 0.0),
        cte: cte_eqr(z0 < 0.0),
    })
}

#[tactic(auto, unfolding(crate::specs::Regions::cte_npc))]
pub fn cte_npc(north: bool) -> f64
    ensures { result ≡ cte_npc north }
{
    if north { -EIGHTH_PI } else { EIGHTH_PI }
}

#[tactic(auto, unfolding(crate::specs::Regions::direction_of))]
pub fn direction(east: bool) -> f64
    ensures { result ≡ direction_of east }
{
    if east { 1.0 } else { -1.0 }
}

// A height of the south cap in the north cap, or back.
#[tactic(auto, unfolding(crate::specs::Regions::mirrored_of))]
pub fn mirrored(south: bool, z: f64) -> f64
    ensures { result ≡ mirrored_of south z }
{
    if south { -z } else { z }
}
