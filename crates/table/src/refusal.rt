// What refuses a command, and what heights, radii, lon mod π/2 and side bytes must be (longitudes and latitudes: coo3d).

ghost use Rattle.std.specs.Prelude.{◌≡◌, MatchResult};
ghost use Rattle.table.specs.Rows.{is_height, is_radius, is_lon_mod_half_pi, is_flag};
ghost use Rattle.table.specs.Refusals.{refusal_number};
ghost use Rattle.table.specs.Turns.{first_failing};
ghost use Rattle.table.specs.declared.refusal.Refusal.TheVariants as refusal;

use coo3d::point::Coo3D;
use splits::split;

// In checking order.
#[derive(Clone, Copy, Debug, PartialEq, Eq)]
pub enum Refusal {
    Unset,
    NotFinite,
    NotAFlag,
    OutOfRange,
    Unsplit,
    NoCandidate,
}

// The status byte.
impl From<Refusal> for u8 {
    ghost from_gives = { λ refusal number. number ≡ refusal_number refusal };

    fn from(refusal: Refusal) -> u8 {
        match refusal {
            Refusal::Unset => 6,
            Refusal::NotFinite => 7,
            Refusal::NotAFlag => 8,
            Refusal::OutOfRange => 9,
            Refusal::Unsplit => 10,
            Refusal::NoCandidate => 12,
        }
    }
}

impl From<split::Unsplit> for Refusal {
    ghost from_gives = { λ _ r. r ≡ refusal.Unsplit };

    fn from(_: split::Unsplit) -> Refusal {
        Refusal::Unsplit
    }
}

// One line each, as coo3d's two are: a function over the limits would be no shorter, and a range's `contains` has a contract over `partial_cmp`.
#[tactic(auto, unfolding(crate::specs::Rows::is_height))]
pub fn is_height(z: f64) -> bool
    ensures { result ≡ is_height z }
{
    (-1.0 <= z) & (z <= 1.0)
}

#[tactic(auto, unfolding(crate::specs::Rows::is_radius))]
pub fn is_radius(r: f64) -> bool
    ensures { result ≡ is_radius r }
{
    (0.0 < r) & (r <= 2.0)
}

#[tactic(auto, unfolding(crate::specs::Rows::is_lon_mod_half_pi))]
pub fn is_lon_mod_half_pi(lon: f64) -> bool
    ensures { result ≡ is_lon_mod_half_pi lon }
{
    (0.0 <= lon) & (lon < Coo3D::HALF_PI)
}

#[tactic(auto, unfolding(crate::specs::Rows::is_flag))]
pub fn is_flag(b: u8) -> bool
    ensures { result ≡ is_flag b }
{
    b <= 1
}

// The first that does not hold.
#[tactic(auto, unfolding(crate::specs::Turns::first_failing))]
pub fn first_failing(finite: bool, flags: bool, in_range: bool) -> Result<(), Refusal>
    ensures { MatchResult result
        (λ _. first_failing None finite flags in_range ≡ None)
        (λ refusal. first_failing None finite flags in_range ≡ Some refusal) }
{
    if !finite {
        return Err(Refusal::NotFinite);
    }
    if !flags {
        return Err(Refusal::NotAFlag);
    }
    if !in_range {
        return Err(Refusal::OutOfRange);
    }
    Ok(())
}
