// The quarter of the sphere that a longitude lies in, and the longitude within it. No other crate sees these: a point has both.

ghost use Rattle.std.specs.Prelude.{◌≡◌};
ghost use Rattle.coo3d.specs.LonLats.{InTurn};
ghost use Rattle.coo3d.specs.Quarters.{quarter_of, lon_mod_half_pi};

use super::point::Coo3D;
use angles::circular;

// In the turn the whole part of the rounded quotient by π/2 is that of the exact one, so comparing with multiples of π/2 tells it, and nothing is divided.
pub fn quarter(lon: f64) -> u8
    requires { InTurn lon }
    ensures { result ≡ quarter_of lon }
{
    circular::quarter_turns(lon)
}

// What is left of a longitude without its k quarter turns. Both operations are exact, so this is the remainder, and needs no fmod of the C library.
pub fn lon_mod_half_pi(lon: f64, k: u8) -> f64
    requires { InTurn lon × (k ≡ quarter_of lon) }
    ensures { result ≡ lon_mod_half_pi lon }
{
    lon - (k as f64) * Coo3D::HALF_PI
}
