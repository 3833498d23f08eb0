// A point: x, y, z, longitude and latitude, the quarter of its longitude, and the longitude modulo π/2.

ghost use Rattle.std.specs.Prelude.{◌≡◌, true};
ghost use Rattle.coo3d.specs.LonLats.{is_longitude, is_latitude, InTurn, vec3_of};
ghost use Rattle.coo3d.specs.Points.{coo3_d, from_vec3, from_sph_coo, vect_of};
ghost use Rattle.coo3d.specs.TurnedBack.{OfAngles};

use super::vect3::Vect3;
use super::{lonlat, quarter};

#[derive(Clone, Copy)]
pub struct Coo3D {
    pub x: f64,
    pub y: f64,
    pub z: f64,
    pub lon: f64,
    pub lat: f64,
    pub quarter: u8,
    pub lon_mod: f64,
}

impl Coo3D {
    pub const HALF_PI: f64 = angles::HALF_PI;

    pub const TWO_PI: f64 = 2.0 * angles::PI;

    // Document 01's T.
    pub const TRANSITION_Z: f64 = 2.0 / 3.0;

    // Each maker's point (document 02, ask 8): its quarter and its longitude modulo π/2 are worked out here, and nowhere else.
    fn at(v: Vect3, lon: f64, lat: f64) -> Coo3D
        requires { InTurn lon }
        ensures { result ≡ coo3_d v.x v.y v.z lon lat }
    {
        let quarter = quarter::quarter(lon);
        Coo3D {
            x: v.x,
            y: v.y,
            z: v.z,
            lon,
            lat,
            quarter,
            lon_mod: quarter::lon_mod_half_pi(lon, quarter),
        }
    }

    // The source's name, as `from_sph_coo` has: no `From`.
    #[tactic(auto, unfolding(crate::specs::Points::from_vec3))]
    pub fn from_vec3(v: Vect3) -> Coo3D
        ensures { result ≡ from_vec3 v.x v.y v.z }
    {
        let p = lonlat::lonlat_of(v);
        Coo3D::at(v, p.lon, p.lat)
    }

    #[tactic(auto, unfolding(crate::specs::Points::from_sph_coo))]
    pub fn from_sph_coo(lon: f64, lat: f64) -> Coo3D
        ensures { result ≡ from_sph_coo lon lat }
    {
        let v = lonlat::vec3_of(lon, lat);
        if lonlat::is_longitude(lon) & lonlat::is_latitude(lat) {
            Coo3D::from_angles_in_range(v, lon, lat)
        } else {
            Coo3D::from_vec3(v)
        }
    }

    // The same for angles in their ranges, whose vector has been worked out already.
    #[tactic(auto, unfolding(crate::specs::Points::from_sph_coo))]
    pub fn from_angles_in_range(v: Vect3, lon: f64, lat: f64) -> Coo3D
        requires { (v ≡ vec3_of lon lat) × (is_longitude lon ≡ true) × (is_latitude lat ≡ true) }
        ensures { result ≡ from_sph_coo lon lat }
    {
        Coo3D::at(v, lon, lat)
    }

    // The point moved to the first quarter of the sphere. Its own vector turned back is that of the angles, so no sine is worked out.
    // In its caller, so that what that does not use of the point is not worked out either.
    #[inline(always)]
    #[tactic(auto, using(crate::proofs::TurnedBack::moved))]
    pub fn in_first_quarter(self) -> Coo3D
        requires { OfAngles self }
        ensures { result ≡ from_sph_coo self.lon_mod self.lat }
    {
        let v = Vect3::from(self).turned_back(self.quarter);
        Coo3D::at(v, self.lon_mod, self.lat)
    }
}

impl From<Coo3D> for Vect3 {
    ghost from_gives = { λ p v. v ≡ vect_of p };

    #[tactic(auto, unfolding(crate::specs::Points::vect_of))]
    fn from(p: Coo3D) -> Vect3 {
        Vect3 {
            x: p.x,
            y: p.y,
            z: p.z,
        }
    }
}
