// Longitude and latitude: their ranges, those of a vector, and the vector of both.

ghost use Rattle.std.specs.Float.Ieee.{neg};
ghost use Rattle.std.specs.Prelude.{◌≡◌, Float};
ghost use Rattle.angles.specs.Inverse.{atan2_of};
ghost use Rattle.coo3d.specs.LonLats.{is_longitude, is_latitude, lon_of, InTurn, lat_of, lon_lat_of, vec3_of};

use super::point::Coo3D;
use super::vect3::Vect3;
use angles::inverse::OfOpposites;
use angles::{circular, inverse};

#[derive(Clone, Copy)]
pub struct LonLat {
    pub lon: f64,
    pub lat: f64,
}

#[tactic(auto, unfolding(crate::specs::LonLats::is_longitude))]
pub fn is_longitude(lon: f64) -> bool
    ensures { result ≡ is_longitude lon }
{
    (0.0 <= lon) & (lon < Coo3D::TWO_PI)
}

#[tactic(auto, unfolding(crate::specs::LonLats::is_latitude))]
pub fn is_latitude(lat: f64) -> bool
    ensures { result ≡ is_latitude lat }
{
    (-Coo3D::HALF_PI <= lat) & (lat <= Coo3D::HALF_PI)
}

// The sum of a tiny negative angle and 2π rounds to 2π: the longitude is then 0.
fn lon_of_angle(a: f64) -> f64
    ensures { (x y : Float) → a ≡ atan2_of y x → (result ≡ lon_of x y) × InTurn result }
{
    if a < 0.0 {
        let lon = a + Coo3D::TWO_PI;
        if lon == Coo3D::TWO_PI { 0.0 } else { lon }
    } else {
        a
    }
}

pub fn lon_of(x: f64, y: f64) -> f64
    ensures { (result ≡ lon_of x y) × InTurn result }
{
    lon_of_angle(inverse::atan2(y, x))
}

// The longitudes of (x, y) and of (-x, -y).
pub fn lon_of_opposites(x: f64, y: f64) -> OfOpposites
    ensures { (result.own ≡ lon_of x y) × (result.opposite ≡ lon_of (neg x) (neg y)) }
{
    let a = inverse::atan2_of_opposites(y, x);
    OfOpposites {
        own: lon_of_angle(a.own),
        opposite: lon_of_angle(a.opposite),
    }
}

#[tactic(auto, unfolding(crate::specs::LonLats::lat_of))]
fn lat_of(v: Vect3) -> f64
    ensures { result ≡ lat_of v.x v.y v.z }
{
    inverse::atan2(v.z, root::root(v.x * v.x + v.y * v.y))
}

// The source's lonlat_of, and its UnitVect3::lonlat: that name, and no `From`.
pub fn lonlat_of(v: Vect3) -> LonLat
    ensures { (result ≡ lon_lat_of v.x v.y v.z) × InTurn result.lon }
{
    LonLat {
        lon: lon_of(v.x, v.y),
        lat: lat_of(v),
    }
}

// Two angles and no `LonLat`, which is what is replied: those of a command are read and asked one by one.
#[tactic(auto, unfolding(crate::specs::LonLats::vec3_of))]
pub fn vec3_of(lon: f64, lat: f64) -> Vect3
    ensures { result ≡ vec3_of lon lat }
{
    let at_lon = circular::sin_cos(lon);
    let at_lat = circular::sin_cos(lat);
    Vect3 {
        x: at_lat.cos * at_lon.cos,
        y: at_lat.cos * at_lon.sin,
        z: at_lat.sin,
    }
}
