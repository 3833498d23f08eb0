// An end of a piece. Of the ends of an arc it is known that they are points of angles; cuts and borders of quarters are made of vectors.

ghost use Rattle.std.specs.Prelude.{◌≡◌, true};
ghost use Rattle.coo3d.specs.Points.{from_sph_coo};
ghost use Rattle.coo3d.specs.TurnedBack.{OfAngles};
ghost use Rattle.caps.specs.SameQuarter.{end_lon};

use coo3d::point::Coo3D;

#[derive(Clone, Copy)]
pub struct End {
    pub point: Coo3D,
    pub of_angles: bool,
    pub ghost known: { of_angles ≡ true → OfAngles point },
}

// A longitude that ends a piece: the end of a quarter is π/2, and not the 0 of the next.
#[tactic(auto, unfolding(crate::specs::SameQuarter::end_lon))]
fn end_lon(lon: f64) -> f64
    ensures { result ≡ end_lon lon }
{
    if lon == 0.0 { Coo3D::HALF_PI } else { lon }
}

impl End {
    // An end that nothing is known of.
    pub fn of_vector(point: Coo3D) -> End
        ensures { result.point ≡ point }
    {
        End {
            point,
            of_angles: false,
        }
    }

    // The point moved to the first quarter, as the first end of a piece.
    #[inline(always)]
    pub fn moved(self) -> Coo3D
        ensures { result ≡ from_sph_coo self.point.lon_mod self.point.lat }
    {
        if self.of_angles {
            self.point.in_first_quarter()
        } else {
            Coo3D::from_sph_coo(self.point.lon_mod, self.point.lat)
        }
    }

    // The same as the second end.
    #[inline(always)]
    #[tactic(auto, unfolding(crate::specs::SameQuarter::end_lon))]
    pub fn moved_last(self) -> Coo3D
        ensures { result ≡ from_sph_coo (end_lon self.point.lon_mod) self.point.lat }
    {
        if self.of_angles & (self.point.lon_mod != 0.0) {
            self.point.in_first_quarter()
        } else {
            Coo3D::from_sph_coo(end_lon(self.point.lon_mod), self.point.lat)
        }
    }
}
