// The cone of an angular radius, by its Euclidean radius.

ghost use Rattle.std.specs.Prelude.{◌≡◌};
ghost use Rattle.special_points_finder.specs.Cones.{cone_of_radius};

use newton::slope::Cone;

#[tactic(auto, unfolding(crate::specs::Cones::cone_of_radius))]
pub fn cone_of_radius(z0: f64, radius: f64) -> Cone
    ensures { result ≡ cone_of_radius z0 radius }
{
    Cone::new(z0, 1.0 - 0.5 * (radius * radius))
}
