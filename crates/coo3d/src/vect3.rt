// One vector type, for the source's Vect3 and UnitVect3.

ghost use Rattle.std.specs.Prelude.{◌≡◌};
ghost use Rattle.coo3d.specs.Vectors.{dot_of, cross_of, squared_norm_of, norm_of, divided_by, normalized_of, is_unit, new_unit, opposite_of};
ghost use Rattle.coo3d.specs.TurnedBack.{turned_back};

use angles::float;

#[derive(Clone, Copy)]
pub struct Vect3 {
    pub x: f64,
    pub y: f64,
    pub z: f64,
}

#[tactic(auto, unfolding(crate::specs::Vectors::dot_of))]
pub fn dot_product(v: Vect3, w: Vect3) -> f64
    ensures { result ≡ dot_of v w }
{
    v.x * w.x + v.y * w.y + v.z * w.z
}

#[tactic(auto, unfolding(crate::specs::Vectors::cross_of))]
pub fn cross_product(v: Vect3, w: Vect3) -> Vect3
    ensures { result ≡ cross_of v w }
{
    Vect3 {
        x: v.y * w.z - v.z * w.y,
        y: v.z * w.x - v.x * w.z,
        z: v.x * w.y - v.y * w.x,
    }
}

impl Vect3 {
    #[tactic(auto, unfolding(crate::specs::Vectors::squared_norm_of))]
    pub fn squared_norm(self) -> f64
        ensures { result ≡ squared_norm_of self }
    {
        self.x * self.x + self.y * self.y + self.z * self.z
    }

    #[tactic(auto, unfolding(crate::specs::Vectors::norm_of))]
    pub fn norm(self) -> f64
        ensures { result ≡ norm_of self }
    {
        root::root(self.squared_norm())
    }

    #[tactic(auto, unfolding(crate::specs::Vectors::divided_by))]
    pub fn divided_by(self, n: f64) -> Vect3
        ensures { result ≡ divided_by self n }
    {
        Vect3 {
            x: self.x / n,
            y: self.y / n,
            z: self.z / n,
        }
    }

    #[tactic(auto, unfolding(crate::specs::Vectors::normalized_of))]
    pub fn normalized(self) -> Vect3
        ensures { result ≡ normalized_of self }
    {
        self.divided_by(self.norm())
    }

    #[tactic(auto, unfolding(crate::specs::Vectors::is_unit))]
    pub fn is_unit(self) -> bool
        ensures { result ≡ is_unit self }
    {
        float::abs(self.squared_norm() - 1.0) <= f64::EPSILON
    }

    // The source's UnitVect3::new, with its three parameters.
    #[tactic(auto, unfolding(crate::specs::Vectors::new_unit))]
    pub fn new_unit(x: f64, y: f64, z: f64) -> Vect3
        ensures { result ≡ new_unit x y z }
    {
        let v = Vect3 { x, y, z };
        if v.is_unit() { v } else { v.normalized() }
    }

    // Turned back by k quarters about the axis.
    #[tactic(auto, unfolding(crate::specs::TurnedBack::turned_back))]
    pub fn turned_back(self, k: u8) -> Vect3
        ensures { result ≡ turned_back k self }
    {
        match k {
            0 => self,
            1 => Vect3 {
                x: self.y,
                y: -self.x,
                z: self.z,
            },
            2 => Vect3 {
                x: -self.x,
                y: -self.y,
                z: self.z,
            },
            _ => Vect3 {
                x: -self.y,
                y: self.x,
                z: self.z,
            },
        }
    }

    #[tactic(auto, unfolding(crate::specs::Vectors::opposite_of))]
    pub fn opposite(self) -> Vect3
        ensures { result ≡ opposite_of self }
    {
        Vect3::new_unit(-self.x, -self.y, -self.z)
    }
}
