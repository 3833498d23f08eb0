// The slope dX/dY of a cone's rim on the projection plane, as a function of the height z, and its ratio to its derivative.
// An arc of a great circle is the rim of a cone of radius π/2.

ghost use Rattle.std.specs.Prelude.{◌≡◌};
ghost use Rattle.newton.specs.Slopes.{cone_of, terms_of, second_of, slope_npc, f_eqr, f_over_df_eqr, f_npc, f_over_df_npc, have_same_sign, slope_at, ratio_at};

use angles::{QUARTER_PI, inverse};

pub const ONE_OVER_TRANSITION_Z: f64 = 1.5;

// z0 is the sine of the centre's latitude, w0 is 1 - z0², r the cosine of the angular radius.
#[derive(Clone, Copy)]
pub struct Cone {
    pub z0: f64,
    pub w0: f64,
    pub r: f64,
}

// The slope in the equatorial region, less that of a special point.
#[derive(Clone, Copy)]
pub struct EqrSlope {
    pub cone: Cone,
    pub cte: f64,
}

// The slope in the north cap; lon is that of the centre.
#[derive(Clone, Copy)]
pub struct NpcSlope {
    pub cone: Cone,
    pub lon: f64,
    pub cte: f64,
    pub direction: f64,
}

// An enum, as no other regions can come and the same walk is taken over both.
#[derive(Clone, Copy)]
pub enum Slope {
    Equatorial(EqrSlope),
    Polar(NpcSlope),
}

// What slope and ratio of either region share, in the source's names; sqrt is its sqrt_d2_minus_n2.
#[derive(Clone, Copy)]
struct Terms {
    w2: f64,
    q: f64,
    n: f64,
    d2: f64,
    sqrt: f64,
    qn: f64,
    dalphadz: f64,
}

impl Cone {
    #[tactic(auto, unfolding(crate::specs::Slopes::cone_of))]
    pub fn new(z0: f64, r: f64) -> Cone
        ensures { result ≡ cone_of z0 r }
    {
        Cone {
            z0,
            w0: 1.0 - z0 * z0,
            r,
        }
    }

    #[tactic(auto, unfolding(crate::specs::Slopes::terms_of))]
    fn terms(self, z: f64) -> Terms
        ensures { result ≡ terms_of self z }
    {
        let w2 = 1.0 - z * z;
        let q = z / w2;
        let n = self.r - z * self.z0;
        let d2 = self.w0 * w2;
        let sqrt = root::root(d2 - n * n);
        let qn = q * n;
        Terms {
            w2,
            q,
            n,
            d2,
            sqrt,
            qn,
            dalphadz: (self.z0 - qn) / sqrt,
        }
    }
}

impl Terms {
    // The second derivative of the longitude by z, times sqrt.
    #[tactic(auto, unfolding(crate::specs::Slopes::second_of))]
    fn second(self, z0: f64) -> f64
        ensures { result ≡ second_of self z0 }
    {
        self.q * (2.0 * z0 - 3.0 * self.qn)
            - self.n * (1.0 / self.w2 + self.dalphadz * self.dalphadz)
    }
}

impl EqrSlope {
    #[tactic(auto, unfolding(crate::specs::Slopes::f_eqr))]
    pub fn f_eqr(self, z: f64) -> f64
        ensures { result ≡ f_eqr z self.cone self.cte }
    {
        let t = self.cone.terms(z);
        t.dalphadz - self.cte
    }

    #[tactic(auto, unfolding(crate::specs::Slopes::f_over_df_eqr))]
    pub fn f_over_df_eqr(self, z: f64) -> f64
        ensures { result ≡ f_over_df_eqr z self.cone self.cte }
    {
        let t = self.cone.terms(z);
        let f = t.dalphadz - self.cte;
        let df = t.second(self.cone.z0) / t.sqrt;
        f / df
    }
}

impl NpcSlope {
    #[tactic(auto, unfolding(crate::specs::Slopes::slope_npc))]
    fn slope_npc(self, t: Terms, z: f64) -> f64
        ensures { result ≡ slope_npc t z self.lon self.cte self.direction }
    {
        let w = 1.0 - z;
        let arccos = inverse::acos(t.n / root::root(t.d2));
        self.direction * w * t.dalphadz - 0.5 * (self.direction * arccos + self.lon - QUARTER_PI)
            + self.cte
    }

    #[tactic(auto, unfolding(crate::specs::Slopes::f_npc))]
    pub fn f_npc(self, z: f64) -> f64
        ensures { result ≡ f_npc z self.cone self.lon self.cte self.direction }
    {
        self.slope_npc(self.cone.terms(z), z)
    }

    #[tactic(auto, unfolding(crate::specs::Slopes::f_over_df_npc))]
    pub fn f_over_df_npc(self, z: f64) -> f64
        ensures { result ≡ f_over_df_npc z self.cone self.lon self.cte self.direction }
    {
        let t = self.cone.terms(z);
        let f = self.slope_npc(t, z);
        let w = 1.0 - z;
        let df = -ONE_OVER_TRANSITION_Z * self.direction * t.dalphadz
            + (self.direction * w / t.sqrt) * t.second(self.cone.z0);
        f / df
    }
}

// A zero has the sign of either.
#[tactic(auto, unfolding(crate::specs::Slopes::have_same_sign))]
pub fn have_same_sign(d1: f64, d2: f64) -> bool
    ensures { result ≡ have_same_sign d1 d2 }
{
    (d1 == 0.0) | (d2 == 0.0) | ((d1 > 0.0) == (d2 > 0.0))
}

impl Slope {
    #[tactic(auto, unfolding(crate::specs::Slopes::slope_at))]
    pub fn slope(self, z: f64) -> f64
        ensures { result ≡ slope_at self z }
    {
        match self {
            Slope::Equatorial(s) => s.f_eqr(z),
            Slope::Polar(s) => s.f_npc(z),
        }
    }

    #[tactic(auto, unfolding(crate::specs::Slopes::ratio_at))]
    pub fn ratio(self, z: f64) -> f64
        ensures { result ≡ ratio_at self z }
    {
        match self {
            Slope::Equatorial(s) => s.f_over_df_eqr(z),
            Slope::Polar(s) => s.f_over_df_npc(z),
        }
    }
}
