// The special points of an arc: each of its pieces is searched, after all the crossings that split it.

ghost use Rattle.std.specs.Prelude.{◌≡◌, Float, ℕ, None, true, IfSome};
ghost use Rattle.coo3d.specs.Points.{vect_of};
ghost use Rattle.coo3d.specs.TurnedBack.{OfAngles};
ghost use Rattle.splits.specs.OwnEnds.{OwnEnds};
ghost use Rattle.splits.specs.Splits.{inside_eqr, split_of};
ghost use Rattle.plans.specs.Plans.{slot_at, cap_slots_at};
ghost use Rattle.special_points_finder.specs.Arcs.{plan_in_pc, plan_in_eqr, arc_plan, slots_at, arc_at};

use super::equator;
use answers::answer::{Answer, Slot, Slots};
use caps::cap;
use caps::end::End;
use coo3d::point::Coo3D;
use coo3d::regions::{Cap, Regions};
use coo3d::vect3::Vect3;
use plans::plan::Settings;
use splits::split;
use splits::split::{Piece, Pieces, Unsplit};

#[tactic(auto, unfolding(crate::specs::Arcs::plan_in_pc, plans::specs::Plans::cap_slots_at, plans::specs::Plans::slot_at))]
fn no_slots() -> Cap<Slot>
    ensures { (n : ℕ) (precision : Float) → result ≡ cap_slots_at n (plan_in_pc None precision) }
{
    let none = Slot::without_walk(Answer::NoPiece);
    Cap {
        first: none,
        second: none,
    }
}

// `from` and `to` tell which of the piece's ends are known to be points of angles. Put into its caller, which mostly knows whether there is a piece.
#[inline(always)]
#[tactic(auto, unfolding(crate::specs::Arcs::plan_in_pc))]
fn slots_in_pc(piece: Option<Piece>, from: bool, to: bool, settings: Settings) -> Cap<Slot>
    requires { IfSome piece (λ p. (from ≡ true → OfAngles p.from) × (to ≡ true → OfAngles p.to)) }
    ensures { result ≡ cap_slots_at settings.allowance (plan_in_pc piece settings.precision) }
{
    match piece {
        None => no_slots(),
        Some(p) => {
            let first = End {
                point: p.from,
                of_angles: from,
            };
            let second = End {
                point: p.to,
                of_angles: to,
            };
            cap::arc_special_point_in_pc(first, second, settings)
        }
    }
}

#[tactic(auto, unfolding(crate::specs::Arcs::plan_in_eqr, plans::specs::Plans::slot_at))]
fn slot_in_eqr(piece: Option<Piece>, settings: Settings) -> Slot
    ensures { result ≡ slot_at settings.allowance (plan_in_eqr piece settings.precision) }
{
    match piece {
        None => Slot::without_walk(Answer::NoPiece),
        Some(p) => equator::arc_special_point_in_eqr(
            Vect3::from(p.from),
            Vect3::from(p.to),
            settings,
        ),
    }
}

#[tactic(auto, unfolding(crate::specs::Arcs::slots_at, crate::specs::Arcs::arc_plan))]
fn slots(pieces: Pieces, settings: Settings) -> Slots
    requires { OwnEnds OfAngles pieces }
    ensures { result ≡ slots_at settings.allowance (arc_plan pieces settings.precision) }
{
    let whole = pieces.equator.is_none();
    Regions {
        south: slots_in_pc(pieces.south, true, whole, settings),
        equator: slot_in_eqr(pieces.equator, settings),
        north: slots_in_pc(pieces.north, whole, true, settings),
    }
}

// The slots of an arc inside the equatorial region. Mostly there is no walk, and the order of floats tells so before the ends are put in order. No points are made
// of them: any two points with these vectors have these slots.
pub fn slots_inside_eqr(v1: Vect3, v2: Vect3, settings: Settings) -> Slots
    requires { (inside_eqr v1.z ≡ true) × (inside_eqr v2.z ≡ true) }
    ensures { (p1 p2 : Coo3D) → vect_of p1 ≡ v1 → vect_of p2 ≡ v2
        → Ok result ≡ arc_at settings.allowance (split_of p1 p2) settings.precision }
{
    let equator = if equator::signs_told(v1, v2) == 1 {
        Slot::without_walk(Answer::NoWalk)
    } else if v1.z > v2.z {
        equator::arc_special_point_in_eqr(v2, v1, settings)
    } else {
        equator::arc_special_point_in_eqr(v1, v2, settings)
    };
    Regions {
        south: no_slots(),
        equator,
        north: no_slots(),
    }
}

// `Unsplit` is document 01's status 10. The ends are two parameters as far down as the caps, which exchange and compare them.
#[tactic(auto, unfolding(crate::specs::Arcs::arc_at))]
pub fn arc_special_points(p1: Coo3D, p2: Coo3D, settings: Settings) -> Result<Slots, Unsplit>
    requires { OfAngles p1 × OfAngles p2 }
    ensures { result ≡ arc_at settings.allowance (split_of p1 p2) settings.precision }
{
    let pieces = split::split_arc(p1, p2)?;
    Ok(slots(pieces, settings))
}
