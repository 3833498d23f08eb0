// Code 03.

ghost use Rattle.std.specs.Prelude.{◌≡◌, true, length};
ghost use Rattle.arc_ends.specs.Ends.{ends_in_range, point1, point2};
ghost use Rattle.splits.specs.Splits.{split_of};
ghost use Rattle.table.specs.Table.{arc_work, arc};
ghost use Rattle.table.specs.Turns.{reply_in, turn_of};

use arc_ends::ends;
use arc_ends::ends::Ends;
use coo3d::point::Coo3D;
use plans::plan::Settings;
use special_points_finder::arc;
use splits::split;
use table::refusal;
use table::refusal::Refusal;
use table::reply::Reply;
use table::state::State;
use two_arcs::edge::Edge;

// Five slots, or refusal 10 where the arc can't be split. No points are made of the ends of an arc inside the equatorial region.
#[tactic(auto, using(coo3d::proofs::Heights::vector), unfolding(arc_ends::specs::Ends::edge_of, arc_ends::specs::Ends::ends_in_range, special_points_finder::specs::Arcs::arc_at, table::specs::Table::arc_work, table::specs::Turns::reply_in))]
fn slots_or_refusal(e: Ends, settings: Settings) -> Result<Reply, Refusal>
    requires { ends_in_range e ≡ true }
    ensures { result ≡ reply_in settings.allowance (arc_work (split_of (point1 e) (point2 e)) settings.precision) }
{
    let edge = Edge::from(e);
    if split::inside_eqr(edge.p1.z) & split::inside_eqr(edge.p2.z) {
        return Ok(Reply::Slots(arc::slots_inside_eqr(edge.p1, edge.p2, settings)));
    }
    let p1 = Coo3D::from_angles_in_range(edge.p1, e.lon1, e.lat1);
    let p2 = Coo3D::from_angles_in_range(edge.p2, e.lon2, e.lat2);
    let slots = arc::arc_special_points(p1, p2, settings)?;
    Ok(Reply::Slots(slots))
}

pub fn reply(state: State, operands: &[u8]) -> Result<Reply, Refusal>
    requires { length operands.now ≡ 32 }
    ensures { result ≡ (turn_of arc state operands.now).reply }
{
    let settings = state.settings()?;
    let e = ends::ends_of(operands, 0);
    refusal::first_failing(e.finite(), true, e.in_range())?;
    slots_or_refusal(e, settings)
}
