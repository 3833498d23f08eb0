// Code 06. It needs no settings.

ghost use Rattle.std.specs.Prelude.{◌≡◌, length};
ghost use Rattle.table.specs.Table.{parallel};
ghost use Rattle.table.specs.Turns.{turn_of};
ghost use Rattle.table.specs.declared.state.State.{State};

use angles::float;
use answers::answer::Answer;
use arc_ends::ends;
use crossing::parallel;
use table::refusal;
use table::refusal::Refusal;
use table::reply::Reply;
use two_arcs::edge::Edge;
use words::input;

pub fn reply(operands: &[u8]) -> Result<Reply, Refusal>
    requires { length operands.now ≡ 40 }
    ensures { (s : State) → result ≡ (turn_of parallel s operands.now).reply }
{
    let e = ends::ends_of(operands, 0);
    let z = input::float_at(operands, 4);
    let finite = e.finite() & float::is_finite(z);
    let in_range = e.in_range() & refusal::is_height(z);
    refusal::first_failing(finite, true, in_range)?;
    let edge = Edge::from(e);
    let crossing = parallel::intersect_parallel(edge.p1, edge.p2, z);
    Ok(Reply::Crossing(Answer::from(crossing)))
}
