// Code 07. It needs no settings.

ghost use Rattle.std.specs.Prelude.{◌≡◌, ℕ, length};
ghost use Rattle.table.specs.Table.{meeting_work, two_arcs};
ghost use Rattle.table.specs.Turns.{reply_in, turn_of};
ghost use Rattle.table.specs.declared.state.State.{State};

use answers::answer::Answer;
use arc_ends::ends;
use coo3d::vect3::Vect3;
use table::refusal;
use table::refusal::Refusal;
use table::reply::Reply;
use two_arcs::edge::Edge;
use two_arcs::meeting;
use two_arcs::meeting::NoMeeting;

// A crossing, or refusal 12 where there is no candidate; no allowance has a part in it.
fn crossing_or_refusal(m: Result<Vect3, NoMeeting>) -> Result<Reply, Refusal>
    ensures { (n : ℕ) → result ≡ reply_in n (meeting_work m) }
{
    match m {
        Ok(v) => Ok(Reply::Crossing(Answer::from(Ok(v)))),
        Err(NoMeeting::Nowhere) => Ok(Reply::Crossing(Answer::NoRoot)),
        Err(NoMeeting::NoCandidate) => Err(Refusal::NoCandidate),
    }
}

pub fn reply(operands: &[u8]) -> Result<Reply, Refusal>
    requires { length operands.now ≡ 64 }
    ensures { (s : State) → result ≡ (turn_of two_arcs s operands.now).reply }
{
    let first = ends::ends_of(operands, 0);
    let second = ends::ends_of(operands, 4);
    let finite = first.finite() & second.finite();
    let in_range = first.in_range() & second.in_range();
    refusal::first_failing(finite, true, in_range)?;
    crossing_or_refusal(meeting::intersect_arcs(Edge::from(first), Edge::from(second)))
}
