// Code 01.

ghost use Rattle.std.specs.Prelude.{◌≡◌, length};
ghost use Rattle.table.specs.Table.{precision};
ghost use Rattle.table.specs.Turns.{turn_of};

use angles::float;
use table::refusal;
use table::refusal::Refusal;
use table::reply::Reply;
use table::state::State;
use words::input;

pub fn reply(state: &mut State, operands: &[u8]) -> Result<Reply, Refusal>
    requires { length operands.now ≡ 8 }
    ensures replied { result ≡ (turn_of precision state.old operands.now).reply }
    ensures left { state.new ≡ (turn_of precision state.old operands.now).state }
{
    let p = input::float_at(operands, 0);
    refusal::first_failing(float::is_finite(p), true, true)?;
    *state = state.with_precision(p);
    Ok(Reply::Accepted)
}
