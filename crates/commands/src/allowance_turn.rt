// Code 02. None of its operands is refused.

ghost use Rattle.std.specs.Prelude.{◌≡◌, length};
ghost use Rattle.table.specs.Table.{allowance};
ghost use Rattle.table.specs.Turns.{turn_of};

use table::refusal::Refusal;
use table::reply::Reply;
use table::state::State;

pub fn reply(state: &mut State, operands: &[u8]) -> Result<Reply, Refusal>
    requires { length operands.now ≡ 1 }
    ensures replied { result ≡ (turn_of allowance state.old operands.now).reply }
    ensures left { state.new ≡ (turn_of allowance state.old operands.now).state }
{
    *state = state.with_allowance(operands[0]);
    Ok(Reply::Accepted)
}
