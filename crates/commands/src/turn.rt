// One turn, by the code: the reply, and the state that it leaves. A match and no table of functions: each module takes what its code needs.

ghost use Rattle.std.specs.Prelude.{◌≡◌, length};
ghost use Rattle.table.specs.Codes.{code_byte};
ghost use Rattle.table.specs.Table.{operand_width, row_of};
ghost use Rattle.table.specs.Turns.{turn_of};

use super::{allowance_turn, cone_in_eqr_turn, cone_in_pc_turn, precision_turn};
use arc_turns::{arc_turn, parallel_turn, two_arcs_turn};
use table::code::Code;
use table::refusal::Refusal;
use table::reply::Reply;
use table::state::State;

pub fn turn(state: &mut State, code: Code, operands: &[u8]) -> Result<Reply, Refusal>
    requires { length operands.now ≡ operand_width (code_byte code) }
    ensures replied { result ≡ (turn_of (row_of (code_byte code)) state.old operands.now).reply }
    ensures left { state.new ≡ (turn_of (row_of (code_byte code)) state.old operands.now).state }
{
    match code {
        Code::Precision => precision_turn::reply(state, operands),
        Code::Allowance => allowance_turn::reply(state, operands),
        Code::Arc => arc_turn::reply(*state, operands),
        Code::ConeInEqr => cone_in_eqr_turn::reply(*state, operands),
        Code::ConeInPc => cone_in_pc_turn::reply(*state, operands),
        Code::Parallel => parallel_turn::reply(operands),
        Code::TwoArcs => two_arcs_turn::reply(operands),
    }
}
