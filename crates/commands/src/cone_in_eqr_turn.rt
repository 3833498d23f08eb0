// Code 04.

ghost use Rattle.std.specs.Prelude.{◌≡◌, length};
ghost use Rattle.table.specs.Table.{cone_in_eqr};
ghost use Rattle.table.specs.Turns.{turn_of};

use angles::float;
use special_points_finder::cone_in_eqr::ConeInEqr;
use table::refusal;
use table::refusal::Refusal;
use table::reply::Reply;
use table::state::State;
use words::input;

pub fn reply(state: State, operands: &[u8]) -> Result<Reply, Refusal>
    requires { length operands.now ≡ 25 }
    ensures { result ≡ (turn_of cone_in_eqr state operands.now).reply }
{
    let settings = state.settings()?;
    let north = operands[24];
    let cone = ConeInEqr {
        z: input::float_at(operands, 0),
        z0: input::float_at(operands, 1),
        radius: input::float_at(operands, 2),
        north: north == 1,
    };
    let finite = float::is_finite(cone.z)
        & float::is_finite(cone.z0)
        & float::is_finite(cone.radius);
    let in_range = refusal::is_height(cone.z)
        & refusal::is_height(cone.z0)
        & refusal::is_radius(cone.radius);
    refusal::first_failing(finite, refusal::is_flag(north), in_range)?;
    Ok(Reply::Cone(cone.special_point(settings)))
}
