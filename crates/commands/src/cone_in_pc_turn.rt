// Code 05.

ghost use Rattle.std.specs.Prelude.{◌≡◌, length};
ghost use Rattle.table.specs.Table.{cone_in_pc};
ghost use Rattle.table.specs.Turns.{turn_of};

use angles::float;
use special_points_finder::cone_in_pc::ConeInPc;
use table::refusal;
use table::refusal::Refusal;
use table::reply::Reply;
use table::state::State;
use words::input;

pub fn reply(state: State, operands: &[u8]) -> Result<Reply, Refusal>
    requires { length operands.now ≡ 34 }
    ensures { result ≡ (turn_of cone_in_pc state operands.now).reply }
{
    let settings = state.settings()?;
    let east = operands[32];
    let north = operands[33];
    let cone = ConeInPc {
        z: input::float_at(operands, 0),
        lon: input::float_at(operands, 1),
        z0: input::float_at(operands, 2),
        radius: input::float_at(operands, 3),
        east: east == 1,
        north: north == 1,
    };
    let finite = float::is_finite(cone.z)
        & float::is_finite(cone.lon)
        & float::is_finite(cone.z0)
        & float::is_finite(cone.radius);
    let flags = refusal::is_flag(east) & refusal::is_flag(north);
    let in_range = refusal::is_height(cone.z)
        & refusal::is_lon_mod_half_pi(cone.lon)
        & refusal::is_height(cone.z0)
        & refusal::is_radius(cone.radius);
    refusal::first_failing(finite, flags, in_range)?;
    Ok(Reply::Cone(cone.special_point(settings)))
}
