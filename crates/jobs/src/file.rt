// Two passes over a job file: the first refuses it or counts the bytes of its replies, the second writes them. Each is a while over the place: an iterator
// would have to end after the refusal that it gives, and the second pass needs the place to lend the operands.

ghost use Rattle.std.specs.Prelude.{◌≡◌, length};
ghost use Rattle.table.specs.States.{unset};
ghost use Rattle.jobs.specs.Files.{file_of, run_file};
ghost use Rattle.jobs.specs.Passes.{checked_told, checked_of, Fitting, filled, ran_of};

use super::item;
use super::refusal::{Reason, Refusal};
use commands::turn;
use table::reply;
use table::state::State;

const LONGEST: usize = 16384;

fn check(job: &[u8]) -> Result<usize, Refusal>
    ensures { checked_told result ≡ checked_of 0 (file_of job.now) }
{
    if (job.len() == 0) | (LONGEST < job.len()) {
        return Err(Refusal {
            reason: Reason::Size,
            place: 0,
        });
    }
    let mut at = 0;
    let mut total = 0;
    while let Some(command) = item::command_at(job, at)? {
        total += command.code.reply_width();
        at = command.end;
    }
    Ok(total)
}

// The second pass, over an accepted file whose replies fit.
fn run(job: &[u8], reply: &mut [u8])
    requires { Fitting (file_of job.now) (length reply.old) }
    ensures { reply.new ≡ filled unset (file_of job.now) reply.old }
{
    let mut at = 0;
    let mut out = 0;
    let mut state = State::unset();
    while let Some(command) = item::next_command(job, at) {
        let code = command.code;
        let end = command.end;
        let start = at + 1;
        let to = out + code.reply_width();
        let turn = turn::turn(&mut state, code, &job[start..end]);
        reply::put(turn, u8::from(code), &mut reply[out..to]);
        at = end;
        out = to;
    }
}

// How many bytes are written.
pub fn run_file(job: &[u8], reply: &mut [u8]) -> Result<usize, Refusal>
    ensures { ran_of (length job.now) result reply.new ≡ run_file job.now reply.old }
{
    let total = check(job)?;
    if reply.len() < total {
        return Err(Refusal {
            reason: Reason::NoRoom,
            place: total,
        });
    }
    run(job, reply);
    Ok(total)
}
