// What stands at a place of a job file.

ghost use Rattle.std.specs.Prelude.{◌≡◌, ◌<◌, length, get_or, IfSome, IfNone};
ghost use Rattle.table.specs.Codes.{code_byte, HasNoCode};
ghost use Rattle.jobs.specs.Passes.{command, NoCommand, item_told, item_at};

use super::refusal::{Reason, Refusal};
use table::code::Code;

// A command, with the place past its operands: a place and no slice, as the next command is looked for there.
#[derive(Clone, Copy)]
pub struct Found {
    pub code: Code,
    pub end: usize,
}

// Where no command's code stands: the end, or a refusal. Not put into its caller: where a test of 00 stands beside the match over codes, the compiler jumps by the code,
// which takes longer than to read its width.
#[inline(never)]
fn no_command(job: &[u8], at: usize) -> Result<Option<Found>, Refusal>
    requires { (at < length job.now) × HasNoCode (get_or job.now at 0) }
    ensures { item_told result ≡ item_at job.now at }
{
    if job[at] != 0 {
        return Err(Refusal {
            reason: Reason::NotInTable,
            place: at,
        });
    }
    let start = at + 1;
    if start == job.len() {
        return Ok(None);
    }
    Err(Refusal {
        reason: Reason::AfterTheEnd,
        place: start,
    })
}

// A command, or None at the end.
pub fn command_at(job: &[u8], at: usize) -> Result<Option<Found>, Refusal>
    ensures { item_told result ≡ item_at job.now at }
{
    let cut_short = Refusal {
        reason: Reason::CutShort,
        place: at,
    };
    if job.len() <= at {
        return Err(cut_short);
    }
    let Ok(code) = Code::try_from(job[at]) else {
        return no_command(job, at);
    };
    let start = at + 1;
    let operands = code.operand_width();
    if operands <= job.len() - start {
        return Ok(Some(Found {
            code,
            end: start + operands,
        }));
    }
    Err(cut_short)
}

// The same in an accepted file, which has no refusal.
pub fn next_command(job: &[u8], at: usize) -> Option<Found>
    ensures some { IfSome result (λ c. item_at job.now at ≡ command (code_byte c.code) c.end) }
    ensures none { IfNone result (NoCommand (item_at job.now at)) }
{
    match command_at(job, at) {
        Ok(found) => found,
        Err(_) => None,
    }
}
