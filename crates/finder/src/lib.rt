// What a host program calls: every exported function, and nothing else. include/finder.h declares them for C and C++.

#![tactic(auto)]

mod callers;

ghost use Rattle.std.specs.Prelude.{◌≡◌};
ghost use Rattle.std.specs.Float.{binary64};
ghost use Rattle.std.specs.Float.Ieee.{of_bits, to_bits};
ghost use Rattle.root.specs.Root.{root_of};
ghost use Rattle.root.specs.RootDigits.{digits_of};
ghost use Rattle.jobs.specs.Files.{ran, run_file};

use jobs::file;
use root::patterns;

// Answers the number of the file's refusal, or 0. The place and the number of bytes written stand behind the references.
#[unsafe(no_mangle)]
pub extern "C" fn finder_run(job: &[u8], reply: &mut [u8], place: &mut u64, written: &mut u64) -> u8
    ensures { ran result place.new written.new reply.new ≡ run_file job.now reply.old }
{
    match file::run_file(job, reply) {
        Ok(bytes) => {
            *place = job.len() as u64;
            *written = bytes as u64;
            0
        }
        Err(refusal) => {
            *place = refusal.place as u64;
            *written = 0;
            u8::from(refusal.reason)
        }
    }
}

// The square root on bit patterns, for every pattern; a NaN answer is 7FF8000000000000.
#[unsafe(no_mangle)]
pub extern "C" fn finder_root(bits: u64) -> u64
    ensures { result ≡ to_bits binary64 (root_of (of_bits binary64 bits)) }
{
    root::root_of_bits(bits)
}

// How many binary digits of that root are told, from the leading 1: the fewest that, with zeros after them, are the exact root; 53 where none are, and
// 0 for a zero, negative, infinite or NaN argument.
#[unsafe(no_mangle)]
pub extern "C" fn finder_root_digits(bits: u64) -> u64
    ensures { result ≡ digits_of (of_bits binary64 bits) }
{
    root::root_told(patterns::float_of(bits)).digits
}
