// Copies the replies to a job file from standard input to standard output, or prints the number and the place of its refusal.
// `io` and no `HostRuntime`: the runtime's own reading and writing would rest on one more assumed C function, the one that reads errno.
// It has no formatter, so a refusal has no `Display`.

#![tactic(auto)]

use jobs::file;
use jobs::refusal::Refusal;

const STDIN: i32 = 0;

const STDOUT: i32 = 1;

const STDERR: i32 = 2;

// That a write failed is said on standard error.
fn write_replies(replies: &[u8]) {
    if !io::write_all(STDOUT, replies) {
        io::write_all(STDERR, b"reply: the replies could not be written\n");
    }
}

fn write_refusal(refusal: Refusal) {
    io::print_decimal(STDOUT, u8::from(refusal.reason) as u64);
    io::write_all(STDOUT, b" ");
    io::print_decimal(STDOUT, refusal.place as u64);
    io::write_all(STDOUT, b"\n");
}

fn main() {
    // One byte more than a job file may have, so that a longer one is told apart.
    let mut job = [0u8; 16385];
    let mut reply = io::large_buffer();
    let n = io::read_full(STDIN, &mut job);
    match file::run_file(&job[..n], &mut reply) {
        Ok(written) => {
            if let Some(replies) = reply.get(..written) {
                write_replies(replies);
            }
        }
        Err(refusal) => write_refusal(refusal),
    }
}
