// Document 02, ask 1: reads how many commands, one digit from 1 to 5, and prints every pattern of one up to as many, or 11.
// `io` and no `HostRuntime`: the runtime's own reading and writing would rest on one more assumed C function, the one that reads errno.

#![tactic(auto)]

use command_patterns::listing;

const STDIN: i32 = 0;

const STDOUT: i32 = 1;

const STDERR: i32 = 2;

fn main() {
    let mut front = [0u8; 3];
    let mut output = [0u8; listing::ROOM];
    let read = io::read_full(STDIN, &mut front);
    let written = listing::answer(&front[..read], &mut output);
    // That a write failed is said on standard error.
    if !io::write_all(STDOUT, &output[..written]) {
        io::write_all(STDERR, b"patterns: the output could not be written\n");
    }
}
