// Replays job files with the answers that are stored for them, and says how many differ. host/ makes the input, from the reference and the
// rules of document 01; its first 512 bytes are text that says so.
// `io` and no `HostRuntime`: the runtime's own reading and writing would rest on one more assumed C function, the one that reads errno.

#![tactic(auto)]

ghost use Rattle.std.specs.Prelude.{◌≤◌};

use jobs::file;

const STDIN: i32 = 0;

const STDOUT: i32 = 1;

// More than the input has; by it the loop ends.
const MOST: usize = 100000;

// What the reply buffer holds before each run.
const MARK: u8 = 0xa5;

// A record's head, in the numbers of finder_run: how long the job file and the reply buffer are, and what the run answers.
#[derive(Clone, Copy)]
struct Head {
    length: usize,
    room: usize,
    number: usize,
    place: usize,
    written: usize,
}

// A fixed size each, as no heap is used.
#[derive(Drop)]
struct Buffers {
    job: [u8; 16385],
    answer: [u8; 65536],
    reply: [u8; 65536],
}

fn number_at(head: &[u8; 20], at: usize) -> usize
    requires { at ≤ 16 }
{
    u32::from_le_bytes([head[at], head[at + 1], head[at + 2], head[at + 3]]) as usize
}

impl From<[u8; 20]> for Head {
    fn from(head: [u8; 20]) -> Head {
        Head {
            length: number_at(&head, 0),
            room: number_at(&head, 4),
            number: number_at(&head, 8),
            place: number_at(&head, 12),
            written: number_at(&head, 16),
        }
    }
}

// The next n bytes of the input, where the buffer has room and the input has as many.
fn read_part(buffer: &mut [u8], n: usize) -> Option<&[u8]> {
    if buffer.len() < n {
        return None;
    }
    if io::read_full(STDIN, &mut buffer[0..n]) != n {
        return None;
    }
    Some(&buffer[0..n])
}

// Whether a job file is answered as stored, and no byte past the replies is changed.
fn agrees(head: Head, job: &[u8], answer: &[u8], reply: &mut [u8]) -> bool {
    if reply.len() < head.room {
        return false;
    }
    reply.fill(MARK);
    let (number, place, written) = match file::run_file(job, &mut reply[0..head.room]) {
        Ok(written) => (0, job.len(), written),
        Err(refusal) => (u8::from(refusal.reason) as usize, refusal.place, 0),
    };
    (number == head.number)
        & (place == head.place)
        & (written == head.written)
        & reply.starts_with(answer)
        & reply.iter().skip(answer.len()).all(|&b| b == MARK)
}

impl Buffers {
    // Whether the next job file is answered as stored; None at the end of the input.
    fn next(&mut self) -> Option<bool> {
        let mut head = [0u8; 20];
        let n = io::read_full(STDIN, &mut head);
        if n == 0 {
            return None;
        }
        let head = Head::from(head);
        let job = read_part(&mut self.job, head.length);
        let answer = read_part(&mut self.answer, head.written);
        let (Some(job), Some(answer)) = (job, answer) else {
            return Some(false);
        };
        Some((n == 20) & agrees(head, job, answer, &mut self.reply))
    }
}

fn say(n: usize, what: &[u8]) {
    io::print_decimal(STDOUT, n as u64);
    io::write_all(STDOUT, what);
}

fn report(replayed: usize, differ: usize) {
    say(replayed, b" job files replayed\n");
    say(differ, b" answered otherwise\n");
}

fn replay_all(buffers: &mut Buffers) {
    let mut differ = 0;
    for replayed in 0..MOST {
        match buffers.next() {
            Some(true) => {}
            Some(false) => differ += 1,
            None => {
                report(replayed, differ);
                return;
            }
        }
    }
    report(MOST, differ);
}

fn main() {
    let mut text = [0u8; 512];
    io::read_full(STDIN, &mut text);
    let mut buffers = Buffers {
        job: [0; 16385],
        answer: [0; 65536],
        reply: [0; 65536],
    };
    replay_all(&mut buffers);
}
