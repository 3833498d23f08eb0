// What the program prints: the listing, or 11.

ghost use Rattle.std.specs.Prelude.{◌≡◌, List, ◌++◌, ℕ, ◌≤◌, length, take, drop};
ghost use Rattle.command_patterns.specs.Patterns.{count};
ghost use Rattle.command_patterns.specs.Listing.{listing, eleven, printed};

use super::{input, line, pattern};

// How many patterns there are of one up to n commands, for each n.
const COUNTS: [u64; 6] = [0, 6, 42, 258, 1554, pattern::COUNT];

fn count(n: u8) -> u64
    requires { n ≤ 5 }
    ensures { result ≡ count n }
{
    COUNTS[usize::from(n)]
}

// Lines differ in length, so the place of the next one is counted.
fn list(n: u8, out: &mut [u8]) -> usize
    requires { (n ≤ 5) × (length (listing n) ≤ length out.old) }
    ensures { (result ≡ length (listing n)) × (out.new ≡ listing n ++ drop result out.old) }
{
    let mut at = 0;
    for rank in 0..count(n) {
        let p = pattern::pattern_at(rank).unwrap();
        let codes = p.codes();
        let to = at + 3 * (codes.len() + 1);
        line::put_line(codes, &mut out[at..to]);
        at = to;
    }
    at
}

fn refuse(out: &mut [u8]) -> usize
    requires { 3 ≤ length out.old }
    ensures { (result ≡ length eleven) × (out.new ≡ eleven ++ drop result out.old) }
{
    out[..3].copy_from_slice(b"11\n");
    3
}

// Room for every line at the width of the longest: 9,330 of 18 bytes.
pub const ROOM: usize = 167940;

// Puts what the program prints at the start of the buffer, and answers how many bytes that is: not that part itself, as what lies past it is promised
// too. The front is the first three bytes of its input, or all that there are.
pub fn answer(front: &[u8], out: &mut [u8; ROOM]) -> usize
    ensures within { result ≤ length out.new }
    ensures length_printed { (input : List ℕ) → take 3 input ≡ front.now → result ≡ length (printed input) }
    ensures bytes_printed { (input : List ℕ) → take 3 input ≡ front.now → out.new ≡ printed input ++ drop result out.old }
{
    match input::number_in(front) {
        Some(n) => list(n, out),
        None => refuse(out),
    }
}
