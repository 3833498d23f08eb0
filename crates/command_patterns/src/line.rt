// A line of the listing.

ghost use Rattle.std.specs.Prelude.{◌≡◌, ◌≤◌, T, length};
ghost use Rattle.command_patterns.specs.Patterns.{all_codes};
ghost use Rattle.command_patterns.specs.Listing.{code_then, line};

#[tactic(auto, unfolding(crate::specs::Listing::code_then))]
fn put_code(code: u8, after: u8, out: &mut [u8])
    requires { (code ≤ 6) × (length out.old ≡ 3) }
    ensures { out.new ≡ code_then code after }
{
    *out.first_chunk_mut::<3>().unwrap() = [b'0', b'0' + code, after];
}

// The line of a pattern, by its codes.
pub fn put_line(codes: &[u8], out: &mut [u8])
    requires { T (all_codes codes.now) × (length out.old ≡ length (line codes.now)) }
    ensures { out.new ≡ line codes.now }
{
    // No `chunks_exact_mut`: nothing is known of the whole after it.
    for (i, &code) in codes.iter().enumerate() {
        put_code(code, b' ', &mut out[3 * i..3 * i + 3]);
    }
    put_code(0, b'\n', &mut out[3 * codes.len()..]);
}
