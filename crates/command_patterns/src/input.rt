// What the program is asked for.

ghost use Rattle.std.specs.Prelude.{◌≡◌};
ghost use Rattle.command_patterns.specs.Listing.{digit_of, number_in};

fn digit_of(d: u8) -> Option<u8>
    ensures { result ≡ digit_of d }
{
    match d {
        b'1'..=b'5' => Some(d - b'0'),
        _ => None,
    }
}

// The n of one of the ten inputs that are taken.
#[tactic(auto, using(crate::proofs::Inputs::by_length))]
pub fn number_in(input: &[u8]) -> Option<u8>
    ensures { result ≡ number_in input.now }
{
    match input {
        [d] | [d, b'\n'] => digit_of(*d),
        _ => None,
    }
}
