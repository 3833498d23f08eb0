// A host's calls, proved: each has no `requires` and states the whole contract of the exported function again, so that neither a condition on the
// host nor less than the whole answer can be put into that contract unseen. Nothing here is exported.

ghost use Rattle.std.specs.Prelude.{◌≡◌};
ghost use Rattle.std.specs.Float.{binary64};
ghost use Rattle.std.specs.Float.Ieee.{of_bits, to_bits};
ghost use Rattle.root.specs.Root.{root_of};
ghost use Rattle.root.specs.RootDigits.{digits_of};
ghost use Rattle.jobs.specs.Files.{ran, run_file};

fn any_run(job: &[u8], reply: &mut [u8], place: &mut u64, written: &mut u64) -> u8
    ensures { ran result place.new written.new reply.new ≡ run_file job.now reply.old }
{
    super::finder_run(job, reply, place, written)
}

fn any_root(bits: u64) -> u64
    ensures { result ≡ to_bits binary64 (root_of (of_bits binary64 bits)) }
{
    super::finder_root(bits)
}

fn any_root_digits(bits: u64) -> u64
    ensures { result ≡ digits_of (of_bits binary64 bits) }
{
    super::finder_root_digits(bits)
}
