// Which calls of a form in memory fail.
ghost use Rattle.std.specs.Prelude.{◌≡◌};
ghost use Rattle.outer_files.specs.Memory.{fails_at};

// Whether the call with this number is to fail.
pub(crate) fn fails(fail: &[u64], call: u64) -> bool
    ensures { result ≡ fails_at fail.now call }
{
    fail.contains(&call)
}
