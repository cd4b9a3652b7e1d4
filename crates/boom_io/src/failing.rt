ghost use Rattle.std.specs.Prelude.{◌↔◌, Contains, IsTrue};

// Whether this call is among those that fail.
pub(crate) fn fails_at(failing: &[u32], call: u64) -> bool
    ensures { IsTrue result ↔ Contains failing.now call }
{
    failing.iter().any(|k| u64::from(*k) == call)
}
