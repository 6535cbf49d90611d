ghost use Rattle.std.specs.Prelude.{◌≡◌};
ghost use Rattle.bucket_core.specs.Calls.{failure_of};

use crate::FailList;

/// What the list says of a call.
pub(crate) fn failure_at(failing: &FailList, call: u64) -> Option<bool>
    ensures { result ≡ failure_of failing.now call }
{
    failing
        .members()
        .iter()
        .find(|fail| fail.call == call)
        .map(|fail| fail.landed)
}
