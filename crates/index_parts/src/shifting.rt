ghost use Rattle.std.specs.Prelude.{◌≡◌};
ghost use Rattle.index_parts.specs.Shifting.{shifted_refusal, FitsShifted};

use crate::PartRefusal;

/// A refusal whose place was counted in a part that begins at `begin`, with its place in the index.
pub fn shifted_refusal(refusal: PartRefusal, begin: u64) -> PartRefusal
    requires { FitsShifted begin refusal }
    ensures { result ≡ shifted_refusal begin refusal }
{
    match refusal {
        PartRefusal::Short(place) => PartRefusal::Short(begin + place),
        PartRefusal::Unordered(place) => PartRefusal::Unordered(begin + place),
        PartRefusal::Overlong(place) => PartRefusal::Overlong(begin + place),
        PartRefusal::NotText(place) => PartRefusal::NotText(begin + place),
        PartRefusal::BadSum { .. } | PartRefusal::NoMemory => refusal,
    }
}
