//! Replica labels that a selector names.
ghost use Rattle.std.specs.Prelude.{◌≡◌, List, ℕ, [], ◌∷◌, IfSome, IfNone};
ghost use Rattle.matchers.specs.SelectorText.{named_replicas};

use crate::Matcher;
use label_sets::{Text, TextList, is_among};

/// The first replica label that a matcher asks for.
pub(crate) fn first_replica<'a>(matchers: &'a [Matcher], replicas: &TextList) -> Option<&'a Text>
    ensures none { IfNone result (named_replicas replicas.now matchers.now ≡ []) }
    ensures some { IfSome result (λ name. (others : List (List ℕ))
        × (named_replicas replicas.now matchers.now ≡ name.now ∷ others)) }
{
    for matcher in matchers {
        if is_among(replicas.members(), matcher.name.as_str()) {
            return Some(&matcher.name);
        }
    }
    None
}
