ghost use Rattle.std.specs.Prelude.{[], ◌∷◌};
ghost use Rattle.lifecycle_core.specs.Guarantees.{IsExact};
ghost use Rattle.lifecycle_core.specs.Holdings.{Use};
ghost use Rattle.tests_worked.specs.TwoReplicas.{answered, of_one, of_other, setting, shared};

/// A law: an answer of two replicas has the sample that they share once, and each that only one of them has.
pub fn replicas_are_answered_once()
    ensures exact { (used : Use)
        → IsExact setting (answered used (shared ∷ of_other ∷ of_one ∷ [])) }
    ensures twice { (used : Use)
        → ¬ IsExact setting (answered used (shared ∷ shared ∷ of_other ∷ of_one ∷ [])) }
    ensures short { (used : Use)
        → ¬ IsExact setting (answered used (shared ∷ of_one ∷ [])) }
{}
