ghost use Rattle.std.specs.Prelude.{true, [], ◌∷◌};
ghost use Rattle.world_core.specs.Standing.{IsHonest};
ghost use Rattle.lifecycle_core.specs.Guarantees.{IsGiven};
ghost use Rattle.lifecycle_core.specs.Phases.{IsRunOf};
ghost use Rattle.call_verdicts.specs.Verdicts.{IsReport};
ghost use Rattle.tests_worked.specs.TwoGateways.{answered_by, asked, by_g, ends, journal, report, script, setting};

/// A law: two gateways, one of which has a partition, answer a query together. The answer has a part of each, for the times that
/// it was asked, and its lines name the uploads gateway by gateway.
pub fn two_gateways_answer()
    ensures run { IsRunOf setting journal ends }
    ensures honest { IsHonest journal }
    ensures given { IsGiven setting ends asked }
    ensures report { IsReport script script.phases ends true report }
{}

/// A law: the answer of the first gateway alone is not the query's, whatever its samples.
pub fn answer_of_one_gateway_is_refused()
    ensures { ¬ IsGiven setting ends (answered_by (by_g ∷ [])) }
{}
