//! What is known of a plan: a function that does nothing, whose clauses are the laws.
ghost use Rattle.ipa_plan.specs.Laws.{PlanLaw, SummarisedLaw, OnePlan};

/// The plan of a merged program has one version of each function that is needed, and keeps the arrays that they name.
pub fn planned()
    ensures plan { PlanLaw }
    ensures summarised { SummarisedLaw }
    ensures one { OnePlan }
{}
