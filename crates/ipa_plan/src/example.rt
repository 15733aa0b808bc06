//! A plan that keeps to the rules, as an example of them.
ghost use Rattle.ipa_plan.specs.Example.{ExamplePlanned};

/// Two versions of one function, a constant, a component that is not passed and a result that is not given keep to the rules.
pub fn reduced_plan()
    ensures { ExamplePlanned }
{}
