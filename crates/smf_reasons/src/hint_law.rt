ghost use Rattle.smf_reasons.specs.HintExamples.{ExclusionsAreTold, ProgramsAreFound, ProgramsAreTold, PropertiesAreTold, SignalsAreTold, TypesAreTold};

/// What a check hints at: one example for each kind, and some without a hint.
#[tactic(auto, unfolding(crate::specs::Exclusions::clash, crate::specs::Exclusions::clash_hint, crate::specs::Hints::property_hints, crate::specs::Hints::property_hint, crate::specs::Hints::signal_hint, crate::specs::Hints::program_of))]
pub fn hints_are_told_so()
    ensures types { TypesAreTold }
    ensures properties { PropertiesAreTold }
    ensures signals { SignalsAreTold }
    ensures found { ProgramsAreFound }
    ensures programs { ProgramsAreTold }
    ensures exclusions { ExclusionsAreTold }
{}
