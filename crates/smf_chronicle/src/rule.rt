ghost use Rattle.std.specs.Prelude.{◌≡◌};
ghost use Rattle.smf_chronicle.specs.RuleTexts.{rule_text};

/// A rule of chronicles that an entry breaks. If it breaks two, the one that stands first here is told.
#[derive(Clone, Copy, PartialEq, Eq)]
pub enum Rule {
    /// A row or a contract is told as found, and not as a life begins.
    FoundLate,
    /// An instance has two live starts.
    TwoLive,
    /// A row was held that was neither committed nor found.
    HeldUncommitted,
    /// A number of an instance was committed twice, or stands for two states.
    CommittedTwice,
    /// A state or a number does not follow on the one before.
    OffTheDiagram,
}

impl Rule {
    /// What `smf audit` says of an entry that breaks the rule.
    pub fn text(self) -> &'static str
        ensures { result.now ≡ rule_text self }
    {
        match self {
            Rule::FoundLate => "found after the begin of a life",
            Rule::TwoLive => "two live starts",
            Rule::HeldUncommitted => "held and not committed",
            Rule::CommittedTwice => "committed twice",
            Rule::OffTheDiagram => "not along the diagram",
        }
    }
}

/// The first entry that breaks a rule.
#[derive(Clone, Copy)]
pub struct Breach {
    /// So many entries stand before it.
    pub place: usize,
    pub rule: Rule,
}
