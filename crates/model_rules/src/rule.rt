//! The rules, and their numbers.
ghost use Rattle.std.specs.Prelude.{◌≡◌};
ghost use Rattle.model_rules.specs.Numbers.{number_of};

/// A rule of an input. Each variant states what holds of an input that keeps the rule. There is no rule 25.
#[derive(Clone, Copy, Debug, PartialEq, Eq)]
pub enum Rule {
    /// Rule 1: a line has allowed bytes only, before its comment.
    BytesAreAllowed,
    /// Rule 2: a text, and any other input, isn't too long.
    TextFits,
    /// Rule 3: a line isn't too long.
    LineFits,
    /// Rule 4: a line has one of the forms.
    LineHasForm,
    /// Rule 5: a line is where its form is allowed.
    LineIsInPlace,
    /// Rule 6: each block is closed at the end of the text.
    BlocksAreClosed,
    /// Rule 7: a text begins with a header.
    HeaderIsThere,
    /// Rule 8: names of units, names of instances, and names in one unit differ.
    NamesDiffer,
    /// Rule 9: names are declared, and are allowed where they are used.
    NamesAreDeclared,
    /// Rule 10: expressions have the kinds that are required, and literals the forms of their types.
    KindsFit,
    /// Rule 11: literals are in the ranges of their types.
    LiteralsFit,
    /// Rule 12: outputs use no inputs but their needs.
    NeedsAreNamed,
    /// Rule 13: an input is connected once.
    InputsConnectOnce,
    /// Rule 14: both ends of a connection have one type.
    EndsMatch,
    /// Rule 15: outputs that need each other form no cycle.
    OutputsHaveOrder,
    /// Rule 16: there are not too many lines of a kind.
    CountsFit,
    /// Rule 17: no expression is too deep.
    DepthFits,
    /// Rule 18: no call costs too much.
    CostFits,
    /// Rule 19: there is a `stop`.
    StopIsThere,
    /// Rule 20: `stop` and `longest` are whole numbers of ticks.
    TimesAreTicks,
    /// Rule 21: there are not too many rows for the number of instances.
    RowsFit,
    /// Rule 22: what is assigned may change.
    TargetsMayChange,
    /// Rule 23: there is an instance.
    InstanceIsThere,
    /// Rule 24: nothing is set, sampled or needed twice.
    NothingRepeats,
    /// Rule 26: each part of a text with groups has the lines that are allowed in it.
    PartHoldsLine,
    /// Rule 27: a group has a name of its own, and an instance.
    GroupIsNamed,
    /// Rule 28: no group contains itself.
    GroupsEnd,
    /// Rule 29: the ports that a group names are there, and each `out` name is there once.
    GroupPortsAreThere,
    /// Rule 30: the flat system isn't too large.
    FlatSystemFits,
    /// Rule 31: the trace has the row whose position is saved.
    RowIsThere,
    /// Rule 32: a saved text begins with a position.
    PositionIsThere,
    /// Rule 33: the position fits the system.
    PositionFits,
    /// Rule 34: the system isn't too large for two nodes.
    NodesFit,
    /// Rule 35: a line `trace` is between the text and the trace.
    TraceIsThere,
    /// Rule 36: the input is a table of stimulus.
    TableHasForm,
    /// Rule 37: the system isn't too long in version 2.
    UpgradeFits,
}

impl Rule {
    /// The number of the rule in a refusal.
    pub fn number(self) -> u8
        ensures { result ≡ number_of self }
    {
        match self {
            Rule::BytesAreAllowed => 1,
            Rule::TextFits => 2,
            Rule::LineFits => 3,
            Rule::LineHasForm => 4,
            Rule::LineIsInPlace => 5,
            Rule::BlocksAreClosed => 6,
            Rule::HeaderIsThere => 7,
            Rule::NamesDiffer => 8,
            Rule::NamesAreDeclared => 9,
            Rule::KindsFit => 10,
            Rule::LiteralsFit => 11,
            Rule::NeedsAreNamed => 12,
            Rule::InputsConnectOnce => 13,
            Rule::EndsMatch => 14,
            Rule::OutputsHaveOrder => 15,
            Rule::CountsFit => 16,
            Rule::DepthFits => 17,
            Rule::CostFits => 18,
            Rule::StopIsThere => 19,
            Rule::TimesAreTicks => 20,
            Rule::RowsFit => 21,
            Rule::TargetsMayChange => 22,
            Rule::InstanceIsThere => 23,
            Rule::NothingRepeats => 24,
            Rule::PartHoldsLine => 26,
            Rule::GroupIsNamed => 27,
            Rule::GroupsEnd => 28,
            Rule::GroupPortsAreThere => 29,
            Rule::FlatSystemFits => 30,
            Rule::RowIsThere => 31,
            Rule::PositionIsThere => 32,
            Rule::PositionFits => 33,
            Rule::NodesFit => 34,
            Rule::TraceIsThere => 35,
            Rule::TableHasForm => 36,
            Rule::UpgradeFits => 37,
        }
    }
}
