//! Options, information, and the values of both (SMT-LIB 2.6, sections 4.1.7 and 4.1.8).
use crate::seq::Bytes;

/// A channel for output (SMT-LIB 2.6, section 4.1.7).
#[derive(Clone, Copy, PartialEq, Eq, Drop)]
pub enum Channel {
    /// `"stdout"`
    Stdout,
    /// `"stderr"`
    Stderr,
}

/// An option (SMT-LIB 2.6, section 4.1.7).
#[derive(Clone, Copy, PartialEq, Eq, Drop)]
pub enum OptionName {
    PrintSuccess,
    RegularOutputChannel,
    DiagnosticOutputChannel,
    Verbosity,
    ReproducibleResourceLimit,
    RandomSeed,
    ProduceModels,
    ProduceAssertions,
    /// The older name of `:produce-assertions`.
    InteractiveMode,
    ProduceAssignments,
    GlobalDeclarations,
    ProduceUnsatCores,
    ProduceUnsatAssumptions,
}

/// An option with the value that it is to have.
#[derive(Clone, Copy, PartialEq, Eq, Drop)]
pub enum OptionSetting {
    PrintSuccess(bool),
    /// The only regular channel is `"stdout"`.
    RegularOutputChannel,
    DiagnosticOutputChannel(Channel),
    Verbosity(i128),
    ReproducibleResourceLimit(i128),
    RandomSeed(i128),
    ProduceModels(bool),
    ProduceAssertions(bool),
    InteractiveMode(bool),
    ProduceAssignments(bool),
    GlobalDeclarations(bool),
    ProduceUnsatCores(bool),
    ProduceUnsatAssumptions(bool),
}

/// The options' values. The regular channel is always `"stdout"`, and the stack knows whether declarations are global.
#[derive(Clone, Copy, PartialEq, Eq, Drop)]
pub struct Options {
    pub print_success: bool,
    pub diagnostic_output_channel: Channel,
    pub verbosity: i128,
    pub reproducible_resource_limit: i128,
    pub random_seed: i128,
    pub produce_models: bool,
    /// `:produce-assertions`, which `:interactive-mode` names too.
    pub produce_assertions: bool,
    pub produce_assignments: bool,
    pub produce_unsat_cores: bool,
    pub produce_unsat_assumptions: bool,
}

/// What `get-option` answers.
#[derive(Drop)]
pub enum OptionValue {
    Truth(bool),
    Number(i128),
    Text(Bytes),
}

/// A piece of information (SMT-LIB 2.6, section 4.1.8).
#[derive(Clone, Copy, PartialEq, Eq, Drop)]
pub enum InfoName {
    Name,
    Version,
    Authors,
    ErrorBehavior,
    AssertionStackLevels,
    ReasonUnknown,
}

/// Why a check was answered by `unknown` (SMT-LIB 2.6, section 4.1.8).
#[derive(Clone, Copy, PartialEq, Eq, Drop)]
pub enum UnknownReason {
    /// Memory was wanting.
    Memout,
    Incomplete,
}

/// What `get-info` answers.
#[derive(Clone, Copy, PartialEq, Eq, Drop)]
pub enum Info {
    Name,
    Version,
    Authors,
    /// A run goes on after an error.
    ErrorBehavior,
    /// So many levels stand above level 0.
    AssertionStackLevels(u64),
    /// Of the last check.
    ReasonUnknown(UnknownReason),
}
