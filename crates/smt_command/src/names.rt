//! The names of commands, options and information.
ghost use Rattle.std.specs.Prelude.{◌≡◌};
ghost use Rattle.smt_meaning.specs.Signature.{look_up, is_one_of};
ghost use Rattle.smt_meaning.specs.Command.{option_names, info_names};
ghost use Rattle.smt_command.specs.Names.{command_names, setting_names, session_names, declaration_names, stack_names, answer_names, refutation_names, left_out_names, goal_names};

use smt_meaning::language::{InfoName, OptionName};

/// The name of a command (SMT-LIB 2.6, section 4.2).
#[derive(Clone, Copy, Drop)]
pub enum CommandName {
    SetLogic,
    SetOption,
    GetOption,
    SetInfo,
    GetInfo,
    Echo,
    Exit,
    Reset,
    ResetAssertions,
    DeclareSort,
    DefineSort,
    DeclareConst,
    DeclareFun,
    DefineFun,
    Assert,
    CheckSat,
    Push,
    Pop,
    GetValue,
    GetModel,
    GetAssertions,
    CheckSatAssuming,
    GetAssignment,
    GetUnsatCore,
    GetUnsatAssumptions,
    /// The question for a least value, which is no command of the standard.
    Minimize,
    /// A command of the standard that is answered `unsupported`, whatever its arguments are.
    LeftOut,
}

/// The command that has a name.
pub fn command_name(name: &[u8]) -> Option<CommandName>
    ensures { result ≡ look_up name.now command_names }
{
    if let Some(found) = setting_name(name) {
        return Some(found);
    }
    if let Some(found) = session_name(name) {
        return Some(found);
    }
    if let Some(found) = declaration_name(name) {
        return Some(found);
    }
    if let Some(found) = stack_name(name) {
        return Some(found);
    }
    if let Some(found) = answer_name(name) {
        return Some(found);
    }
    if let Some(found) = refutation_name(name) {
        return Some(found);
    }
    if is_left_out(name) {
        return Some(CommandName::LeftOut);
    }
    goal_name(name)
}

/// A command that sets or answers something outside the stack.
fn setting_name(name: &[u8]) -> Option<CommandName>
    ensures { result ≡ look_up name.now setting_names }
{
    if name == b"set-logic".as_slice() {
        Some(CommandName::SetLogic)
    } else if name == b"set-option".as_slice() {
        Some(CommandName::SetOption)
    } else if name == b"get-option".as_slice() {
        Some(CommandName::GetOption)
    } else if name == b"set-info".as_slice() {
        Some(CommandName::SetInfo)
    } else if name == b"get-info".as_slice() {
        Some(CommandName::GetInfo)
    } else if name == b"echo".as_slice() {
        Some(CommandName::Echo)
    } else {
        None
    }
}

/// A command that ends the session or begins it anew.
fn session_name(name: &[u8]) -> Option<CommandName>
    ensures { result ≡ look_up name.now session_names }
{
    if name == b"exit".as_slice() {
        Some(CommandName::Exit)
    } else if name == b"reset".as_slice() {
        Some(CommandName::Reset)
    } else if name == b"reset-assertions".as_slice() {
        Some(CommandName::ResetAssertions)
    } else {
        None
    }
}

/// A command that declares or defines a symbol.
fn declaration_name(name: &[u8]) -> Option<CommandName>
    ensures { result ≡ look_up name.now declaration_names }
{
    if name == b"declare-sort".as_slice() {
        Some(CommandName::DeclareSort)
    } else if name == b"define-sort".as_slice() {
        Some(CommandName::DefineSort)
    } else if name == b"declare-const".as_slice() {
        Some(CommandName::DeclareConst)
    } else if name == b"declare-fun".as_slice() {
        Some(CommandName::DeclareFun)
    } else if name == b"define-fun".as_slice() {
        Some(CommandName::DefineFun)
    } else {
        None
    }
}

/// A command on the assertions.
fn stack_name(name: &[u8]) -> Option<CommandName>
    ensures { result ≡ look_up name.now stack_names }
{
    if name == b"assert".as_slice() {
        Some(CommandName::Assert)
    } else if name == b"check-sat".as_slice() {
        Some(CommandName::CheckSat)
    } else if name == b"push".as_slice() {
        Some(CommandName::Push)
    } else if name == b"pop".as_slice() {
        Some(CommandName::Pop)
    } else {
        None
    }
}

/// A command that asks for what a check has found, for the assertions, or for a check under assumptions.
fn answer_name(name: &[u8]) -> Option<CommandName>
    ensures { result ≡ look_up name.now answer_names }
{
    if name == b"get-value".as_slice() {
        Some(CommandName::GetValue)
    } else if name == b"get-model".as_slice() {
        Some(CommandName::GetModel)
    } else if name == b"get-assertions".as_slice() {
        Some(CommandName::GetAssertions)
    } else if name == b"check-sat-assuming".as_slice() {
        Some(CommandName::CheckSatAssuming)
    } else if name == b"get-assignment".as_slice() {
        Some(CommandName::GetAssignment)
    } else {
        None
    }
}

/// A command that asks why a check has found no model. A proof isn't given.
fn refutation_name(name: &[u8]) -> Option<CommandName>
    ensures { result ≡ look_up name.now refutation_names }
{
    if name == b"get-proof".as_slice() {
        Some(CommandName::LeftOut)
    } else if name == b"get-unsat-core".as_slice() {
        Some(CommandName::GetUnsatCore)
    } else if name == b"get-unsat-assumptions".as_slice() {
        Some(CommandName::GetUnsatAssumptions)
    } else {
        None
    }
}

/// Whether it is the name of a command of the standard that is left out.
fn is_left_out(name: &[u8]) -> bool
    ensures { result ≡ is_one_of name.now left_out_names }
{
    name == b"define-fun-rec".as_slice()
        || name == b"define-funs-rec".as_slice()
        || name == b"declare-datatype".as_slice()
        || name == b"declare-datatypes".as_slice()
}

/// The command that asks for a least value.
fn goal_name(name: &[u8]) -> Option<CommandName>
    ensures { result ≡ look_up name.now goal_names }
{
    if name == b"minimize".as_slice() {
        Some(CommandName::Minimize)
    } else {
        None
    }
}

/// The option that a keyword names (SMT-LIB 2.6, section 4.1.7).
pub fn option_name(keyword: &[u8]) -> Option<OptionName>
    ensures { result ≡ look_up keyword.now option_names }
{
    if keyword == b"print-success".as_slice() {
        Some(OptionName::PrintSuccess)
    } else if keyword == b"regular-output-channel".as_slice() {
        Some(OptionName::RegularOutputChannel)
    } else if keyword == b"diagnostic-output-channel".as_slice() {
        Some(OptionName::DiagnosticOutputChannel)
    } else if keyword == b"verbosity".as_slice() {
        Some(OptionName::Verbosity)
    } else if keyword == b"reproducible-resource-limit".as_slice() {
        Some(OptionName::ReproducibleResourceLimit)
    } else if keyword == b"random-seed".as_slice() {
        Some(OptionName::RandomSeed)
    } else if keyword == b"produce-models".as_slice() {
        Some(OptionName::ProduceModels)
    } else if keyword == b"produce-assertions".as_slice() {
        Some(OptionName::ProduceAssertions)
    } else if keyword == b"interactive-mode".as_slice() {
        Some(OptionName::InteractiveMode)
    } else if keyword == b"produce-assignments".as_slice() {
        Some(OptionName::ProduceAssignments)
    } else if keyword == b"global-declarations".as_slice() {
        Some(OptionName::GlobalDeclarations)
    } else if keyword == b"produce-unsat-cores".as_slice() {
        Some(OptionName::ProduceUnsatCores)
    } else if keyword == b"produce-unsat-assumptions".as_slice() {
        Some(OptionName::ProduceUnsatAssumptions)
    } else {
        None
    }
}

/// The piece of information that a keyword names (SMT-LIB 2.6, section 4.1.8).
pub fn info_name(keyword: &[u8]) -> Option<InfoName>
    ensures { result ≡ look_up keyword.now info_names }
{
    if keyword == b"name".as_slice() {
        Some(InfoName::Name)
    } else if keyword == b"version".as_slice() {
        Some(InfoName::Version)
    } else if keyword == b"authors".as_slice() {
        Some(InfoName::Authors)
    } else if keyword == b"error-behavior".as_slice() {
        Some(InfoName::ErrorBehavior)
    } else if keyword == b"assertion-stack-levels".as_slice() {
        Some(InfoName::AssertionStackLevels)
    } else if keyword == b"reason-unknown".as_slice() {
        Some(InfoName::ReasonUnknown)
    } else {
        None
    }
}
