//! What a run has come to.
ghost use Rattle.std.specs.Prelude.{◌≡◌, ◌<◌};
ghost use Rattle.smt_meaning.specs.State.{is_start as is_start_mode, is_unsat as is_unsat_mode};
ghost use Rattle.session.specs.LastCheck.{is_after_check as is_mode_after_check};

use crate::above::{Above, into_assumptions};
use crate::asked::values_of;
use crate::assignment::named_truths;
use crate::carry::{carry, refused, word};
use crate::checks::in_force;
use crate::cores::{core_of, named_places, names_of, places_from, texts_above, texts_held};
use crate::logic::Logic;
use crate::minimizing::minimize_under;
use crate::options::{option_value, options_at_start, start_option, with_setting};
use crate::printed::{printed_functions, texts_of};
use goal_search::{Assumed, check_under, checked};
use model_eval::EvalError;
use scope_stack::{Assertion, Carried, ScopeStack, Stack, StackError};
use smt_meaning::language::{
    Command, Error, Info, InfoName, Mode, OptionName, OptionSetting, Options, Reply,
};
use smt_meaning::{Bytes, Held, Inner, Kept, SExpr, Seq, Settings};
use std::alloc::{AllocError, Global};
use std::marker::Model;
use theory_port::Decider;

/// The state of a run: the settings of the words, the logic once it is set, the mode with the model that is kept, the options, the stack, and what stood above it at the last check.
#[derive(Drop)]
pub struct Session {
    settings: Settings,
    logic: Option<Logic>,
    mode: Mode,
    options: Options,
    stack: ScopeStack,
    above: Above,
    ghost crew: { 0 < settings.workers },
}

impl Model for Session {
    ghost use Rattle.smt_meaning.specs.State.{State};
    ghost use Rattle.session.specs.Logics.{named};
    ghost use Rattle.session.specs.StateCode.{coded_state};
    ghost use Rattle.session.specs.Above.{above_by, AreAbove};
    ghost use Rattle.goal_search.specs.Checked.{WhereUnsat};
    ghost use Rattle.session.specs.Refuted.{IsRefuted};

    ghost Value = { State };

    ghost coded = { coded_state };

    ghost view = { λ s. record { settings = s.settings; logic = named s.logic; mode = s.mode; options = s.options; stack = s.stack; above = above_by s.stack.trees s.above } };

    ghost invariant = { λ s. AreAbove s.stack.trees s.above × WhereUnsat s.mode (IsRefuted s.stack s.above) };
}

/// What a command comes to.
#[derive(Drop)]
pub struct Done {
    pub reply: Reply,
    /// What the journal keeps with the reply.
    pub kept: Kept,
    /// The run stops here.
    pub stop: bool,
}

/// What the last check was of.
#[derive(Drop)]
pub struct LastCheck {
    /// The stack, without the level of the assumptions.
    pub stack: Stack,
    /// The assumptions of the check, whose terms are the stack's.
    pub assumptions: Seq<Assertion>,
}

impl Session {
    ghost use Rattle.std.specs.Prelude.{◌≡◌, ◌≢◌, ◌<◌, ◌↔◌, IfOk, IfSome, IfNone, OnErr, IsTrue};
    ghost use Rattle.std.specs.Prelude.{codes, [], IsFalse, false};
    ghost use Rattle.smt_meaning.specs.State.{start, with_logic, asserting, set_logic, set_option_in, start_option, option_value, reason_unknown, get_info, stack_effect, checks, check_assuming, minimize, effect, kept_model, get_value, get_model, get_assertions, get_assignment, checked_frames, get_unsat_core, get_unsat_assumptions};
    ghost use Rattle.std.specs.Prelude.{length};
    ghost use Rattle.smt_meaning.specs.Core.{IsReduced, checked_trees};
    ghost use Rattle.smt_meaning.specs.Stack.{assertions_of};
    ghost use Rattle.smt_meaning.specs.declared.answers.Mode.TheVariants as In;
    ghost use Rattle.goal_search.specs.Tries.{AreCandidates};
    ghost use Rattle.smt_meaning.specs.StackCommand.{stack_command};
    ghost use Rattle.session.specs.Effects.{Comes, is_carried, is_check, word_of};
    ghost use Rattle.smt_meaning.specs.MayReply.{MayReply, MayCome, success};
    ghost use Rattle.smt_meaning.specs.declared.commands.Command.TheVariants.{Exit, Reset, ResetAssertions, CheckSatAssuming, Minimize};
    ghost use Rattle.session.specs.Above.{above_by, AreAbove};
    ghost use Rattle.goal_search.specs.Checked.{WhereUnsat};
    ghost use Rattle.session.specs.Refuted.{IsRefuted};
    ghost use Rattle.session.specs.LastCheck.{is_after_check, IsOfLastCheck};
    ghost use Rattle.session.specs.Taken.{every_stack};

    /// The state at the start of a run. It takes no memory.
    pub fn new(alloc: Global, settings: &Settings) -> Self
        requires { 0 < settings.now.workers }
        ensures { result ≡ start settings.now }
    {
        Session {
            settings: *settings,
            logic: None,
            mode: Mode::Start,
            options: options_at_start(settings),
            stack: ScopeStack::new(alloc),
            above: Above::Nothing,
        }
    }

    /// Carries a command out. An `Err`, for want of memory, changes nothing.
    pub fn step<D: Decider>(
        &mut self,
        alloc: Global,
        command: &Command,
        decider: &mut D,
    ) -> Result<Done, AllocError>
        requires may { D.may decider.old }
        ensures still { D.may decider.new }
        ensures reply { IfOk result (λ done. MayReply every_stack self.old command.now done.reply done.kept self.new) }
        ensures stop { IfOk result (λ done. IsTrue done.stop ↔ (command.now ≡ Exit)) }
        ensures err { OnErr result (self.new ≡ self.old) }
    {
        let (reply, kept) = self.respond(alloc, command, decider)?;
        let stop = matches!(command, Command::Exit);
        Ok(Done { reply, kept, stop })
    }

    /// What the last check was of, with what the state keeps. `None` where the mode isn't one after a check. It takes no memory.
    pub fn into_last_check(self, alloc: Global) -> Option<LastCheck>
        ensures some { IfSome result (λ c. IsOfLastCheck self c.stack c.assumptions) }
        ensures none { IfNone result (is_after_check self.mode ≡ false) }
    {
        let Session {
            mode,
            stack,
            above,
            ..
        } = self;
        if !is_after_check(&mode) {
            return None;
        }
        Some(LastCheck {
            stack: stack.into_stack(),
            assumptions: into_assumptions(alloc, above),
        })
    }

    /// Answers a command.
    #[tactic(auto, using(crate::proofs::Replies::answered_so, crate::proofs::Replies::checked_so))]
    fn respond<D: Decider>(
        &mut self,
        alloc: Global,
        command: &Command,
        decider: &mut D,
    ) -> Result<(Reply, Kept), AllocError>
        requires may { D.may decider.old }
        ensures still { D.may decider.new }
        ensures ok { IfOk result (λ answer. MayReply every_stack self.old command.now answer.0 answer.1 self.new) }
        ensures err { OnErr result (self.new ≡ self.old) }
    {
        match command {
            Command::CheckSat => self.check(alloc, decider),
            Command::CheckSatAssuming(terms) => {
                self.check_assuming(alloc, terms.as_slice(), decider)
            }
            Command::GetUnsatCore => self.get_unsat_core(alloc, decider),
            Command::GetUnsatAssumptions => self.get_unsat_assumptions(alloc, decider),
            Command::Minimize(term) => self.minimize(alloc, term, decider),
            _ => {
                let reply = self.answer(alloc, command)?;
                Ok((reply, Kept::Nothing))
            }
        }
    }

    /// Answers a command that is no check.
    #[tactic(auto, unfolding(smt_meaning::specs::State::effect))]
    fn answer(&mut self, alloc: Global, command: &Command) -> Result<Reply, AllocError>
        requires { IsFalse (is_check command.now) }
        ensures ok { IfOk result (λ r. Comes (effect self.old command.now) self.old r self.new) }
        ensures err { OnErr result (self.new ≡ self.old) }
    {
        match command {
            Command::SetLogic(name) => Ok(self.set_logic(name.as_slice())),
            Command::SetOption(setting) => Ok(self.set_option(*setting)),
            Command::GetOption(option) => self.get_option(alloc, *option),
            Command::SetInfo | Command::Exit => Ok(self.success()),
            Command::GetInfo(info) => Ok(self.get_info(*info)),
            Command::Echo(text) => Ok(Reply::Echo(Bytes::copy(alloc, text.as_slice())?)),
            Command::Reset => Ok(self.reset()),
            Command::ResetAssertions => Ok(self.reset_assertions()),
            Command::GetValue(terms) => self.get_value(alloc, terms.as_slice()),
            Command::GetModel => self.get_model(alloc),
            Command::GetAssertions => self.get_assertions(alloc),
            Command::GetAssignment => self.get_assignment(alloc),
            Command::LeftOut => Ok(Reply::Unsupported),
            Command::CheckSat
            | Command::CheckSatAssuming(_)
            | Command::GetUnsatCore
            | Command::GetUnsatAssumptions
            | Command::Minimize(_) => unreachable!(),
            _ => self.on_stack(alloc, command),
        }
    }

    /// `(get-value (term ..))`
    fn get_value(&mut self, alloc: Global, terms: &[SExpr]) -> Result<Reply, AllocError>
        ensures ok { IfOk result (λ r. Comes (get_value self.old terms.now (kept_model self.old.mode)) self.old r self.new) }
        ensures err { OnErr result (self.new ≡ self.old) }
    {
        let Mode::Sat(model) = &self.mode else {
            return Ok(Reply::Error(Error::NoModel));
        };
        if !self.options.produce_models {
            return Ok(Reply::Error(Error::OptionIsOff(OptionName::ProduceModels)));
        }
        values_of(alloc, model, &mut self.stack, terms)
    }

    /// `(get-model)`
    fn get_model(&self, alloc: Global) -> Result<Reply, AllocError>
        ensures { IfOk result (λ r. Comes (get_model self.now (kept_model self.now.mode)) self.now r self.now) }
    {
        let Mode::Sat(model) = &self.mode else {
            return Ok(Reply::Error(Error::NoModel));
        };
        if !self.options.produce_models {
            return Ok(Reply::Error(Error::OptionIsOff(OptionName::ProduceModels)));
        }
        let functions = printed_functions(alloc, &self.stack, model.as_slice())?;
        Ok(Reply::Model(functions))
    }

    /// `(get-assignment)`
    fn get_assignment(&self, alloc: Global) -> Result<Reply, AllocError>
        ensures { IfOk result (λ r. Comes (get_assignment self.now (kept_model self.now.mode)) self.now r self.now) }
    {
        let Mode::Sat(model) = &self.mode else {
            return Ok(Reply::Error(Error::NoModel));
        };
        if !self.options.produce_assignments {
            return Ok(Reply::Error(Error::OptionIsOff(OptionName::ProduceAssignments)));
        }
        match named_truths(alloc, model, self.stack.declarations()) {
            Ok(truths) => Ok(Reply::Assignment(truths)),
            Err(EvalError::Range(_)) => Ok(Reply::Error(Error::ValueTooLarge)),
            Err(EvalError::Memory) => Err(AllocError),
        }
    }

    /// `(get-assertions)`
    fn get_assertions(&mut self, alloc: Global) -> Result<Reply, AllocError>
        ensures ok { IfOk result (λ r. Comes (get_assertions self.old) self.old r self.new) }
        ensures err { OnErr result (self.new ≡ self.old) }
    {
        if !self.options.produce_assertions {
            return Ok(Reply::Error(Error::OptionIsOff(OptionName::ProduceAssertions)));
        }
        let texts = texts_of(alloc, self.stack.assertions())?;
        self.need_logic();
        Ok(Reply::Assertions(texts))
    }

    /// The reply to a command that is carried out.
    fn success(&self) -> Reply
        ensures { result ≡ success self.now }
    {
        if self.options.print_success {
            Reply::Success
        } else {
            Reply::Silent
        }
    }

    /// Sets the logic and the mode of assertions, where no logic is set.
    fn need_logic(&mut self)
        ensures { self.new ≡ with_logic self.old }
    {
        if self.logic.is_none() {
            self.logic = Some(Logic::QfUflia);
            self.mode = Mode::Assert;
        }
    }

    /// Enters a mode in which a logic is set, where this stood above the stack at the last check.
    fn enter(&mut self, mode: Mode, above: Above)
        requires above { AreAbove self.old.stack.trees above }
        requires refuted { WhereUnsat mode (IsRefuted self.old.stack above) }
        ensures { self.new ≡ record (with_logic self.old) { mode = mode; above = above_by self.old.stack.trees above } }
    {
        if self.logic.is_none() {
            self.logic = Some(Logic::QfUflia);
        }
        self.mode = mode;
        self.above = above;
    }

    /// Enters the mode of an answer under assumptions, and gives the reply and what is kept with it.
    fn conclude(&mut self, assumed: Assumed) -> (Reply, Kept)
        requires above { AreAbove self.old.stack.trees (Above.Assumed assumed.assumptions) }
        requires refuted { WhereUnsat assumed.answer.mode (IsRefuted self.old.stack (Above.Assumed assumed.assumptions)) }
        ensures state { self.new ≡ record (with_logic self.old) { mode = assumed.answer.mode; above = above_by self.old.stack.trees (Above.Assumed assumed.assumptions) } }
        ensures reply { result.0 ≡ assumed.answer.reply }
        ensures kept { result.1 ≡ assumed.answer.kept }
    {
        let Assumed {
            answer,
            assumptions,
        } = assumed;
        self.enter(answer.mode, Above::Assumed(assumptions));
        (answer.reply, answer.kept)
    }

    /// `(set-logic name)`
    fn set_logic(&mut self, name: &[u8]) -> Reply
        ensures { Comes (set_logic self.old name.now self.old.logic) self.old result self.new }
    {
        if self.logic.is_some() {
            return Reply::Error(Error::LogicAlreadySet);
        }
        let Some(logic) = Logic::named(name) else {
            return Reply::Unsupported;
        };
        self.logic = Some(logic);
        self.mode = Mode::Assert;
        self.above = Above::Nothing;
        self.success()
    }

    /// `(set-option :option value)`
    fn set_option(&mut self, setting: OptionSetting) -> Reply
        ensures { Comes (set_option_in self.old setting (start_option setting)) self.old result self.new }
    {
        if let Some(option) = start_option(setting) {
            if !is_start(&self.mode) {
                return Reply::Error(Error::OptionTooLate(option));
            }
        }
        if let OptionSetting::GlobalDeclarations(global) = setting {
            self.stack.set_global(global);
        }
        self.options = with_setting(self.options, setting);
        self.success()
    }

    /// `(get-option :option)`
    fn get_option(&self, alloc: Global, option: OptionName) -> Result<Reply, AllocError>
        ensures { IfOk result (λ r. r ≡ Reply.Option (option_value self.now.options self.now.stack.global option)) }
    {
        let global = self.stack.global();
        Ok(Reply::Option(option_value(alloc, &self.options, global, option)?))
    }

    /// `(get-info :keyword)`
    fn get_info(&self, info: InfoName) -> Reply
        ensures { Comes (get_info self.now info) self.now result self.now }
    {
        match info {
            InfoName::Name => Reply::Info(Info::Name),
            InfoName::Version => Reply::Info(Info::Version),
            InfoName::Authors => Reply::Info(Info::Authors),
            InfoName::ErrorBehavior => Reply::Info(Info::ErrorBehavior),
            InfoName::AssertionStackLevels => {
                Reply::Info(Info::AssertionStackLevels(u64::from(self.stack.depth())))
            }
            InfoName::ReasonUnknown => self.reason_unknown(),
        }
    }

    /// `(get-info :reason-unknown)`
    fn reason_unknown(&self) -> Reply
        ensures { Comes (reason_unknown self.now self.now.mode) self.now result self.now }
    {
        match self.mode {
            Mode::Unknown(reason) => Reply::Info(Info::ReasonUnknown(reason)),
            _ => Reply::Error(Error::NoUnknownAnswer),
        }
    }

    /// A command that the stack carries out or refuses.
    #[tactic(auto, using(crate::proofs::Stacks::on_done, crate::proofs::Stacks::on_left_out, crate::proofs::Stacks::on_refused, crate::proofs::Stacks::is_command))]
    fn on_stack(&mut self, alloc: Global, command: &Command) -> Result<Reply, AllocError>
        requires { IsTrue (is_carried command.now) }
        ensures ok { IfOk result (λ r. Comes (stack_effect self.old (word_of command.now) (stack_command command.now)) self.old r self.new) }
        ensures err { OnErr result (self.new ≡ self.old) }
    {
        match carry(alloc, command, &mut self.stack) {
            Ok(Carried::Done) => {
                self.mode = Mode::Assert;
                self.above = Above::Nothing;
                self.enter(Mode::Assert, Above::Nothing);
                Ok(self.success())
            }
            Ok(Carried::Unsupported) => Ok(Reply::Unsupported),
            Err(StackError::Refused(why)) => refused(alloc, word(command), why),
            Err(StackError::Memory) => Err(AllocError),
        }
    }

    /// `(reset)`
    #[tactic(auto, using(crate::proofs::Stacks::reset_is))]
    fn reset(&mut self) -> Reply
        ensures { Comes (stack_effect self.old (codes "reset") (stack_command Reset)) self.old result self.new }
    {
        self.stack.reset();
        self.above = Above::Nothing;
        self.logic = None;
        self.mode = Mode::Start;
        self.options = options_at_start(&self.settings);
        self.success()
    }

    /// `(reset-assertions)`
    #[tactic(auto, using(crate::proofs::Stacks::clear_in_start, crate::proofs::Stacks::clear_later))]
    fn reset_assertions(&mut self) -> Reply
        ensures { Comes (stack_effect self.old (codes "reset-assertions") (stack_command ResetAssertions)) self.old result self.new }
    {
        self.stack.reset_assertions();
        if !is_start(&self.mode) {
            self.mode = Mode::Assert;
            self.above = Above::Nothing;
        }
        self.success()
    }

    /// `(get-unsat-core)`
    #[tactic(auto, using(crate::proofs::Replies::core_not_unsat, crate::proofs::Replies::core_off))]
    fn get_unsat_core<D: Decider>(
        &mut self,
        alloc: Global,
        decider: &mut D,
    ) -> Result<(Reply, Kept), AllocError>
        requires may { D.may decider.old }
        ensures still { D.may decider.new }
        ensures ok { IfOk result (λ answer. MayCome every_stack self.old (get_unsat_core self.old) answer.0 answer.1 self.new) }
        ensures err { OnErr result (self.new ≡ self.old) }
    {
        if !is_unsat(&self.mode) {
            return Ok((Reply::Error(Error::NotUnsat), Kept::Nothing));
        }
        if !self.options.produce_unsat_cores {
            let off = Error::OptionIsOff(OptionName::ProduceUnsatCores);
            return Ok((Reply::Error(off), Kept::Nothing));
        }
        let places = named_places(alloc, self.stack.assertions())?;
        let held = self.core(alloc, &places, decider)?;
        let names = names_of(alloc, self.stack.assertions(), held.as_slice())?;
        Ok((Reply::UnsatCore(names), Kept::Core(held)))
    }

    /// `(get-unsat-assumptions)`
    #[tactic(auto, using(crate::proofs::Replies::core_not_unsat, crate::proofs::Replies::core_off))]
    fn get_unsat_assumptions<D: Decider>(
        &mut self,
        alloc: Global,
        decider: &mut D,
    ) -> Result<(Reply, Kept), AllocError>
        requires may { D.may decider.old }
        ensures still { D.may decider.new }
        ensures ok { IfOk result (λ answer. MayCome every_stack self.old (get_unsat_assumptions self.old) answer.0 answer.1 self.new) }
        ensures err { OnErr result (self.new ≡ self.old) }
    {
        if !is_unsat(&self.mode) {
            return Ok((Reply::Error(Error::NotUnsat), Kept::Nothing));
        }
        if !self.options.produce_unsat_assumptions {
            let off = Error::OptionIsOff(OptionName::ProduceUnsatAssumptions);
            return Ok((Reply::Error(off), Kept::Nothing));
        }
        let below = self.stack.assertions().len();
        let texts = texts_above(alloc, &self.above)?;
        let places = places_from(alloc, below, texts.len())?;
        let held = self.core(alloc, &places, decider)?;
        let texts = texts_held(alloc, texts.as_slice(), below, held.as_slice())?;
        Ok((Reply::UnsatAssumptions(texts), Kept::Core(held)))
    }

    /// The candidates at these places that are held in a core of the last check.
    fn core<D: Decider>(
        &mut self,
        alloc: Global,
        places: &[u64],
        decider: &mut D,
    ) -> Result<Seq<Held>, AllocError>
        requires may { D.may decider.old }
        requires mode { self.old.mode ≡ In.Unsat }
        requires candidates { AreCandidates 0 (length (assertions_of (checked_frames self.old))) places.now }
        ensures still { D.may decider.new }
        ensures stays { self.new ≡ self.old }
        ensures core { IfOk result (IsReduced self.old.settings.workers (checked_trees self.old) (checked_frames self.old) self.old.options.reproducible_resource_limit places.now) }
    {
        let settings = in_force(&self.settings, &self.options);
        core_of(
            alloc,
            decider,
            &settings,
            &mut self.stack,
            &self.above,
            places,
        )
    }

    /// `(check-sat)`
    fn check<D: Decider>(
        &mut self,
        alloc: Global,
        decider: &mut D,
    ) -> Result<(Reply, Kept), AllocError>
        requires may { D.may decider.old }
        ensures still { D.may decider.new }
        ensures ok { IfOk result (λ answer. MayCome every_stack self.old (checks self.old self.old.stack []) answer.0 answer.1 self.new) }
        ensures err { OnErr result (self.new ≡ self.old) }
    {
        let settings = in_force(&self.settings, &self.options);
        let answer = checked(alloc, decider, &settings, &mut self.stack)?;
        self.mode = Mode::Assert;
        self.above = Above::Nothing;
        self.enter(answer.mode, Above::Nothing);
        Ok((answer.reply, answer.kept))
    }

    /// `(check-sat-assuming (term ..))`
    fn check_assuming<D: Decider>(
        &mut self,
        alloc: Global,
        terms: &[SExpr],
        decider: &mut D,
    ) -> Result<(Reply, Kept), AllocError>
        requires may { D.may decider.old }
        ensures still { D.may decider.new }
        ensures ok { IfOk result (λ answer. MayCome every_stack self.old (check_assuming self.old (stack_command (CheckSatAssuming terms.now))) answer.0 answer.1 self.new) }
        ensures err { OnErr result (self.new ≡ self.old) }
    {
        let settings = in_force(&self.settings, &self.options);
        match check_under(alloc, decider, &settings, &mut self.stack, terms) {
            Ok(assumed) => {
                self.mode = Mode::Assert;
                self.above = Above::Nothing;
                Ok(self.conclude(assumed))
            }
            Err(StackError::Refused(why)) => {
                let reply = refused(alloc, b"check-sat-assuming", why)?;
                Ok((reply, Kept::Nothing))
            }
            Err(StackError::Memory) => Err(AllocError),
        }
    }

    /// `(minimize term)`
    fn minimize<D: Decider>(
        &mut self,
        alloc: Global,
        text: &Inner,
        decider: &mut D,
    ) -> Result<(Reply, Kept), AllocError>
        requires may { D.may decider.old }
        ensures still { D.may decider.new }
        ensures ok { IfOk result (λ answer. MayCome every_stack self.old (minimize self.old text.now (stack_command (Minimize text.now))) answer.0 answer.1 self.new) }
        ensures err { OnErr result (self.new ≡ self.old) }
    {
        let settings = in_force(&self.settings, &self.options);
        match minimize_under(alloc, decider, &settings, &mut self.stack, text) {
            Ok(assumed) => {
                self.mode = Mode::Assert;
                self.above = Above::Nothing;
                Ok(self.conclude(assumed))
            }
            Err(StackError::Refused(why)) => {
                let reply = refused(alloc, b"minimize", why)?;
                Ok((reply, Kept::Nothing))
            }
            Err(StackError::Memory) => Err(AllocError),
        }
    }
}

fn is_start(mode: &Mode) -> bool
    ensures { result ≡ is_start_mode mode.now }
{
    matches!(mode, Mode::Start)
}

fn is_unsat(mode: &Mode) -> bool
    ensures { result ≡ is_unsat_mode mode.now }
{
    matches!(mode, Mode::Unsat)
}

fn is_after_check(mode: &Mode) -> bool
    ensures { result ≡ is_mode_after_check mode.now }
{
    !matches!(mode, Mode::Start | Mode::Assert)
}
