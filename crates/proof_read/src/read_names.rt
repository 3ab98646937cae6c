//! The names of steps, atoms and operators.
ghost use Rattle.std.specs.Prelude.{◌≡◌};
ghost use Rattle.smt_meaning.specs.Signature.{look_up, operators};
ghost use Rattle.proof_read.specs.ReadNames.{step_names, later_step_names, last_step_names, later_operators, number_operators, atom_names};

use smt_meaning::Operator;

/// The rule of a step.
#[derive(Clone, Copy, Drop)]
pub(crate) enum StepName {
    Assert,
    Form,
    Pick,
    Euclid,
    Refl,
    Sym,
    Trans,
    Cong,
    Truth,
    Both,
    Neither,
    Link,
    Round,
    Farkas,
    Res,
}

/// The kind of an atom.
#[derive(Clone, Copy, Drop)]
pub(crate) enum AtomName {
    /// `t`
    Truth,
    /// `s`
    Same,
    /// `le`
    AtMost,
}

/// The rule of a name.
pub(crate) fn step_name(name: &[u8]) -> Option<StepName>
    ensures { result ≡ look_up name.now step_names }
{
    if name == b"assert".as_slice() {
        return Some(StepName::Assert);
    }
    if name == b"form".as_slice() {
        return Some(StepName::Form);
    }
    if name == b"pick".as_slice() {
        return Some(StepName::Pick);
    }
    if name == b"euclid".as_slice() {
        return Some(StepName::Euclid);
    }
    if name == b"refl".as_slice() {
        return Some(StepName::Refl);
    }
    later_step_name(name)
}

fn later_step_name(name: &[u8]) -> Option<StepName>
    ensures { result ≡ look_up name.now later_step_names }
{
    if name == b"sym".as_slice() {
        return Some(StepName::Sym);
    }
    if name == b"trans".as_slice() {
        return Some(StepName::Trans);
    }
    if name == b"cong".as_slice() {
        return Some(StepName::Cong);
    }
    if name == b"truth".as_slice() {
        return Some(StepName::Truth);
    }
    if name == b"both".as_slice() {
        return Some(StepName::Both);
    }
    last_step_name(name)
}

fn last_step_name(name: &[u8]) -> Option<StepName>
    ensures { result ≡ look_up name.now last_step_names }
{
    if name == b"none".as_slice() {
        return Some(StepName::Neither);
    }
    if name == b"link".as_slice() {
        return Some(StepName::Link);
    }
    if name == b"round".as_slice() {
        return Some(StepName::Round);
    }
    if name == b"farkas".as_slice() {
        return Some(StepName::Farkas);
    }
    if name == b"res".as_slice() {
        return Some(StepName::Res);
    }
    None
}

/// The kind of atom of a name.
pub(crate) fn atom_name(name: &[u8]) -> Option<AtomName>
    ensures { result ≡ look_up name.now atom_names }
{
    if name == b"t".as_slice() {
        return Some(AtomName::Truth);
    }
    if name == b"s".as_slice() {
        return Some(AtomName::Same);
    }
    if name == b"le".as_slice() {
        return Some(AtomName::AtMost);
    }
    None
}

/// The operator of a name.
pub(crate) fn operator_named(name: &[u8]) -> Option<Operator>
    ensures { result ≡ look_up name.now operators }
{
    if name == b"true".as_slice() {
        return Some(Operator::True);
    }
    if name == b"false".as_slice() {
        return Some(Operator::False);
    }
    if name == b"not".as_slice() {
        return Some(Operator::Not);
    }
    if name == b"and".as_slice() {
        return Some(Operator::And);
    }
    if name == b"or".as_slice() {
        return Some(Operator::Or);
    }
    later_operator(name)
}

fn later_operator(name: &[u8]) -> Option<Operator>
    ensures { result ≡ look_up name.now later_operators }
{
    if name == b"xor".as_slice() {
        return Some(Operator::Xor);
    }
    if name == b"=>".as_slice() {
        return Some(Operator::Implies);
    }
    if name == b"=".as_slice() {
        return Some(Operator::Equal);
    }
    if name == b"distinct".as_slice() {
        return Some(Operator::Distinct);
    }
    if name == b"ite".as_slice() {
        return Some(Operator::Ite);
    }
    number_operator(name)
}

fn number_operator(name: &[u8]) -> Option<Operator>
    ensures { result ≡ look_up name.now number_operators }
{
    if name == b"+".as_slice() {
        return Some(Operator::Add);
    }
    if name == b"-".as_slice() {
        return Some(Operator::Subtract);
    }
    if name == b"*".as_slice() {
        return Some(Operator::Multiply);
    }
    if name == b"<=".as_slice() {
        return Some(Operator::AtMost);
    }
    if name == b"<".as_slice() {
        return Some(Operator::Less);
    }
    if name == b">=".as_slice() {
        return Some(Operator::AtLeast);
    }
    if name == b">".as_slice() {
        return Some(Operator::Greater);
    }
    if name == b"div".as_slice() {
        return Some(Operator::Divide);
    }
    if name == b"mod".as_slice() {
        return Some(Operator::Modulo);
    }
    if name == b"abs".as_slice() {
        return Some(Operator::Absolute);
    }
    None
}
