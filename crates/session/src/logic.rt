//! The logics that may be set.
ghost use Rattle.std.specs.Prelude.{◌≡◌, true, false, MatchOption};
ghost use Rattle.smt_meaning.specs.Signature.{is_one_of};
ghost use Rattle.smt_meaning.specs.State.{logics};
ghost use Rattle.session.specs.Logics.{logic_name};

/// A logic (SMT-LIB 2.6, section 5.5). All are treated alike.
#[derive(Clone, Copy, PartialEq, Eq, Drop)]
pub enum Logic {
    QfUflia,
    QfUf,
    QfLia,
    QfIdl,
    QfUfidl,
    All,
}

impl Logic {
    /// The logic of this name.
    pub fn named(name: &[u8]) -> Option<Logic>
        ensures { MatchOption result (is_one_of name.now logics ≡ false) (λ l. (is_one_of name.now logics ≡ true) × (logic_name l ≡ name.now)) }
    {
        if name == b"QF_UFLIA".as_slice() {
            Some(Logic::QfUflia)
        } else if name == b"QF_UF".as_slice() {
            Some(Logic::QfUf)
        } else if name == b"QF_LIA".as_slice() {
            Some(Logic::QfLia)
        } else if name == b"QF_IDL".as_slice() {
            Some(Logic::QfIdl)
        } else if name == b"QF_UFIDL".as_slice() {
            Some(Logic::QfUfidl)
        } else if name == b"ALL".as_slice() {
            Some(Logic::All)
        } else {
            None
        }
    }
}
