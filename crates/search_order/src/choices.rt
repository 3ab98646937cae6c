//! What sets the workers of a race apart: which atoms they decide first and with which sign, how
//! often they take all decisions back, and what they forget. They differ, since each then finds
//! clauses that help the others (ManySAT, Hamadi, Jabbour and Sais).

/// The atoms that are decided first, before any conflict.
#[derive(Clone, Copy)]
pub enum First {
    /// Those of low numbers.
    Low,
    /// Those of high numbers.
    Late,
    /// As they are drawn.
    Drawn,
}

/// The sign that is tried first.
#[derive(Clone, Copy)]
pub enum Sign {
    Negative,
    Positive,
    Drawn,
}

/// The choices of one worker.
#[derive(Clone, Copy)]
pub struct Choices {
    pub first: First,
    pub sign: Sign,
    /// Whether an atom that is decided again has the sign that it had last.
    pub saves_signs: bool,
    /// The conflicts of the shortest run before all decisions are taken back.
    pub luby: u64,
    /// Whether atoms of clauses beside a conflict are raised as those in it are.
    pub raises_reasons: bool,
    /// Whether learnt clauses that aren't used are forgotten.
    pub forgets: bool,
}

// Atoms of higher numbers begin alike where the late ones come first: one conflict counts for more.
const HIGHEST: u32 = (1 << 20) - 1;

// The choices of worker 0.
const FIRST: Choices = Choices {
    first: First::Low,
    sign: Sign::Negative,
    saves_signs: true,
    luby: 100,
    raises_reasons: true,
    forgets: false,
};

// The choices of the eight workers of the table, over and over.
fn of_eight(worker: u8) -> Choices {
    let mut choices = FIRST;
    match worker % 8 {
        1 => {
            choices.first = First::Drawn;
            choices.sign = Sign::Drawn;
            choices.forgets = true;
        }
        2 => choices.first = First::Late,
        3 => choices.sign = Sign::Positive,
        4 => {
            choices.first = First::Drawn;
            choices.sign = Sign::Drawn;
            choices.luby = 32;
            choices.forgets = true;
        }
        5 => choices.forgets = true,
        6 => {
            choices.saves_signs = false;
            choices.forgets = true;
        }
        7 => choices.raises_reasons = false,
        _ => {}
    }
    choices
}

impl Choices {
    /// Of the worker of this number. From worker 8 on they are those of the eight before, with drawn first scores and forgetting.
    pub fn of(worker: u8) -> Choices {
        let mut choices = of_eight(worker);
        if worker >= 8 {
            choices.first = First::Drawn;
            choices.forgets = true;
        }
        choices
    }

    // Whether the first score or sign of an atom is drawn.
    pub fn draws(&self) -> bool {
        match (self.first, self.sign) {
            (First::Drawn, _) | (_, Sign::Drawn) => true,
            _ => false,
        }
    }

    // The score with which an atom begins, for which this word was drawn.
    pub fn first_score(&self, atom: u32, word: u32) -> u64 {
        match self.first {
            First::Low => 0,
            First::Late => u64::from(atom.min(HIGHEST)),
            First::Drawn => u64::from(word >> 16),
        }
    }

    // Whether an atom begins with the positive sign, for which this word was drawn.
    pub fn first_sign(&self, word: u32) -> bool {
        match self.sign {
            Sign::Negative => false,
            Sign::Positive => true,
            Sign::Drawn => word & 1 == 1,
        }
    }
}
