//! When all decisions are taken back: after so many conflicts as Luby's sequence 1, 1, 2, 1, 1, 2,
//! 4, .. says, times a number that each worker has.

// Longer runs aren't asked for.
const LONGEST: u64 = 1 << 40;

#[derive(Drop)]
pub struct Restarts {
    // the run's number, from 1 on, and its factor
    run: u64,
    factor: u64,
    // the conflicts of the shortest run
    shortest: u64,
    left: u64,
}

impl Restarts {
    pub fn new(shortest: u64) -> Restarts {
        Restarts {
            run: 1,
            factor: 1,
            shortest,
            left: shortest,
        }
    }

    fn next_run(&mut self) {
        let twice = self.factor.saturating_mul(2);
        if twice == 0 || twice > LONGEST || self.run % twice == self.factor {
            self.run = self.run.saturating_add(1);
            self.factor = 1;
        } else {
            self.factor = twice;
        }
        self.left = self.factor.saturating_mul(self.shortest);
    }

    // After a conflict: whether a new run begins.
    pub fn is_due(&mut self) -> bool {
        if self.left > 1 {
            self.left -= 1;
            return false;
        }
        self.next_run();
        true
    }
}
