//! What holds of logs, as contracts of functions that do nothing.
ghost use Rattle.closure_log.specs.Laws.{StaysTold};

/// What was told stays told while more atoms get numbers.
pub fn what_was_told_stays()
    ensures { StaysTold }
{}
