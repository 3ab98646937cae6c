//! Laws of the definitions of commands, replies and their texts, each as the contract of a function that does nothing.
ghost use Rattle.smt_laws.specs.LanguageLaws.{AssumptionsAreALevel, AssumptionsAreCommands, AssumptionsGo, ModeHolds, NumbersAreWritten, OneReply, RefusalChangesNothing, TextEndsInOneLine};

/// Where a command is no check, without assumptions or with, and no question for a least value or a core, exactly one reply may be given, and one state be left.
pub fn one_reply()
    ensures { OneReply }
{}

/// An error, and `unsupported`, leave the state as it was.
pub fn refusal_changes_nothing()
    ensures { RefusalChangesNothing }
{}

/// A reply is written as bytes that end in one line feed, but for a success that isn't printed, which has no bytes.
pub fn text_ends_in_one_line()
    ensures { TextEndsInOneLine }
{}

/// In every state that a journal comes to, a logic is set exactly outside the start mode, in which no level stands above 0, and a model that is kept makes every assertion of the stack true, and every assumption of the
/// last check.
pub fn mode_holds()
    ensures { ModeHolds }
{}

/// The numbers of a command that an s-expression is are at most 2^127 - 1, and none is below 0.
pub fn numbers_are_written()
    ensures { NumbersAreWritten }
{}

/// After a check under assumptions the stack has the levels that it had before, whatever was answered.
pub fn assumptions_go()
    ensures { AssumptionsGo }
{}

/// What a check under assumptions sees is the stack after a push and the assumptions as assertions.
pub fn assumptions_are_commands()
    ensures { AssumptionsAreCommands }
{}

/// The levels of such a check are what a push and the assertions of the assumptions make of the stack's; a pop gives these back.
pub fn assumptions_are_a_level()
    ensures { AssumptionsAreALevel }
{}
