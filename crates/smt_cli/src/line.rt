//! The line that says on standard error why a run ended.
ghost use Rattle.std.specs.Prelude.{◌≡◌};
ghost use Rattle.smt_cli.specs.Program.{line_of};

use smt_top::Note;

/// The line on standard error that says why a run ended; none where the replies say all.
pub(crate) fn line(note: Note) -> &'static str
    ensures { result.now ≡ line_of note }
{
    match note {
        Note::Fine => "",
        Note::Words => {
            "usage: smt_cli [--workers 1..16] [--units U] [--share 0..64] [--seed K] [gen --seed K --size 1..2000]\n"
        }
        Note::ReadFault => "read failed\n",
        Note::WriteFault => "write failed\n",
        Note::NoMemory => "out of memory\n",
        Note::TooLong => "input too long\n",
    }
}
