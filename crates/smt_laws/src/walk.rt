//! Laws of judging a term in one pass over its tokens, each as the contract of a function that does nothing.
ghost use Rattle.smt_laws.specs.Again.{NotedOnce, PutLeaves, RootsNoteAll};
ghost use Rattle.smt_laws.specs.Form.{IsReadAs, Stays, annotation_reading, let_reading};
ghost use Rattle.smt_laws.specs.TermWalkLaws.{WalkGivesTheJudgement};
ghost use Rattle.smt_laws.specs.Todo.{StoredTreesStay, VisitsParts};
ghost use Rattle.smt_laws.specs.Walk.{check_annotation, check_let};
ghost use Rattle.smt_laws.specs.Uses.{FreeIsUsed, LeavesOut, NothingIsFree};

/// Reading the tokens of a term with a stack of frames gives what judging the term gives: the sort and the tree, or the one refusal.
pub fn walk_gives_the_judgement()
    ensures { WalkGivesTheJudgement }
{}

/// A term has a free variable exactly where one of its symbols stands for a variable that was bound before the term.
pub fn free_is_used()
    ensures { FreeIsUsed }
{}

/// A second use of a definition with the same arguments notes no tree, whatever was judged meanwhile.
pub fn definitions_are_noted_once()
    ensures { NotedOnce }
{}

/// A definition's tree without parameters is the same wherever it is put in.
pub fn closed_trees_stay()
    ensures { PutLeaves }
{}

/// Noting the roots of a definition's body with arguments put in notes all of the body, in order.
pub fn roots_note_all()
    ensures { RootsNoteAll }
{}

/// Whether a `let` has its form, and binds no name twice, is found in one pass over its tokens.
pub fn let_form_is_read()
    ensures { IsReadAs let_reading check_let }
{}

/// Once a `let` is read, or hasn't the form, later tokens change nothing.
pub fn let_form_stays()
    ensures { Stays let_reading }
{}

/// Whether an annotation has its form is found in one pass over its tokens.
pub fn annotation_form_is_read()
    ensures { IsReadAs annotation_reading check_annotation }
{}

/// Once an annotation is read, or hasn't the form, later tokens change nothing.
pub fn annotation_form_stays()
    ensures { Stays annotation_reading }
{}

/// Without variables nothing is free in a term.
pub fn nothing_is_free()
    ensures { NothingIsFree }
{}

/// A tree's parts join a list by visiting its arguments from left to right, and then the tree.
pub fn parts_are_visited()
    ensures { VisitsParts }
{}

/// A list that has the parts of each of its trees stays as it is where one of them is visited.
pub fn stored_trees_stay()
    ensures { StoredTreesStay }
{}

/// Of names without others those are left that are none of the others.
pub fn others_are_left_out()
    ensures { LeavesOut }
{}
