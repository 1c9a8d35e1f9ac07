//! The former documents that an undo list gives over an image are those of the machine's state.

ghost use Rattle.czi_undo.specs.Bounds.{KeptAreWithin};
ghost use Rattle.czi_undo.specs.Laws.{EditsLieBefore, FormersFound, FormersKept, LastUndone, OutUndone, PutUndone, UndosLieBefore};
ghost use Rattle.czi_undo.specs.Holding.{HoldsUsable};
ghost use Rattle.czi_undo.specs.Stands.{SinglesTold};

/// What is told for the inverses that bring a state's former documents back gives these over the image, whether it is
/// steady or not, and over each image that agrees with it outside the holes.
pub fn formers_found()
    ensures found { FormersFound }
    ensures kept { FormersKept }
{}

/// After each edit its inverse, and those that are kept, bring the new state's former documents back; after each undo
/// the others do.
pub fn steps_lie()
    ensures edits { EditsLieBefore }
    ensures undos { UndosLieBefore }
{}

/// What undoes an edit of a list is one inverse.
pub fn changes_undone<X, Y>()
    ensures last { LastUndone X Y }
    ensures put { PutUndone X Y }
    ensures out { OutUndone X Y }
{}

/// Of the former documents behind a new one those are kept whose inverses pass no bound with the new one.
pub fn bounds()
    ensures { KeptAreWithin }
{}

/// A list of inverses of single edits tells what these tell.
pub fn singles_told()
    ensures { SinglesTold }
{}

/// A single inverse holds back what it brings, as far as that can be used again.
pub fn singles_hold()
    ensures { HoldsUsable }
{}
