//! The engine: an image beside its journal, opened, edited where it lies, and closed. With it what an engine stands on: a
//! state of the machine of edits in an image beside its journal, and the laws of one commit.
#![tactic(auto)]

ghost use Rattle.czi_engine.specs.Laws.{DocumentOpens, ItselfRests, RestsStands, HeldStays, AloneShows, WrittenHasBytes, CommitLeaves100, HolesAreHigh, StandsOutside, RecoveredOpens, ViewOpens, OpenedStands, MadeWrote, CommitStands, CommitOpens, FreeInView, FilledInView, PlaceInView, CommitTouches};

mod accepting;
mod attachments;
mod carrying;
mod creating;
mod editing;
mod engine;
mod error;
mod limits;
mod metadata;
mod opening;
mod planning;
mod preparing;
mod reserve;
mod subblocks;
mod taking_back;
mod undoing;

pub use creating::CreateError;
pub use czi_opening::{ImageRefusal, OpenError};
pub use engine::Engine;
pub use error::{EditError, UndoError};

/// What stands for the bytes of a state, outside the holes of the state, opens as the state.
pub fn views_open()
    ensures high { HolesAreHigh }
    ensures outside { StandsOutside }
    ensures recovered { RecoveredOpens }
    ensures opens { ViewOpens }
    ensures document { DocumentOpens }
    ensures itself { ItselfRests }
    ensures rests { RestsStands }
    ensures held { HeldStays }
{}

/// An image that shows a document, with no update pending, stands on the state of its layout.
pub fn opened_stands()
    ensures { OpenedStands }
{}

/// What writes and a commit make of bytes: they have the bytes of the pieces.
pub fn commit_makes()
    ensures { MadeWrote }
{}

/// One commit of any planned command: while it runs, everything that a crash may leave opens as the
/// state before the command or as the one after it, and then the bytes stand on that one.
pub fn one_commit()
    ensures stands { CommitStands }
    ensures opens { CommitOpens }
{}

/// What is written before a commit goes where nothing needs the bytes of the view: into free space, or
/// past the end.
pub fn writes_are_free()
    ensures writes { FreeInView }
    ensures filled { FilledInView }
    ensures place { PlaceInView }
{}

/// Any two pairs that a crash may leave at one moment of a command stand for the same bytes in each
/// item extent that both have, header and padding included: no write touches it.
pub fn no_write_touches()
    ensures { CommitTouches }
{}

/// Read without the journal, an image that a crash leaves shows a document of one side, or it says
/// that it waits for the journal.
pub fn images_alone()
    ensures shows { AloneShows }
    ensures written { WrittenHasBytes }
    ensures commit { CommitLeaves100 }
{}
