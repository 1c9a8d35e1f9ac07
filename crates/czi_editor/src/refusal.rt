//! Why a session stops where an image isn't opened.

ghost use Rattle.std.specs.Prelude.{◌≡◌, None, Some};
ghost use Rattle.czi_opening.specs.Answers.{cause_of};
ghost use Rattle.czi_opening.specs.Devices.{open_device};
ghost use Rattle.czi_opening.specs.Opens.{Cause};
ghost use Rattle.czi_session.specs.Stops as session;
ghost use Rattle.czi_editor.specs.Answers.{Tells};

use czi_engine::OpenError;
use czi_report::push_cause;
use czi_session::{EditorStop, OpenStop};
use std::alloc::{AllocError, Global};

/// The refusal of a cause.
fn refused(alloc: Global, error: &OpenError) -> OpenStop
    ensures told { (cause : Cause) → cause_of error.now ≡ Some cause → Tells error.now result }
    ensures device { session.open_device result ≡ None }
{
    let mut text = Vec::new(alloc);
    match push_cause(error, &mut text) {
        Ok(()) => OpenStop::Refused(text),
        Err(AllocError) => OpenStop::Stopped(EditorStop::Memory),
    }
}

/// What an opening's error is to a session.
pub(crate) fn stop_of(alloc: Global, error: &OpenError) -> OpenStop
    ensures told { Tells error.now result }
    ensures device { session.open_device result ≡ open_device error.now }
{
    match *error {
        OpenError::JournalVersion(_)
        | OpenError::BadJournal(_)
        | OpenError::ImageShort { .. }
        | OpenError::ForeignJournal { .. }
        | OpenError::Refused(_) => refused(alloc, error),
        OpenError::ImageDevice => OpenStop::Stopped(EditorStop::Image),
        OpenError::JournalDevice => OpenStop::Stopped(EditorStop::Journal),
        OpenError::Memory => OpenStop::Stopped(EditorStop::Memory),
    }
}
