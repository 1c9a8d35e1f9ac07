//! The replies to edits.

ghost use Rattle.std.specs.Prelude.{◌≡◌, ◌+◌, ◌≤◌, ◌++◌, Some, IfErr, OnOk, vec_len, vec_capacity};
ghost use Rattle.czi_machine.specs.Edit.{Refusal};
ghost use Rattle.czi_rig.specs.Faults.{fault_at};
ghost use Rattle.czi_session.specs.Stops.{editor_device};
ghost use Rattle.czi_engine.specs.Devices.{device_in, edit_device, edit_fault, refusal_in, refusal_of, undo_fault};
ghost use Rattle.czi_report.specs.Replies.{no_line};
ghost use Rattle.czi_editor.specs.Performs.{IsReplied};

use czi_engine::{EditError, UndoError};
use czi_report::{
    push_no_duplicate, push_no_full, push_no_key, push_no_long, push_no_many, push_no_nothing,
    push_ok,
};
use czi_session::EditorStop;
use std::alloc::AllocError;

/// More bytes than a reply to an edit has: a word, two numbers of at most 20 digits, and spaces.
const LONGEST_REPLY: usize = 64;

/// Takes memory for the reply to an edit. That is done first, so that an edit that was done is told.
pub(crate) fn take_room(reply: &mut Vec<u8>) -> Result<(), EditorStop>
    ensures kept { OnOk result (reply.new.items ≡ reply.old.items) }
    ensures room { OnOk result (vec_len reply.new + LONGEST_REPLY ≤ vec_capacity reply.new) }
    ensures stopped { IfErr result (λ stop. stop ≡ EditorStop.Memory) }
{
    match reply.reserve(LONGEST_REPLY) {
        Ok(()) => Ok(()),
        Err(AllocError) => Err(EditorStop::Memory),
    }
}

/// Appends the reply of an edit that was refused. A fault of a device and want of memory are no refusals: they stop the run.
pub(crate) fn push_no(error: &EditError, reply: &mut Vec<u8>) -> Result<(), EditorStop>
    ensures said { OnOk result ((refusal : Refusal) × (refusal_of error.now ≡ Some refusal) × (reply.new.items ≡ reply.old.items ++ no_line refusal)) }
    ensures device { fault_at editor_device result ≡ edit_device error.now }
{
    let pushed = match *error {
        EditError::TooLong { len, limit } => push_no_long(len, limit, reply),
        EditError::NoKey => push_no_key(reply),
        EditError::Duplicate(place) => push_no_duplicate(place, reply),
        EditError::TooMany(count) => push_no_many(count, reply),
        EditError::Full { need, length } => push_no_full(need, length, reply),
        EditError::Memory => return Err(EditorStop::Memory),
        EditError::ImageDevice => return Err(EditorStop::Image),
        EditError::JournalDevice => return Err(EditorStop::Journal),
    };
    match pushed {
        Ok(()) => Ok(()),
        Err(AllocError) => Err(EditorStop::Memory),
    }
}

/// Appends the reply of an undo that was refused. A fault of a device is no refusal: it stops the run.
pub(crate) fn push_not_undone(error: &UndoError, reply: &mut Vec<u8>) -> Result<(), EditorStop>
    ensures said { OnOk result ((refusal : Refusal) × (refusal_in (undo_fault error.now) ≡ Some refusal) × (reply.new.items ≡ reply.old.items ++ no_line refusal)) }
    ensures device { fault_at editor_device result ≡ device_in (undo_fault error.now) }
{
    let pushed = match *error {
        UndoError::Nothing => push_no_nothing(reply),
        UndoError::Full { need, length } => push_no_full(need, length, reply),
        UndoError::ImageDevice => return Err(EditorStop::Image),
        UndoError::JournalDevice => return Err(EditorStop::Journal),
    };
    match pushed {
        Ok(()) => Ok(()),
        Err(AllocError) => Err(EditorStop::Memory),
    }
}

/// Appends the reply to what an edit answered. Where it was accepted, the room that was taken suffices.
pub(crate) fn push_answer(
    answer: Result<u64, EditError>,
    reply: &mut Vec<u8>,
) -> Result<(), EditorStop>
    requires room { vec_len reply.old + LONGEST_REPLY ≤ vec_capacity reply.old }
    ensures { IsReplied edit_fault answer reply.old.items reply.new.items result }
{
    match answer {
        Ok(number) => match push_ok(number, reply) {
            Ok(()) => Ok(()),
            Err(AllocError) => unreachable!(),
        },
        Err(error) => push_no(&error, reply),
    }
}

/// Appends the reply to what an undo answered. Where it was accepted, the room that was taken suffices.
pub(crate) fn push_undone(
    answer: Result<u64, UndoError>,
    reply: &mut Vec<u8>,
) -> Result<(), EditorStop>
    requires room { vec_len reply.old + LONGEST_REPLY ≤ vec_capacity reply.old }
    ensures { IsReplied undo_fault answer reply.old.items reply.new.items result }
{
    match answer {
        Ok(count) => match push_ok(count, reply) {
            Ok(()) => Ok(()),
            Err(AllocError) => unreachable!(),
        },
        Err(error) => push_not_undone(&error, reply),
    }
}
