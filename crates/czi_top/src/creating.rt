//! Creating an empty document, and saying so.

ghost use Rattle.std.specs.Prelude.{◌≡◌, ◌⊎◌, ◌≤◌, ℕ, List, ◌∷◌, None, length, take};
ghost use Rattle.std.specs.Option.{ForSome};
ghost use Rattle.czi_journal.specs.Journals.{slot_of};
ghost use Rattle.czi_links.specs.Reading.{Void};
ghost use Rattle.czi_report.specs.Refusals.{not_empty_text};
ghost use Rattle.czi_rig.specs.Faults.{Faults};
ghost use Rattle.czi_rig.specs.Moments.{LeavesSaying, Throughout, devices};
ghost use Rattle.czi_rig.specs.Passes.{GoesOn};
ghost use Rattle.czi_rig.specs.State.{SameFiles, seen_of};
ghost use Rattle.czi_session.specs.Course.{OnceDurable};
ghost use Rattle.czi_session.specs.Ends.{Answers, Quiet};
ghost use Rattle.czi_session.specs.Stops.{EndsAlone, end_device};
ghost use Rattle.czi_top.specs.Creates.{CreateEnds, CreatesSaying, wanted};
ghost use Rattle.czi_top.specs.Run.{Says};

use czi_engine::{CreateError, Engine};
use czi_report::push_not_empty;
use czi_rig::{Failed, File, Rig};
use czi_session::{Ended, Stop};
use std::alloc::{AllocError, Global};

/// What is said once the document is there.
const CREATED: &[u8] = b"created 704\n";

/// Says the last line of a run that ends so.
fn end_saying<R: Rig>(rig: &mut R, line: &[u8], ended: Ended) -> Ended
    requires faultless { end_device ended ≡ None }
    ensures said { ((result ≡ ended) × Says line.now (R.state rig.old) (R.state rig.new))
        ⊎ ((result ≡ Ended.Stopped Stop.Output) × (n : ℕ) × (n ≤ length line.now) × Says (take n line.now) (R.state rig.old) (R.state rig.new)) }
    ensures files { SameFiles (R.state rig.old) (R.state rig.new) }
    ensures moments { ForSome (devices (R.state rig.old)) (λ all. Throughout R.Rig rig.old rig.new (LeavesSaying all line.now)) }
    ensures goes_on { GoesOn (R.state rig.old) (R.state rig.new) }
    ensures cause { Faults (end_device result) (R.state rig.old) (R.state rig.new) }
{
    match rig.say(line) {
        Ok(()) => ended,
        Err(Failed) => Ended::Stopped(Stop::Output),
    }
}

/// Says that the image has so many bytes, and has to be empty.
fn refuse<R: Rig>(alloc: Global, rig: &mut R, found: u64) -> Ended
    ensures said { ((result ≡ Ended.Refused) × Says (not_empty_text found) (R.state rig.old) (R.state rig.new))
        ⊎ ((result ≡ Ended.Stopped Stop.Output) × (n : ℕ) × (n ≤ length (not_empty_text found)) × Says (take n (not_empty_text found)) (R.state rig.old) (R.state rig.new))
        ⊎ ((result ≡ Ended.Stopped Stop.Memory) × ((R.state rig.new).said ≡ (R.state rig.old).said)) }
    ensures files { SameFiles (R.state rig.old) (R.state rig.new) }
    ensures moments { ForSome (devices (R.state rig.old)) (λ all. Throughout R.Rig rig.old rig.new (LeavesSaying all (not_empty_text found))) }
    ensures goes_on { GoesOn (R.state rig.old) (R.state rig.new) }
    ensures cause { Faults (end_device result) (R.state rig.old) (R.state rig.new) }
{
    let mut line = Vec::new(alloc);
    match push_not_empty(found, &mut line) {
        Ok(()) => end_saying(rig, &line, Ended::Refused),
        Err(AllocError) => Ended::Stopped(Stop::Memory),
    }
}

/// Creates the empty document with a GUID, in its stored order, in an empty image, and says so.
pub(crate) fn create<R: Rig>(alloc: Global, rig: &mut R, guid: &[u8; 16]) -> Ended
    ensures ends { ForSome (devices (R.state rig.old)) (λ all. CreateEnds guid.now all (R.state rig.old) (R.state rig.new) result) }
    ensures moments { ForSome (devices (R.state rig.old)) (λ all. OnceDurable R.Rig rig.old rig.new (CreatesSaying guid.now all) (end_device result)) }
    ensures void { result ≡ Ended.Done → ForSome (seen_of (R.state rig.new) File.Journal) (λ journal. slot_of journal ≡ Void) }
    // It is made, or refused where the image isn't empty, unless a fault comes or memory is wanting.
    ensures answers { ForSome (devices (R.state rig.old)) (λ all. Quiet (R.state rig.old) (R.state rig.new) 0 0 → Answers (wanted all.image.seen) result) }
    ensures alone { EndsAlone result }
    ensures goes_on { GoesOn (R.state rig.old) (R.state rig.new) }
    ensures cause { Faults (end_device result) (R.state rig.old) (R.state rig.new) }
{
    match Engine::create(alloc, rig, guid) {
        Ok(_) => end_saying(rig, CREATED, Ended::Done),
        Err(CreateError::NotEmpty(length)) => refuse(alloc, rig, length),
        Err(CreateError::Memory) => Ended::Stopped(Stop::Memory),
        Err(CreateError::ImageDevice) => Ended::Stopped(Stop::Image),
        Err(CreateError::JournalDevice) => Ended::Stopped(Stop::Journal),
    }
}
