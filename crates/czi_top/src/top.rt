//! The top call of the program.

ghost use Rattle.std.specs.Prelude.{◌≡◌, ◌≢◌, ◌⊎◌, ℕ, List, None, map, string_bytes};
ghost use Rattle.std.specs.Option.{ForSome};
ghost use Rattle.czi_journal.specs.Journals.{slot_of};
ghost use Rattle.czi_links.specs.Reading.{Void};
ghost use Rattle.czi_rig.specs.State.{SameFiles, seen_of};
ghost use Rattle.czi_rig.specs.Faults.{Faults, FaultsWith};
ghost use Rattle.czi_rig.specs.Passes.{GoesOn};
ghost use Rattle.czi_rig.specs.Moments.{devices, Throughout, LeavesSaying};
ghost use Rattle.czi_script.specs.Script.{Command as Line, End};
ghost use Rattle.czi_script.specs.View.{command_of as line_of};
ghost use Rattle.czi_session.specs.Course.{AtEveryMoment, KeepsRefused, OnceAlike, OnceDurable, Opening};
ghost use Rattle.czi_session.specs.Ends.{Answers, Quiet, RefusedEnds, EndsRefused};
ghost use Rattle.czi_session.specs.Stops.{EndsOpening, IsFile, end_device};
ghost use Rattle.czi_session.specs.Text.{last_text};
ghost use Rattle.czi_editor.specs.Machine.{Begun, the_machine};
ghost use Rattle.czi_top.specs.Words.{AreWords, step};
ghost use Rattle.czi_top.specs.View.{action_view, query_view};
ghost use Rattle.czi_top.specs.Creates.{CreateEndsWith, CreatesSaying, wanted};
ghost use Rattle.czi_top.specs.Run.{Asks, EndsAt, EndsWell, EndsWith, IfAsked, IfCreates, IfOpens, IsAlone, Looks, LooksWith, MayBeUnopened, RefusedWith, SaysLine, SaysUsage, TakesByEnd, TakesByStatus, Unread, code_of, status_device, usage};

use crate::creating::create;
use crate::words::{Action, Command, Query, command_of};
use czi_editor::ImageEditor;
use czi_rig::{Failed, File, Rig, Source};
use czi_script::Command as Step;
use czi_session::{Ended, Stop, edit, one};
use std::alloc::{AllocError, Global};

const USAGE: &[u8] = b"usage: czi_tool FILE COMMAND [name=value ...]\n";

/// Says how the words of a command are written.
fn say_usage<R: Rig>(rig: &mut R) -> u8
    ensures said { SaysUsage (R.state rig.old) (R.state rig.new) result }
    ensures files { SameFiles (R.state rig.old) (R.state rig.new) }
    ensures moments { ForSome (devices (R.state rig.old)) (λ all. Throughout R.Rig rig.old rig.new (LeavesSaying all usage)) }
    ensures goes_on { GoesOn (R.state rig.old) (R.state rig.new) }
    ensures cause { Faults (status_device result) (R.state rig.old) (R.state rig.new) }
{
    match rig.say(USAGE) {
        Ok(()) => 1,
        Err(Failed) => 6,
    }
}

/// The query as a command of a script.
fn step_of(query: Query) -> Step
    ensures { line_of result ≡ step (query_view query) }
{
    match query {
        Query::List => Step::List,
        Query::Info => Step::Info,
        Query::Map => Step::Map,
        Query::Check => Step::Check,
        Query::Region(query) => Step::Region { query },
    }
}

/// Opens the image and does what is asked.
fn obey<R: Rig, S: Source>(alloc: Global, action: Action, rig: &mut R, input: &mut S) -> Ended
    ensures headline { (cs : List Line) (end : End) (said : List ℕ) (b : Begun) → Asks (action_view action) (S.input input.old).left cs end → Opening the_machine (R.state rig.old) said b →
        AtEveryMoment R.Rig rig.old rig.new the_machine b cs (last_text end) said (IsFile (end_device result)) (EndsOpening result) }
    ensures alike { (cs : List Line) (end : End) (said : List ℕ) (b : Begun) → Asks (action_view action) (S.input input.old).left cs end → Opening the_machine (R.state rig.old) said b →
        OnceAlike R.Rig rig.old rig.new the_machine (end_device result) }
    ensures ends { (said : List ℕ) (b : Begun) → Opening the_machine (R.state rig.old) said b → EndsAt (action_view action) (R.state rig.new) (S.input input.old).left (S.input input.new).left b said result }
    ensures void { result ≡ Ended.Done → ForSome (seen_of (R.state rig.new) File.Journal) (λ journal. slot_of journal ≡ Void) }
    ensures refused { result ≡ Ended.Refused → EndsRefused the_machine (R.state rig.old) (R.state rig.new) }
    ensures refusal { RefusedEnds the_machine (R.state rig.old) (R.state rig.new) result }
    ensures untaken { (text : List ℕ) → RefusedWith (R.state rig.old) text → input.new ≡ input.old }
    ensures kept { KeepsRefused R.Rig rig.old rig.new the_machine (end_device result) }
    ensures looks { (said : List ℕ) (b : Begun) → Opening the_machine (R.state rig.old) said b → Looks R.Rig rig.old rig.new (action_view action) said b result }
    ensures complete { (said : List ℕ) (b : Begun) → Opening the_machine (R.state rig.old) said b → EndsWell (action_view action) (S.input input.old).left →
        Quiet (R.state rig.old) (R.state rig.new) (S.input input.old).faults (S.input input.new).faults → Answers Ended.Done result }
    ensures refuses { (text : List ℕ) → RefusedWith (R.state rig.old) text → Quiet (R.state rig.old) (R.state rig.new) (S.input input.old).faults (S.input input.new).faults → Answers Ended.Refused result }
    ensures alone { IsAlone (action_view action) result }
    ensures takes { TakesByEnd (action_view action) (S.input input.old).left (S.input input.new).left result }
    ensures goes_on { GoesOn (R.state rig.old) (R.state rig.new) }
    ensures cause { FaultsWith (end_device result) (R.state rig.old) (R.state rig.new) (S.input input.old).faults (S.input input.new).faults }
{
    match action {
        Action::Query(query) => one::<ImageEditor, R>(alloc, rig, &step_of(query)),
        Action::Edit => edit::<ImageEditor, R, S>(alloc, rig, input),
    }
}

/// The exit status.
fn code_of(ended: Ended) -> u8
    ensures { result ≡ code_of ended }
{
    match ended {
        Ended::Done => 0,
        Ended::Refused => 2,
        Ended::Stopped(Stop::Script(_, _)) => 3,
        Ended::Stopped(Stop::Image) => 4,
        Ended::Stopped(Stop::Journal) => 5,
        Ended::Stopped(Stop::Output) => 6,
        Ended::Stopped(Stop::Input) => 7,
        Ended::Stopped(Stop::Memory) => 8,
        Ended::Stopped(Stop::TooLong) => 9,
    }
}

/// Does what the words ask for, and answers the exit status.
///
/// `FILE create guid=GUID` makes the empty document in an image that is missing or empty. `FILE list` says how many subblocks the
/// image has, and a line for each; `FILE info` says all that the image holds, and where it lies; `FILE map` says how long the
/// image is, where it is free, and which free space is held back; `FILE check` says how many segments are live, are free and
/// are unknown, and how many bytes lie behind them; `FILE region`, with the fields of that line of a script as one word each, says
/// the pixels of a region as a PNM file; `FILE edit` runs the script that the input gives. Each but `create` opens
/// the image beside its journal, with recovery, and seals the journal at the end. A command's whole reply is said before the next
/// command is read.
///
/// The statuses: 0 everything was done; 1 the words are no command, and the usage line is said; 2 the image is refused, and
/// the refusal is said; 3 the input isn't a script, and its fault is said; 4, 5, 6, 7 a fault of the image, the journal, the
/// output or the input; 8 want of memory; 9 the input goes on behind 2^40 bytes.
pub fn run<R: Rig, S: Source>(alloc: Global, words: &[String], rig: &mut R, input: &mut S) -> u8
    // Exactly where the words are no command the usage line is said, with status 1, unless the output fails or memory is wanting.
    ensures usage { AreWords (map (λ s. string_bytes s) words.now) None → Unread rig.old rig.new input.old input.new result ⊎ (SaysUsage (R.state rig.old) (R.state rig.new) result × SameFiles (R.state rig.old) (R.state rig.new)
        × ((S.input input.new).left ≡ (S.input input.old).left) × ForSome (devices (R.state rig.old)) (λ all. Throughout R.Rig rig.old rig.new (LeavesSaying all usage))) }
    ensures command { IfAsked (map (λ s. string_bytes s) words.now) (λ _. result ≢ 1) }

    // At every moment of `run`, whatever a crash then leaves on image and journal opens again to the state that some prefix of
    // the commands gives, the prefix holding every command whose reply had been said; what was said are those replies, a front
    // of the next text, and nothing else; and each item of that state that was there at the start has the bytes that it had then.
    // From the return of opening on, the image alone, read without its journal, waits for it or shows the document of that state, or of the one
    // before. (Until opening has made both files durable, a crash leaves nothing that it couldn't have left at the start. Only
    // where a file fails before, with 4 or 5, that is all. Where the files don't open, with 4, 5 or 8, what is left from then on
    // opens to the state at the start, with nothing said. Where memory is wanting for the words, with 8, nothing is done.)
    ensures headline { IfOpens (map (λ s. string_bytes s) words.now) (λ action. (cs : List Line) (end : End) (said : List ℕ) (b : Begun) →
        Asks action (S.input input.old).left cs end → Opening the_machine (R.state rig.old) said b →
        Unread rig.old rig.new input.old input.new result ⊎ AtEveryMoment R.Rig rig.old rig.new the_machine b cs (last_text end) said (IsFile (status_device result)) (MayBeUnopened result)) }
    // Any two pairs that a crash at one moment leaves have the same bytes in each item that both need, those that the run brings
    // included: so it is of any two of one span of time, and from the moment at which the files are durable on the run falls into
    // spans that begin and end between two calls on the device.
    ensures alike { IfOpens (map (λ s. string_bytes s) words.now) (λ action. (cs : List Line) (end : End) (said : List ℕ) (b : Begun) →
        Asks action (S.input input.old).left cs end → Opening the_machine (R.state rig.old) said b → Unread rig.old rig.new input.old input.new result ⊎ OnceAlike R.Rig rig.old rig.new the_machine (status_device result)) }
    // What stands and was said at the end, by status. The journal is sealed at 0 alone. At 3, 6, 7, 8 and 9 one that counted at
    // the start, or was armed by an edit, still counts, and any other says what it said; so it is where the files didn't open. At
    // 5 from the sealing it says what it said, or is void. At 0, 3, 6, 7, 9, and 8 once the files were opened, whatever a crash
    // then leaves stands for the image as it is read.
    ensures ends { IfOpens (map (λ s. string_bytes s) words.now) (λ action.
        Unread rig.old rig.new input.old input.new result ⊎ EndsWith action (R.state rig.old) (R.state rig.new) (S.input input.old).left (S.input input.new).left result) }
    ensures void { result ≡ 0 → ForSome (seen_of (R.state rig.new) File.Journal) (λ journal. slot_of journal ≡ Void) }
    ensures takes { IfAsked (map (λ s. string_bytes s) words.now) (λ command. TakesByStatus command (S.input input.old).left (S.input input.new).left result) }

    // A refusal is told exactly where there is one, but for a fault or want of memory. Both files are then as they were, but that
    // the image may be the recovered one.
    ensures refused { IfOpens (map (λ s. string_bytes s) words.now) (λ _. result ≡ 2 → EndsRefused the_machine (R.state rig.old) (R.state rig.new)) }
    ensures refuses { IfOpens (map (λ s. string_bytes s) words.now) (λ _. (text : List ℕ) → RefusedWith (R.state rig.old) text →
        Quiet (R.state rig.old) (R.state rig.new) (S.input input.old).faults (S.input input.new).faults → (result ≡ 2) ⊎ (result ≡ 8)) }
    // Files that are refused: the line that says why is said whole, with 2; a front of it, where the output fails, with 6; and
    // nothing, with 4, 5 or 8. Nothing is taken of the input.
    ensures refusal { IfOpens (map (λ s. string_bytes s) words.now) (λ _. (text : List ℕ) → RefusedWith (R.state rig.old) text →
        SaysLine text (R.state rig.old) (R.state rig.new) result × (input.new ≡ input.old)) }
    // They are kept: until they are durable nothing new is left, and from then on what stands for the same, with a front of that
    // line said at most.
    ensures kept { IfOpens (map (λ s. string_bytes s) words.now) (λ _. Unread rig.old rig.new input.old input.new result ⊎ KeepsRefused R.Rig rig.old rig.new the_machine (status_device result)) }
    // Where the files open, the script ends well and no fault comes, all is done, or memory is wanting.
    ensures complete { IfOpens (map (λ s. string_bytes s) words.now) (λ action. (said : List ℕ) (b : Begun) → Opening the_machine (R.state rig.old) said b →
        EndsWell action (S.input input.old).left → Quiet (R.state rig.old) (R.state rig.new) (S.input input.old).faults (S.input input.new).faults → (result ≡ 0) ⊎ (result ≡ 8)) }
    // A query leaves both files alone from the opening to the reply.
    ensures looks { IfOpens (map (λ s. string_bytes s) words.now) (λ action. (said : List ℕ) (b : Begun) → Opening the_machine (R.state rig.old) said b →
        Unread rig.old rig.new input.old input.new result ⊎ LooksWith R.Rig rig.old rig.new action said b result) }

    // At every moment of a creation, whatever a crash leaves is refused, as no CZI file or for the journal from before, or opens to
    // the empty document with that GUID; and once anything was said it opens to it. An image that isn't empty is as it was, and so is
    // its journal. (Until both files are durable a crash leaves nothing that it couldn't have left at the start.)
    ensures creates { IfCreates (map (λ s. string_bytes s) words.now) (λ guid. ForSome (devices (R.state rig.old)) (λ all.
        Unread rig.old rig.new input.old input.new result ⊎ OnceDurable R.Rig rig.old rig.new (CreatesSaying guid all) (status_device result))) }
    // How it ends, what stands then, and what was said.
    ensures created { IfCreates (map (λ s. string_bytes s) words.now) (λ guid. ForSome (devices (R.state rig.old)) (λ all.
        Unread rig.old rig.new input.old input.new result ⊎ CreateEndsWith guid all (R.state rig.old) (R.state rig.new) result)) }
    // The document is made exactly where the image is empty, unless a fault comes or memory is wanting.
    ensures makes { IfCreates (map (λ s. string_bytes s) words.now) (λ guid. ForSome (devices (R.state rig.old)) (λ all.
        Quiet (R.state rig.old) (R.state rig.new) (S.input input.old).faults (S.input input.new).faults → (result ≡ code_of (wanted all.image.seen)) ⊎ (result ≡ 8))) }

    // The run ends at the first fault: with 4, 5, 6 or 7 the count of faults of that device alone has risen, and else none.
    ensures cause { FaultsWith (status_device result) (R.state rig.old) (R.state rig.new) (S.input input.old).faults (S.input input.new).faults }
    ensures goes_on { GoesOn (R.state rig.old) (R.state rig.new) }
{
    match command_of(alloc, words) {
        Ok(Some(Command::Open(action))) => code_of(obey(alloc, action, rig, input)),
        Ok(Some(Command::Create(guid))) => code_of(create(alloc, rig, &guid)),
        Ok(None) => say_usage(rig),
        Err(AllocError) => 8,
    }
}
