//! The steps of a run.

ghost use Rattle.std.specs.Prelude.{◌≡◌, ◌⊎◌, ◌++◌, Err, List, ℕ, Option, MatchResult, IfOk, IfErr, OnOk};
ghost use Rattle.std.specs.Option.{ForSome};
ghost use Rattle.czi_rig.specs.State.{SameFiles, seen_of};
ghost use Rattle.czi_rig.specs.Faults.{Faults, fault_at};
ghost use Rattle.czi_rig.specs.Passes.{GoesOn};
ghost use Rattle.czi_rig.specs.Moments.{Throughout, Devices, LeavesSaying, devices, FromSomeMoment};
ghost use Rattle.czi_rig.specs.Spans.{EachTwo, InSpans};
ghost use Rattle.czi_script.specs.View.{command_of};
ghost use Rattle.czi_session.specs.Course.{IsUnrefused, KeepsRefused, OnceAlike, OnceDurable, OnlySays, Open, Opening, Sealed, Sealing, Stands, Unsealed, WhileSaid, WithinStep};
ghost use Rattle.czi_session.specs.Stops.{EndsOpening, EndsUnopened, IsFile, StopsAlone, end_device, stop_device};
ghost use Rattle.czi_session.specs.Ends.{MayBeSealed, SaysRefusal, OpeningEnds, RefusedEnds, EndsRefused, StepStops, TextStops};
ghost use Rattle.czi_session.specs.Text.{fault_line};

use crate::pieces::say_reply;
use crate::stop::stop_of;
use crate::text::fault_text;
use crate::{Editor, Ended, OpenStop, Stop};
use czi_rig::{File, Rig};
use czi_script::{Command, Kind};
use std::alloc::Global;

/// Says why a pair is refused.
fn say_refusal<R: Rig>(rig: &mut R, text: &[u8]) -> Ended
    ensures said { (said : List ℕ) → (R.state rig.old).said ≡ Option.Some said → SaysRefusal (R.state rig.new).said said text.now result }
    ensures moments { ForSome (devices (R.state rig.old)) (λ all. Throughout R.Rig rig.old rig.new (LeavesSaying all text.now)) }
    ensures files { SameFiles (R.state rig.old) (R.state rig.new) }
    ensures unopened { EndsUnopened result }
    ensures goes_on { GoesOn (R.state rig.old) (R.state rig.new) }
    ensures cause { Faults (end_device result) (R.state rig.old) (R.state rig.new) }
{
    match rig.say(text) {
        Ok(()) => Ended::Refused,
        Err(_) => Ended::Stopped(Stop::Output),
    }
}

/// Opens the files. Says why where they are refused.
pub(crate) fn opened<E: Editor, R: Rig>(alloc: Global, rig: &mut R) -> Result<E, Ended>
    ensures opens { (said : List ℕ) (s : E.model.Document) → Opening E.model (R.state rig.old) said s → MatchResult result
        (λ editor. FromSomeMoment R.Rig rig.old rig.new (Open E.model s said) × Stands E.model (E.stands editor) (R.state rig.new) said s)
        (λ ended. OpeningEnds E.model (R.state rig.new) s said ended × EndsOpening ended × OnceDurable R.Rig rig.old rig.new (Open E.model s said) (end_device ended)) }
    ensures alike { (said : List ℕ) (s : E.model.Document) → Opening E.model (R.state rig.old) said s → OnceAlike R.Rig rig.old rig.new E.model (fault_at end_device result) }
    ensures ready { IfOk result (λ editor. E.ready editor (R.state rig.new)) }
    ensures unrefused { OnOk result (IsUnrefused E.model (R.state rig.old)) }
    ensures refused { IfErr result (λ ended. ended ≡ Ended.Refused → EndsRefused E.model (R.state rig.old) (R.state rig.new)) }
    ensures kept { IfErr result (λ ended. KeepsRefused R.Rig rig.old rig.new E.model (end_device ended)) }
    ensures refusal { IfErr result (RefusedEnds E.model (R.state rig.old) (R.state rig.new)) }
    ensures unopened { IfErr result EndsUnopened }
    ensures goes_on { GoesOn (R.state rig.old) (R.state rig.new) }
    ensures cause { Faults (fault_at end_device result) (R.state rig.old) (R.state rig.new) }
{
    match E::open(alloc, rig) {
        Ok(editor) => Ok(editor),
        Err(OpenStop::Refused(text)) => Err(say_refusal(rig, &text)),
        Err(OpenStop::Stopped(stop)) => Err(Ended::Stopped(stop_of(stop))),
    }
}

/// Does a command and says its whole reply.
pub(crate) fn step<E: Editor, R: Rig>(
    editor: &mut E,
    rig: &mut R,
    command: &Command,
) -> Result<(), Stop>
    requires ready { E.ready editor.old (R.state rig.old) }
    ensures moments { (said : List ℕ) (s : E.model.Document) → Stands E.model (E.stands editor.old) (R.state rig.old) said s →
        Throughout R.Rig rig.old rig.new (WithinStep E.model s (command_of command.now) said) }
    ensures alike { (said : List ℕ) (s : E.model.Document) → Stands E.model (E.stands editor.old) (R.state rig.old) said s → InSpans R.Rig rig.old rig.new E.model.alike }
    ensures ok { OnOk result ((said : List ℕ) (s : E.model.Document) → Stands E.model (E.stands editor.old) (R.state rig.old) said s →
        Stands E.model (E.stands editor.new) (R.state rig.new) (said ++ E.model.reply s (command_of command.now)) (E.model.after s (command_of command.now))) }
    ensures ready { OnOk result (E.ready editor.new (R.state rig.new)) }
    ensures stops { IfErr result (λ stop. (said : List ℕ) (s : E.model.Document) → Stands E.model (E.stands editor.old) (R.state rig.old) said s →
        StepStops E.model (Unsealed E.model) (R.state rig.new) s (command_of command.now) said stop) }
    // A command that changes nothing leaves both files alone, and stops for no fault of them, unless it looks into the image.
    ensures still { (said : List ℕ) (s : E.model.Document) → Stands E.model (E.stands editor.old) (R.state rig.old) said s → E.model.still s (command_of command.now) →
        OnlySays R.Rig rig.old rig.new (E.model.reply s (command_of command.now)) × (IsFile (fault_at stop_device result) → (result ≡ Err Stop.Image) × E.model.looks s (command_of command.now)) }
    ensures alone { IfErr result StopsAlone }
    ensures goes_on { GoesOn (R.state rig.old) (R.state rig.new) }
    ensures cause { Faults (fault_at stop_device result) (R.state rig.old) (R.state rig.new) }
{
    match editor.perform(rig, command) {
        Ok(()) => say_reply(editor, rig),
        Err(stop) => Err(stop_of(stop)),
    }
}

/// Seals the journal. Where that fails, it says what it said or is void.
pub(crate) fn sealed<E: Editor, R: Rig>(editor: E, rig: &mut R) -> Result<(), Stop>
    requires ready { E.ready editor (R.state rig.old) }
    ensures moments { (said : List ℕ) (s : E.model.Document) → Stands E.model (E.stands editor) (R.state rig.old) said s → Throughout R.Rig rig.old rig.new (Sealing E.model s said) }
    ensures alike { (said : List ℕ) (s : E.model.Document) → Stands E.model (E.stands editor) (R.state rig.old) said s → EachTwo R.Rig rig.old rig.new E.model.alike }
    ensures ok { OnOk result ((said : List ℕ) (s : E.model.Document) → Stands E.model (E.stands editor) (R.state rig.old) said s → Stands E.model (Sealed E.model) (R.state rig.new) said s) }
    ensures stopped { (said : List ℕ) (s : E.model.Document) → Stands E.model (E.stands editor) (R.state rig.old) said s → MayBeSealed E.model (R.state rig.new) s }
    ensures void { OnOk result (ForSome (seen_of (R.state rig.new) File.Journal) E.model.void) }
    ensures said { (R.state rig.new).said ≡ (R.state rig.old).said }
    ensures only { IfErr result (λ stop. stop ≡ Stop.Journal) }
    ensures goes_on { GoesOn (R.state rig.old) (R.state rig.new) }
    ensures cause { Faults (fault_at stop_device result) (R.state rig.old) (R.state rig.new) }
{
    match editor.seal(rig) {
        Ok(()) => Ok(()),
        Err(_) => Err(Stop::Journal),
    }
}

/// Says that a command of the script is none.
pub(crate) fn say_fault<E: Editor, R: Rig>(
    alloc: Global,
    rig: &mut R,
    number: u64,
    kind: Kind,
) -> Stop
    ensures moments { (said : List ℕ) (s : E.model.Document) → Stands E.model (Unsealed E.model) (R.state rig.old) said s → Throughout R.Rig rig.old rig.new (WhileSaid E.model s said (fault_line number kind)) }
    ensures alike { (said : List ℕ) (s : E.model.Document) → Stands E.model (Unsealed E.model) (R.state rig.old) said s → EachTwo R.Rig rig.old rig.new E.model.alike }
    ensures stops { (said : List ℕ) (s : E.model.Document) → Stands E.model (Unsealed E.model) (R.state rig.old) said s → TextStops E.model (Unsealed E.model) (R.state rig.new) s number kind said result }
    ensures only { (result ≡ Stop.Script number kind) ⊎ (result ≡ Stop.Output) ⊎ (result ≡ Stop.Memory) }
    ensures goes_on { GoesOn (R.state rig.old) (R.state rig.new) }
    ensures cause { Faults (stop_device result) (R.state rig.old) (R.state rig.new) }
{
    match fault_text(alloc, number, kind) {
        Ok(text) => match rig.say(&text) {
            Ok(()) => Stop::Script(number, kind),
            Err(_) => Stop::Output,
        },
        Err(_) => Stop::Memory,
    }
}
