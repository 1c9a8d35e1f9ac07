//! A run over a script, and one command alone.

ghost use Rattle.std.specs.Prelude.{◌≡◌, ◌⊎◌, ◌++◌, ◌∷◌, ◌≤◌, ◌^◌, List, ℕ, [], Err, Option, MatchResult, IfErr, OnOk, length};
ghost use Rattle.std.specs.Option.{ForSome};
ghost use Rattle.czi_rig.specs.State.{seen_of};
ghost use Rattle.czi_rig.specs.Faults.{Faults, FaultsWith, fault_at};
ghost use Rattle.czi_rig.specs.Passes.{GoesOn};
ghost use Rattle.czi_rig.specs.Moments.{Devices, Throughout, devices};
ghost use Rattle.czi_rig.specs.Spans.{InSpans};
ghost use Rattle.czi_script.specs.Script.{Command as Cmd, End};
ghost use Rattle.czi_script.specs.View.{command_of};
ghost use Rattle.czi_session.specs.Course.{AtEveryMoment, Begins, IsUnrefused, KeepsRefused, OnceAlike, OnceDurable, OnlyReads, Opening, OpensToPrefix, ReadsToPrefix, RepliesOnly, Sealed, Stands, Starts, Unsealed};
ghost use Rattle.czi_session.specs.Text.{last_text};
ghost use Rattle.czi_session.specs.Stops.{EndsAlone, EndsOpening, EndsUnopened, IsFile, StopsAlone, end_device, stop_device};
ghost use Rattle.czi_session.specs.Ends.{Answers, EndsOpened, OneEnds, OneStops, OpeningEnds, Quiet, RefusedEnds, EndsRefused, RunStops, TakesAtMost, Whole, most_of, most_taken};

use crate::commands::commands;
use crate::steps::{opened, say_fault, sealed, step};
use crate::{Editor, Ended, Stop};
use czi_rig::{File, Rig, Source};
use czi_script::Command;
use std::alloc::Global;

/// Runs a script, and seals the journal at its end or says its fault.
fn script<E: Editor, R: Rig, S: Source>(
    alloc: Global,
    editor: E,
    rig: &mut R,
    input: &mut S,
) -> Result<(), Stop>
    requires ready { E.ready editor (R.state rig.old) }
    ensures moments { (cs : List Cmd) (end : End) (said : List ℕ) (s : E.model.Document) → Starts E.model (E.stands editor) (S.input input.old).left (R.state rig.old) cs end said s →
        Throughout R.Rig rig.old rig.new (ReadsToPrefix E.model s cs (last_text end) said) }
    ensures alike { (cs : List Cmd) (end : End) (said : List ℕ) (s : E.model.Document) → Starts E.model (E.stands editor) (S.input input.old).left (R.state rig.old) cs end said s →
        InSpans R.Rig rig.old rig.new E.model.alike }
    ensures ends { (cs : List Cmd) (end : End) (said : List ℕ) (s : E.model.Document) → (h : Starts E.model (E.stands editor) (S.input input.old).left (R.state rig.old) cs end said s) →
        MatchResult result (λ _. Whole E.model (Sealed E.model) (R.state rig.new) (S.input input.new).left s cs end said h.input)
        (λ stop. RunStops E.model (Unsealed E.model) (R.state rig.new) (S.input input.new).left s cs end said h.input stop) }
    ensures void { OnOk result (ForSome (seen_of (R.state rig.new) File.Journal) E.model.void) }
    ensures takes { TakesAtMost (S.input input.old).left (S.input input.new).left (most_taken result) }
    ensures goes_on { GoesOn (R.state rig.old) (R.state rig.new) }
    ensures later { (S.input input.old).faults ≤ (S.input input.new).faults }
    ensures cause { FaultsWith (fault_at stop_device result) (R.state rig.old) (R.state rig.new) (S.input input.old).faults (S.input input.new).faults }
{
    let mut editor = editor;
    match commands(alloc, &mut editor, rig, input) {
        Ok(()) => sealed(editor, rig),
        Err(stop) => match stop {
            Stop::Script(number, kind) => Err(say_fault::<E, R>(alloc, rig, number, kind)),
            _ => Err(stop),
        },
    }
}

/// Does one command, says its whole reply, and seals the journal.
fn single<E: Editor, R: Rig>(editor: E, rig: &mut R, command: &Command) -> Result<(), Stop>
    requires ready { E.ready editor (R.state rig.old) }
    ensures moments { (said : List ℕ) (s : E.model.Document) → Stands E.model (E.stands editor) (R.state rig.old) said s →
        Throughout R.Rig rig.old rig.new (ReadsToPrefix E.model s (command_of command.now ∷ []) [] said) }
    ensures alike { (said : List ℕ) (s : E.model.Document) → Stands E.model (E.stands editor) (R.state rig.old) said s → InSpans R.Rig rig.old rig.new E.model.alike }
    ensures ends { (said : List ℕ) (s : E.model.Document) → Stands E.model (E.stands editor) (R.state rig.old) said s →
        MatchResult result (λ _. Stands E.model (Sealed E.model) (R.state rig.new) (said ++ E.model.reply s (command_of command.now)) (E.model.after s (command_of command.now)))
        (λ stop. OneStops E.model (R.state rig.new) s (command_of command.now) said stop) }
    ensures void { OnOk result (ForSome (seen_of (R.state rig.new) File.Journal) E.model.void) }
    // A command that changes nothing leaves both files alone until its reply is said, and stops for no fault of the image, unless it
    // looks into it.
    ensures still { (said : List ℕ) (s : E.model.Document) → Stands E.model (E.stands editor) (R.state rig.old) said s → E.model.still s (command_of command.now) →
        RepliesOnly R.Rig rig.old rig.new E.model said (E.model.reply s (command_of command.now)) (E.model.after s (command_of command.now)) × (result ≡ Err Stop.Image → E.model.looks s (command_of command.now)) }
    ensures alone { IfErr result StopsAlone }
    ensures goes_on { GoesOn (R.state rig.old) (R.state rig.new) }
    ensures cause { Faults (fault_at stop_device result) (R.state rig.old) (R.state rig.new) }
{
    let mut editor = editor;
    match step(&mut editor, rig, command) {
        Ok(()) => sealed(editor, rig),
        Err(stop) => Err(stop),
    }
}

/// Opens the files and runs the script.
fn edit_all<E: Editor, R: Rig, S: Source>(alloc: Global, rig: &mut R, input: &mut S) -> Ended
    ensures headline { (cs : List Cmd) (end : End) (said : List ℕ) (s : E.model.Document) → Begins E.model (S.input input.old).left (R.state rig.old) cs end said s →
        AtEveryMoment R.Rig rig.old rig.new E.model s cs (last_text end) said (IsFile (end_device result)) (EndsOpening result) }
    ensures alike { (cs : List Cmd) (end : End) (said : List ℕ) (s : E.model.Document) → Begins E.model (S.input input.old).left (R.state rig.old) cs end said s →
        OnceAlike R.Rig rig.old rig.new E.model (end_device result) }
    ensures ends { (cs : List Cmd) (end : End) (said : List ℕ) (s : E.model.Document) → (h : Begins E.model (S.input input.old).left (R.state rig.old) cs end said s) →
        EndsOpened E.model (R.state rig.new) (S.input input.new).left s cs end said h.input result }
    ensures void { result ≡ Ended.Done → ForSome (seen_of (R.state rig.new) File.Journal) E.model.void }
    ensures refused { result ≡ Ended.Refused → EndsRefused E.model (R.state rig.old) (R.state rig.new) }
    ensures kept { KeepsRefused R.Rig rig.old rig.new E.model (end_device result) }
    ensures refuses { IsUnrefused E.model (R.state rig.old) ⊎ (EndsUnopened result × RefusedEnds E.model (R.state rig.old) (R.state rig.new) result × (input.new ≡ input.old)) }
    ensures takes { TakesAtMost (S.input input.old).left (S.input input.new).left (most_of result) }
    ensures goes_on { GoesOn (R.state rig.old) (R.state rig.new) }
    ensures later { (S.input input.old).faults ≤ (S.input input.new).faults }
    ensures cause { FaultsWith (end_device result) (R.state rig.old) (R.state rig.new) (S.input input.old).faults (S.input input.new).faults }
{
    match opened::<E, R>(alloc, rig) {
        Ok(editor) => match script(alloc, editor, rig, input) {
            Ok(()) => Ended::Done,
            Err(stop) => Ended::Stopped(stop),
        },
        Err(ended) => ended,
    }
}

/// Opens the files and does one command.
fn one_alone<E: Editor, R: Rig>(alloc: Global, rig: &mut R, command: &Command) -> Ended
    ensures headline { (said : List ℕ) (s : E.model.Document) → Opening E.model (R.state rig.old) said s →
        AtEveryMoment R.Rig rig.old rig.new E.model s (command_of command.now ∷ []) [] said (IsFile (end_device result)) (EndsOpening result) }
    ensures alike { (said : List ℕ) (s : E.model.Document) → Opening E.model (R.state rig.old) said s → OnceAlike R.Rig rig.old rig.new E.model (end_device result) }
    ensures ends { (said : List ℕ) (s : E.model.Document) → Opening E.model (R.state rig.old) said s → OneEnds E.model (R.state rig.new) s (command_of command.now) said result }
    ensures void { result ≡ Ended.Done → ForSome (seen_of (R.state rig.new) File.Journal) E.model.void }
    ensures refused { result ≡ Ended.Refused → EndsRefused E.model (R.state rig.old) (R.state rig.new) }
    ensures kept { KeepsRefused R.Rig rig.old rig.new E.model (end_device result) }
    ensures refuses { IsUnrefused E.model (R.state rig.old) ⊎ (EndsUnopened result × RefusedEnds E.model (R.state rig.old) (R.state rig.new) result) }
    // Where the command changes nothing, both files are left alone from the opening to the reply, and the image fails only one that
    // looks into it.
    ensures reads { (said : List ℕ) (s : E.model.Document) → Opening E.model (R.state rig.old) said s → E.model.still s (command_of command.now) →
        OpeningEnds E.model (R.state rig.new) s said result ⊎ (OnlyReads R.Rig rig.old rig.new E.model said (E.model.reply s (command_of command.now)) s (E.model.after s (command_of command.now)) × (result ≡ Ended.Stopped Stop.Image → E.model.looks s (command_of command.now))) }
    ensures alone { EndsAlone result }
    ensures goes_on { GoesOn (R.state rig.old) (R.state rig.new) }
    ensures cause { Faults (end_device result) (R.state rig.old) (R.state rig.new) }
{
    match opened::<E, R>(alloc, rig) {
        Ok(editor) => match single(editor, rig, command) {
            Ok(()) => Ended::Done,
            Err(stop) => Ended::Stopped(stop),
        },
        Err(ended) => ended,
    }
}

/// Opens the files, runs the script that the input gives, command by command, and seals the journal at its end or says its
/// fault. Each command is done and its whole reply said before the next one is read.
///
/// Whatever a crash at any moment leaves of the files opens to the state that some prefix of the script's commands gives,
/// and the prefix has every command whose reply had been said. Nothing is said but those replies, one after another, a
/// front of the next, and behind all of them the text of a script's fault.
pub fn edit<E: Editor, R: Rig, S: Source>(alloc: Global, rig: &mut R, input: &mut S) -> Ended
    // Once opening has made durable what it found, each crash leaves a state that a prefix of the commands gives, and from the
    // return of opening on an image that, read without its journal, waits for it or shows that state or the one before.
    ensures headline { (cs : List Cmd) (end : End) (said : List ℕ) (s : E.model.Document) → Begins E.model (S.input input.old).left (R.state rig.old) cs end said s →
        AtEveryMoment R.Rig rig.old rig.new E.model s cs (last_text end) said (IsFile (end_device result)) (EndsOpening result) }
    // In particular, of each pair alone.
    ensures moments { (cs : List Cmd) (end : End) (said : List ℕ) (s : E.model.Document) → Begins E.model (S.input input.old).left (R.state rig.old) cs end said s →
        OnceDurable R.Rig rig.old rig.new (OpensToPrefix E.model s cs (last_text end) said) (end_device result) }
    // Any two pairs that a crash leaves within one call have the same bytes in each item that both need.
    ensures alike { (cs : List Cmd) (end : End) (said : List ℕ) (s : E.model.Document) → Begins E.model (S.input input.old).left (R.state rig.old) cs end said s →
        OnceAlike R.Rig rig.old rig.new E.model (end_device result) }
    // What stands at the end, what was said, and what was taken of the input.
    ensures ends { (cs : List Cmd) (end : End) (said : List ℕ) (s : E.model.Document) → (h : Begins E.model (S.input input.old).left (R.state rig.old) cs end said s) →
        EndsOpened E.model (R.state rig.new) (S.input input.new).left s cs end said h.input result }
    ensures void { result ≡ Ended.Done → ForSome (seen_of (R.state rig.new) File.Journal) E.model.void }
    ensures refused { result ≡ Ended.Refused → EndsRefused E.model (R.state rig.old) (R.state rig.new) }
    // A pair that is refused: nothing is said but the text that says why, or a front of it; nothing is taken; and the files are kept.
    ensures refusal { RefusedEnds E.model (R.state rig.old) (R.state rig.new) result }
    ensures untaken { (all : Devices) (text : List ℕ) → devices (R.state rig.old) ≡ Option.Some all → E.model.refuses all.image.seen all.journal.seen text → input.new ≡ input.old }
    ensures kept { KeepsRefused R.Rig rig.old rig.new E.model (end_device result) }
    ensures takes { TakesAtMost (S.input input.old).left (S.input input.new).left (most_of result) }
    ensures goes_on { GoesOn (R.state rig.old) (R.state rig.new) }
    ensures later { (S.input input.old).faults ≤ (S.input input.new).faults }
    ensures cause { FaultsWith (end_device result) (R.state rig.old) (R.state rig.new) (S.input input.old).faults (S.input input.new).faults }
    // Where the script ends well and no fault comes, all is done, or memory is wanting.
    ensures complete { (cs : List Cmd) (said : List ℕ) (s : E.model.Document) → (h : Begins E.model (S.input input.old).left (R.state rig.old) cs End.Done said s) → length h.input ≤ 2 ^ 40 →
        Quiet (R.state rig.old) (R.state rig.new) (S.input input.old).faults (S.input input.new).faults → Answers Ended.Done result }
    // A pair that is refused is told so, unless a fault comes or memory is wanting.
    ensures refuses { (all : Devices) (text : List ℕ) → devices (R.state rig.old) ≡ Option.Some all → E.model.refuses all.image.seen all.journal.seen text →
        Quiet (R.state rig.old) (R.state rig.new) (S.input input.old).faults (S.input input.new).faults → Answers Ended.Refused result }
{
    edit_all::<E, R, S>(alloc, rig, input)
}

/// Opens the files, does one command, says its whole reply, and seals the journal.
pub fn one<E: Editor, R: Rig>(alloc: Global, rig: &mut R, command: &Command) -> Ended
    ensures headline { (said : List ℕ) (s : E.model.Document) → Opening E.model (R.state rig.old) said s →
        AtEveryMoment R.Rig rig.old rig.new E.model s (command_of command.now ∷ []) [] said (IsFile (end_device result)) (EndsOpening result) }
    ensures moments { (said : List ℕ) (s : E.model.Document) → Opening E.model (R.state rig.old) said s →
        OnceDurable R.Rig rig.old rig.new (OpensToPrefix E.model s (command_of command.now ∷ []) [] said) (end_device result) }
    ensures alike { (said : List ℕ) (s : E.model.Document) → Opening E.model (R.state rig.old) said s → OnceAlike R.Rig rig.old rig.new E.model (end_device result) }
    ensures ends { (said : List ℕ) (s : E.model.Document) → Opening E.model (R.state rig.old) said s → OneEnds E.model (R.state rig.new) s (command_of command.now) said result }
    ensures void { result ≡ Ended.Done → ForSome (seen_of (R.state rig.new) File.Journal) E.model.void }
    ensures refused { result ≡ Ended.Refused → EndsRefused E.model (R.state rig.old) (R.state rig.new) }
    ensures refusal { RefusedEnds E.model (R.state rig.old) (R.state rig.new) result }
    ensures kept { KeepsRefused R.Rig rig.old rig.new E.model (end_device result) }
    ensures goes_on { GoesOn (R.state rig.old) (R.state rig.new) }
    ensures cause { Faults (end_device result) (R.state rig.old) (R.state rig.new) }
    ensures alone { EndsAlone result }
    // Where the command changes nothing, both files are left alone from the opening to the reply, and the image fails only one that
    // looks into it.
    ensures reads { (said : List ℕ) (s : E.model.Document) → Opening E.model (R.state rig.old) said s → E.model.still s (command_of command.now) →
        OpeningEnds E.model (R.state rig.new) s said result ⊎ (OnlyReads R.Rig rig.old rig.new E.model said (E.model.reply s (command_of command.now)) s (E.model.after s (command_of command.now)) × (result ≡ Ended.Stopped Stop.Image → E.model.looks s (command_of command.now))) }
    ensures complete { (said : List ℕ) (s : E.model.Document) → Opening E.model (R.state rig.old) said s → Quiet (R.state rig.old) (R.state rig.new) 0 0 → Answers Ended.Done result }
    ensures refuses { (all : Devices) (text : List ℕ) → devices (R.state rig.old) ≡ Option.Some all → E.model.refuses all.image.seen all.journal.seen text →
        Quiet (R.state rig.old) (R.state rig.new) 0 0 → Answers Ended.Refused result }
{
    one_alone::<E, R>(alloc, rig, command)
}
