//! Editors of an image and a journal.

ghost use Rattle.std.specs.Prelude.{◌≡◌, ◌<◌, List, ℕ, true, false, Option, Result, MatchResult, IfOk, IfErr, OnOk, length};
ghost use Rattle.std.specs.Option.{ForSome};
ghost use Rattle.czi_rig.specs.Disk.{Disk};
ghost use Rattle.czi_rig.specs.State.{State, SameFiles, seen_of};
ghost use Rattle.czi_rig.specs.Faults.{Faults, device_of, failed_at, fault_at};
ghost use Rattle.czi_rig.specs.Passes.{GoesOn};
ghost use Rattle.czi_rig.specs.Moments.{Throughout, Devices, devices, FromSomeMoment};
ghost use Rattle.czi_rig.specs.Quiet.{Untouched};
ghost use Rattle.czi_rig.specs.Spans.{EachTwo};
ghost use Rattle.czi_script.specs.Script.{Command as Cmd};
ghost use Rattle.czi_script.specs.View.{command_of};
ghost use Rattle.czi_session.specs.Course.{EitherSide, IsUnrefused, KeepsFiles, Model, NextPiece, OnceAlike, OnceDurable, Open, Opening, Replied, Sealed, Sealing, Stands, Unsealed};
ghost use Rattle.czi_session.specs.Stops.{editor_device, open_device};
ghost use Rattle.czi_session.specs.Ends.{IsNoRefusal, RefusesPair};

use crate::{EditorStop, OpenStop};
use czi_rig::{Failed, File, Rig};
use czi_script::Command;
use std::alloc::Global;

/// Does commands on an image and a journal. It says nothing itself: a reply is taken from it piece after piece, so that a long one
/// stands nowhere as a whole.
pub trait Editor: Drop {
    /// What it is about.
    ghost model: { Model };

    /// It stands on this image and this journal, at this state.
    ghost stands: { Self → Disk → Disk → model.Document → Type 0 };

    /// It may be used on a device in this state.
    ghost ready: { Self → State → Type 0 };

    /// Opens an image and a journal. Until it has made durable what it found, a crash leaves nothing that it couldn't
    /// have left before; from then on what it leaves opens to the same state.
    ///
    /// # Errors
    ///
    /// `Refused` where the pair is refused, with the text that says why. Else it is a fault of a file, whose count alone
    /// rose, or want of memory. Files that are refused are kept: what a crash leaves stands for what they stood for. The
    /// journal is never written.
    fn open<R: Rig>(alloc: Global, rig: &mut R) -> Result<Self, OpenStop>
        ensures opens { (said : List ℕ) (s : model.Document) → Opening model (R.state rig.old) said s → MatchResult result
            (λ editor. FromSomeMoment R.Rig rig.old rig.new (Open model s said) × Stands model (stands editor) (R.state rig.new) said s)
            (λ stop. IsNoRefusal stop × OnceDurable R.Rig rig.old rig.new (Open model s said) (open_device stop)) }
        // Once it is durable, any two pairs that a crash leaves have the same bytes in each item that both need.
        ensures alike { (said : List ℕ) (s : model.Document) → Opening model (R.state rig.old) said s → OnceAlike R.Rig rig.old rig.new model (fault_at open_device result) }
        ensures journal { seen_of (R.state rig.new) File.Journal ≡ seen_of (R.state rig.old) File.Journal }
        ensures ready { IfOk result (λ editor. ready editor (R.state rig.new)) }
        ensures unrefused { OnOk result (IsUnrefused model (R.state rig.old)) }
        ensures refused { IfErr result (λ stop. (all : Devices) → devices (R.state rig.old) ≡ Option.Some all → RefusesPair model all (R.state rig.new) stop) }
        ensures kept { IfErr result (λ stop. (all : Devices) (text : List ℕ) → devices (R.state rig.old) ≡ Option.Some all → model.refuses all.image.seen all.journal.seen text → OnceDurable R.Rig rig.old rig.new (KeepsFiles model all) (open_device stop)) }
        ensures said { (R.state rig.new).said ≡ (R.state rig.old).said }
        ensures goes_on { GoesOn (R.state rig.old) (R.state rig.new) }
        ensures cause { Faults (fault_at open_device result) (R.state rig.old) (R.state rig.new) };

    /// The piece of a reply that is to be said now.
    ghost says: { Self → List ℕ };

    /// Behind that piece it has this to say yet, of a command that led to this state.
    ghost owes: { Self → model.Document → List ℕ → Type 0 };

    /// So many pieces come behind it at most.
    ghost pieces_left: { Self → ℕ };

    /// Does a command, and has then its reply to say, piece after piece. That a command is refused is a reply too. After an
    /// `Err` it may not be used again.
    ///
    /// # Errors
    ///
    /// A fault of a file, whose count alone rose, or want of memory.
    fn perform<R: Rig>(&mut self, rig: &mut R, command: &Command) -> Result<(), EditorStop>
        requires ready { ready self.old (R.state rig.old) }
        ensures moments { (said : List ℕ) (s : model.Document) → Stands model (stands self.old) (R.state rig.old) said s →
            Throughout R.Rig rig.old rig.new (EitherSide model s (command_of command.now) said) }
        ensures alike { (said : List ℕ) (s : model.Document) → Stands model (stands self.old) (R.state rig.old) said s → EachTwo R.Rig rig.old rig.new model.alike }
        ensures ok { OnOk result ((said : List ℕ) (s : model.Document) → Stands model (stands self.old) (R.state rig.old) said s →
            Replied model s (command_of command.now) (says self.new) (owes self.new (model.after s (command_of command.now))) (pieces_left self.new) × Stands model (stands self.new) (R.state rig.new) said (model.after s (command_of command.now))) }
        ensures ready { OnOk result (ready self.new (R.state rig.new)) }
        ensures said { (R.state rig.new).said ≡ (R.state rig.old).said }
        ensures goes_on { GoesOn (R.state rig.old) (R.state rig.new) }
        // Where the command changes nothing, no call on the device is made, and memory alone may be wanting.
        ensures still { (said : List ℕ) (s : model.Document) → Stands model (stands self.old) (R.state rig.old) said s → model.still s (command_of command.now) →
            (fault_at editor_device result ≡ Option.None) × (rig.new ≡ rig.old) }
        // All memory is taken before the first call.
        ensures starved { result ≡ Result.Err EditorStop.Memory → rig.new ≡ rig.old }
        ensures cause { Faults (fault_at editor_device result) (R.state rig.old) (R.state rig.new) };

    /// The piece of the reply that is to be said now.
    fn piece(&self) -> &[u8]
        ensures { result.now ≡ says self.now };

    /// Goes on to the next piece of the reply, for which it may read the image. False where none is left. No memory is taken. After
    /// `Failed` it may not be used again.
    fn next_piece<R: Rig>(&mut self, rig: &mut R) -> Result<bool, Failed>
        requires ready { ready self.old (R.state rig.old) }
        ensures next { IfOk result (λ more. (said : List ℕ) (s : model.Document) (rest : List ℕ) → Stands model (stands self.old) (R.state rig.old) said s → owes self.old s rest →
            NextPiece more rest (says self.new) (owes self.new s)) }
        ensures stands { OnOk result ((image journal : Disk) (s : model.Document) → stands self.old image journal s → stands self.new image journal s) }
        ensures ready { OnOk result (ready self.new (R.state rig.new)) }
        // Where none is left, no call is made.
        ensures whole { pieces_left self.old ≡ 0 → (result ≡ Result.Ok false) × (rig.new ≡ rig.old) }
        ensures fewer { IfOk result (λ more. more ≡ true → pieces_left self.new < pieces_left self.old) }
        ensures untouched { Untouched R.Rig rig.old rig.new }
        ensures cause { Faults (failed_at result (device_of File.Image)) (R.state rig.old) (R.state rig.new) };

    /// Makes the journal void.
    ///
    /// # Errors
    ///
    /// A call on the journal failed, and its count of faults alone rose.
    fn seal<R: Rig>(self, rig: &mut R) -> Result<(), Failed>
        requires ready { ready self (R.state rig.old) }
        ensures moments { (said : List ℕ) (s : model.Document) → Stands model (stands self) (R.state rig.old) said s → Throughout R.Rig rig.old rig.new (Sealing model s said) }
        ensures alike { (said : List ℕ) (s : model.Document) → Stands model (stands self) (R.state rig.old) said s → EachTwo R.Rig rig.old rig.new model.alike }
        ensures ok { OnOk result ((said : List ℕ) (s : model.Document) → Stands model (stands self) (R.state rig.old) said s → Stands model (Sealed model) (R.state rig.new) said s) }
        ensures void { OnOk result (ForSome (seen_of (R.state rig.new) File.Journal) model.void) }
        ensures said { (R.state rig.new).said ≡ (R.state rig.old).said }
        ensures goes_on { GoesOn (R.state rig.old) (R.state rig.new) }
        ensures cause { Faults (failed_at result (device_of File.Journal)) (R.state rig.old) (R.state rig.new) };

    /// The files that it stands on rest at its state, and the journal isn't sealed.
    ghost rests_now: { (editor : Self) (image journal : Disk) (s : model.Document) → stands editor image journal s → Unsealed model image journal s };

    /// Nor is that of files at which a run begins.
    ghost begins_unsealed: { (image journal : List ℕ) (s : model.Document) → model.begins image journal s → model.holds s journal };

    /// It stays ready where both files stay as they are.
    ghost stays_ready: { (editor : Self) (old new : State) → ready editor old → SameFiles old new → GoesOn old new → ready editor new };

    /// A pair is refused with one text.
    ghost refused_once: { (image journal text other : List ℕ) → model.refuses image journal text → model.refuses image journal other → text ≡ other };

    /// No reply is empty.
    ghost says_something: { (s : model.Document) (c : Cmd) → 0 < length (model.reply s c) };
}
