//! The commands of a script, one after another.

ghost use Rattle.std.specs.Prelude.{◌≡◌, ◌++◌, ◌≤◌, List, ℕ, Option, MatchResult, OnOk, is_some};
ghost use Rattle.czi_rig.specs.Faults.{FaultsWith, fault_at};
ghost use Rattle.czi_rig.specs.Passes.{GoesOn};
ghost use Rattle.czi_rig.specs.Moments.{Throughout};
ghost use Rattle.czi_rig.specs.Spans.{InSpans};
ghost use Rattle.czi_script.specs.Script.{Command as Cmd, End};
ghost use Rattle.czi_session.specs.Course.{ReadsToPrefix, Starts, Unsealed};
ghost use Rattle.czi_session.specs.Stops.{stop_by, stop_device};
ghost use Rattle.czi_session.specs.Ends.{Whole, StopsAt, TakesAtMost, most_taken};

use crate::steps::step;
use crate::{Editor, Stop};
use czi_rig::{Rig, Source};
use czi_script::{ScriptError, ScriptReader};
use std::alloc::Global;

/// A reader's error, as a stop of a run.
fn stop_by(error: ScriptError) -> Stop
    ensures { result ≡ stop_by error }
{
    match error {
        ScriptError::Fault { number, kind } => Stop::Script(number, kind),
        ScriptError::Input => Stop::Input,
        ScriptError::TooLong => Stop::TooLong,
        ScriptError::Memory => Stop::Memory,
    }
}

/// Reads a command, does it, says its whole reply, and reads on.
pub(crate) fn commands<E: Editor, R: Rig, S: Source>(
    alloc: Global,
    editor: &mut E,
    rig: &mut R,
    input: &mut S,
) -> Result<(), Stop>
    requires ready { E.ready editor.old (R.state rig.old) }
    ensures moments { (cs : List Cmd) (end : End) (said : List ℕ) (s : E.model.Document) → Starts E.model (E.stands editor.old) (S.input input.old).left (R.state rig.old) cs end said s →
        (last : List ℕ) → Throughout R.Rig rig.old rig.new (ReadsToPrefix E.model s cs last said) }
    ensures alike { (cs : List Cmd) (end : End) (said : List ℕ) (s : E.model.Document) → Starts E.model (E.stands editor.old) (S.input input.old).left (R.state rig.old) cs end said s →
        InSpans R.Rig rig.old rig.new E.model.alike }
    ensures ends { (cs : List Cmd) (end : End) (said : List ℕ) (s : E.model.Document) → (h : Starts E.model (E.stands editor.old) (S.input input.old).left (R.state rig.old) cs end said s) →
        MatchResult result (λ _. Whole E.model (E.stands editor.new) (R.state rig.new) (S.input input.new).left s cs end said h.input)
        (λ stop. StopsAt E.model (Unsealed E.model) (R.state rig.new) (S.input input.new).left s cs end said h.input stop) }
    ensures ready { OnOk result (E.ready editor.new (R.state rig.new)) }
    ensures takes { TakesAtMost (S.input input.old).left (S.input input.new).left (most_taken result) }
    ensures goes_on { GoesOn (R.state rig.old) (R.state rig.new) }
    ensures later { (S.input input.old).faults ≤ (S.input input.new).faults }
    ensures cause { FaultsWith (fault_at stop_device result) (R.state rig.old) (R.state rig.new) (S.input input.old).faults (S.input input.new).faults }
{
    let Ok(mut reader) = ScriptReader::new(alloc) else {
        return Err(Stop::Memory);
    };
    loop {
        match reader.next(input) {
            Ok(Some(command)) => {
                let done = step(editor, rig, &command);
                drop(command);
                done?;
            }
            Ok(None) => return Ok(()),
            Err(error) => return Err(stop_by(error)),
        }
    }
}
