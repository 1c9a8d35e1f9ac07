//! A reply, piece after piece.

ghost use Rattle.std.specs.Prelude.{◌++◌, List, ℕ, IfErr, OnOk};
ghost use Rattle.czi_rig.specs.Faults.{Faults, fault_at};
ghost use Rattle.czi_rig.specs.Passes.{GoesOn};
ghost use Rattle.czi_session.specs.Course.{OnlySays, Stands, Unsealed};
ghost use Rattle.czi_session.specs.Stops.{StopsAlone, stop_device};
ghost use Rattle.czi_session.specs.Ends.{ReplyStops};

use crate::{Editor, Stop};
use czi_rig::Rig;

/// Says the reply of a command that was done, piece after piece. A fault leaves a front of it.
pub(crate) fn say_reply<E: Editor, R: Rig>(editor: &mut E, rig: &mut R) -> Result<(), Stop>
    requires ready { E.ready editor.old (R.state rig.old) }
    ensures ok { OnOk result ((said : List ℕ) (s : E.model.Document) (rest : List ℕ) → Stands E.model (E.stands editor.old) (R.state rig.old) said s → E.owes editor.old s rest →
        Stands E.model (E.stands editor.new) (R.state rig.new) (said ++ (E.says editor.old ++ rest)) s) }
    ensures ready { OnOk result (E.ready editor.new (R.state rig.new)) }
    ensures stops { IfErr result (λ stop. (said : List ℕ) (s : E.model.Document) (rest : List ℕ) → Stands E.model (E.stands editor.old) (R.state rig.old) said s → E.owes editor.old s rest →
        ReplyStops E.model (Unsealed E.model) (R.state rig.new) s said (E.says editor.old ++ rest) (E.pieces_left editor.old) stop) }
    ensures only { (said : List ℕ) (s : E.model.Document) (rest : List ℕ) → Stands E.model (E.stands editor.old) (R.state rig.old) said s → E.owes editor.old s rest →
        OnlySays R.Rig rig.old rig.new (E.says editor.old ++ rest) }
    ensures alone { IfErr result StopsAlone }
    ensures goes_on { GoesOn (R.state rig.old) (R.state rig.new) }
    ensures cause { Faults (fault_at stop_device result) (R.state rig.old) (R.state rig.new) }
{
    loop {
        let Ok(()) = rig.say(editor.piece()) else {
            return Err(Stop::Output);
        };
        match editor.next_piece(rig) {
            Ok(true) => {}
            Ok(false) => return Ok(()),
            Err(_) => return Err(Stop::Image),
        }
    }
}
