//! What every edit does once it was prepared.

ghost use Rattle.std.specs.Prelude.{◌≡◌, Result, IfOk, IfErr, IsFalse};
ghost use Rattle.czi_engine.specs.Edited.{Edits};
ghost use Rattle.czi_engine.specs.Editing.{Goes};
ghost use Rattle.czi_engine.specs.Prepared.{CanKeep, IsPrepared, Prepares, edits_after};
ghost use Rattle.czi_engine.specs.Standing.{StandsOnRig};
ghost use Rattle.czi_engine.specs.declared.engine.Engine.{Engine as EngineValue};

use crate::engine::Engine;
use crate::error::EditError;
use czi_rig::Rig;
use czi_undo::Inverse;

impl Engine {
    /// Carries out the plan that was prepared, takes it over, and answers how many edits were accepted.
    fn commit<R: Rig>(&mut self, rig: &mut R, inverse: Inverse) -> Result<u64, EditError>
        requires stands { StandsOnRig (R.state rig.old) self.old.state }
        requires up { IsFalse self.old.state.down }
        requires prepared { (go : Goes) × IsPrepared go self.old (edits_after inverse self.old.state) }
        requires keeps { CanKeep self.old.state self.old.scratch.plan }
        ensures { (go : Goes) → IsPrepared go self.old (edits_after inverse self.old.state) → Edits R.Rig go rig.old rig.new self.old.state self.new.state result }
    {
        match self.commit_prepared(rig) {
            Ok(()) => {
                self.take_over(inverse);
                Ok(self.state.number)
            }
            Err(fault) => Err(EditError::from(fault)),
        }
    }

    /// Carries out what was prepared, with what undoes it, or answers why there is no plan. All edits come here.
    pub(crate) fn edit<R: Rig>(
        &mut self,
        rig: &mut R,
        prepared: Result<Inverse, EditError>,
    ) -> Result<u64, EditError>
        requires stands { StandsOnRig (R.state rig.old) self.old.state }
        requires up { IsFalse self.old.state.down }
        requires prepared { (go : Goes) × (was : EngineValue) × Prepares go was self.old prepared }
        ensures { (go : Goes) (was : EngineValue) → Prepares go was self.old prepared → Edits R.Rig go rig.old rig.new was.state self.new.state result }
    {
        match prepared {
            Ok(inverse) => self.commit(rig, inverse),
            Err(error) => Err(error),
        }
    }
}
