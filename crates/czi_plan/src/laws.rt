//! What is always so of the inverses that an undo list keeps.

ghost use Rattle.czi_plan.specs.Undoing.{NewestFits};

/// The newest inverse of a state can be planned, where the map holds whatever an undo may use again.
pub fn newest_fits()
    ensures { NewestFits }
{}
