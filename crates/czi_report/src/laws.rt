//! The laws of the texts.

ghost use Rattle.czi_report.specs.States.{ListsState, DetailsState};

/// What `list` and `info` say of an image is said of each state that lies in it.
pub fn texts_of_a_state()
    ensures list { ListsState }
    ensures info { DetailsState }
{}
