//! What an index says of an image after a change, and for how much it then has memory.

ghost use Rattle.czi_image.specs.Applied.{CapacityLasts, CapacityLeft, CapacitySuffices, GrowsWithActs, HoldsChanged, HoldsStill, LiesChanged, LiesStill};

/// A changed index holds what the change makes of what the pointers of the file header reach, and it has the layout of
/// that. One that is the same but for its memory holds and has the same.
pub fn change_applied()
    ensures holds { HoldsChanged }
    ensures lies { LiesChanged }
    ensures holds_still { HoldsStill }
    ensures lies_still { LiesStill }
{}

/// A change makes a list of an index longer by one item for each act at most. An index that keeps its room goes on having memory
/// for as much as it had: for a change less, where each of its lists had at most one act. Memory for all that there is and is to
/// come is room for a change.
pub fn room_lasts()
    ensures grows { GrowsWithActs }
    ensures lasts { CapacityLasts }
    ensures left { CapacityLeft }
    ensures suffices { CapacitySuffices }
{}
