//! The plan of an edit of a CZI image in place: which bytes to write where before the commit, which links the commit
//! has, which spans are used and freed, and the new length. Nothing is written to a device here.
#![tactic(auto)]

mod adding;
mod attaching;
mod attachment_acts;
mod attachments;
mod bringing;
mod changing;
mod directory;
mod fits;
mod freeing;
mod inverse_plan;
mod laws;
mod listing;
mod marks;
mod metadata;
mod names;
mod need;
mod new_metadata;
mod placing;
mod plan;
mod removal;
mod replacing;
mod returning;
mod search;
mod spare;
mod staging;
mod subblock;
mod tiles;
mod touching;
mod undoing;

pub use adding::plan_add;
pub use attaching::{plan_attach, plan_detach, plan_detach_at, plan_reattach, plan_reattach_at};
pub use fits::inverse_fits;
pub use freeing::update_map;
pub use inverse_plan::plan_inverse;
pub use laws::newest_fits;
pub use metadata::plan_set_meta;
pub use names::{attachment_key, attachment_with};
pub use need::{Need, need_of_inverse, need_of_undo, room_for_undos};
pub use plan::{EditPlan, PlanFault, Records};
pub use removal::{plan_remove, plan_remove_at};
pub use replacing::{plan_replace, plan_replace_at};
pub use search::tile_with;
