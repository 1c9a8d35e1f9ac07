//! Carrying a plan out on the files.

ghost use Rattle.std.specs.Prelude.{◌≡◌, List, ℕ, slice_index, OnOk, IsTrue, option_map};
ghost use Rattle.std.specs.Option.{ForSome};
ghost use Rattle.czi_commit.specs.Filled.{AreFree, filled};
ghost use Rattle.czi_commit.specs.Made.{made, step_of};
ghost use Rattle.czi_opening.specs.Answers.{IsJournal};
ghost use Rattle.czi_plan.specs.Pieces.{writes_of};
ghost use Rattle.czi_plan.specs.Plan.{IsPlan};
ghost use Rattle.czi_rig.specs.Disk.{Covers, Everywhere, at_rest};
ghost use Rattle.czi_rig.specs.State.{known};
ghost use Rattle.czi_rig.specs.Faults.{Faults, fault_at};
ghost use Rattle.czi_rig.specs.Passes.{GoesOn};
ghost use Rattle.czi_rig.specs.Moments.{devices, Throughout, LeavesNow};
ghost use Rattle.czi_vault.specs.Alone.{HasBytes, KeepsOr};
ghost use Rattle.czi_vault.specs.Devices.{vault_device};
ghost use Rattle.czi_vault.specs.Puts.{ranges};
ghost use Rattle.czi_vault.specs.Recovered.{Recovered, StandsNow, View};
ghost use Rattle.czi_engine.specs.Prepared.{KeepsPlan};
ghost use Rattle.czi_engine.specs.Standing.{StandsOnRig, file_of};
ghost use Rattle.czi_format.specs.declared.numbers.TheConstants.{UPDATE_PENDING};

use crate::engine::Engine;
use czi_commit::carry_out;
use czi_links::SlotHead;
use czi_rig::{File, Rig};
use czi_vault::VaultFault;

impl Engine {
    /// Carries the plan out. The engine is down until the plan is taken over.
    pub(crate) fn commit_prepared<R: Rig>(&mut self, rig: &mut R) -> Result<(), VaultFault>
        requires stands { StandsOnRig (R.state rig.old) self.old.state }
        requires plan { IsPlan self.old.state.index self.old.state.map self.old.scratch.region self.old.scratch.plan }

        ensures moments { ForSome (devices (R.state rig.old)) (λ all. (view : View) → StandsNow view all → HasBytes view all.image.seen → slice_index all.image.seen UPDATE_PENDING ≡ 0
            → (Covers (ranges self.old.scratch.plan.links.links) UPDATE_PENDING → ⊥) → AreFree view (filled self.old.state.index.length (writes_of self.old.scratch.region self.old.scratch.plan))
            → Throughout R.Rig rig.old rig.new (λ image j said. KeepsOr view (made self.old.state.index.length (step_of (file_of self.old.state) self.old.scratch.region self.old.scratch.plan) all.image.seen) image j × (said ≡ all.said))) }
        ensures image { OnOk result (known (R.state rig.new) File.Image ≡ option_map (λ disk. at_rest (made self.old.state.index.length (step_of (file_of self.old.state) self.old.scratch.region self.old.scratch.plan) disk.seen)) (known (R.state rig.old) File.Image)) }
        ensures committed { OnOk result (ForSome (devices (R.state rig.old)) (λ all. ForSome (devices (R.state rig.new)) (λ now. (image j said : List ℕ) → LeavesNow now image j said
            → Recovered image j (made self.old.state.index.length (step_of (file_of self.old.state) self.old.scratch.region self.old.scratch.plan) all.image.seen)))) }
        ensures journal { OnOk result (ForSome (known (R.state rig.new) File.Journal) (Everywhere (IsJournal self.new.state.journal))) }
        ensures armed { OnOk result (IsTrue self.new.state.journal.armed) }
        ensures kept { KeepsPlan self.old self.new }
        ensures down { IsTrue self.new.state.down }
        ensures said { (R.state rig.new).said ≡ (R.state rig.old).said }
        ensures goes_on { GoesOn (R.state rig.old) (R.state rig.new) }
        ensures cause { Faults (fault_at vault_device result) (R.state rig.old) (R.state rig.new) }
    {
        let state = &mut self.state;
        let scratch = &mut self.scratch;
        let file = SlotHead {
            guid: state.index.header.guid(),
            length: state.index.length,
        };
        state.down = true;
        carry_out(
            rig,
            &mut state.journal,
            &file,
            &scratch.region,
            &scratch.plan,
            &mut scratch.slot,
        )
    }
}
