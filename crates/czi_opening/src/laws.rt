//! The laws of opening.

ghost use Rattle.std.specs.Prelude.{◌≡◌, ◌⊎◌, ℕ, List};
ghost use Rattle.czi_format.specs.Document.{Document};
ghost use Rattle.czi_image.specs.Holds.{Indexes};
ghost use Rattle.czi_image.specs.declared.index.Index.{Index};
ghost use Rattle.czi_vault.specs.Recovered.{Recovered};
ghost use Rattle.czi_opening.specs.Opens.{Cause, IsRefusedBy, Opens};

/// An image and its journal open to one document at most.
pub fn one_opening()
    ensures { (image journal : List ℕ) (d e : Document) → Opens image journal d → Opens image journal e → d ≡ e }
{}

/// The bytes that an image and its journal stand for are theirs alone, and where these have an index, the files
/// open to a document.
pub fn indexed_opens()
    ensures one { (image journal bytes others : List ℕ) → Recovered image journal bytes → Recovered image journal others → bytes ≡ others }
    ensures opens { (image journal bytes : List ℕ) (index : Index) → Recovered image journal bytes → Indexes bytes index → (d : Document) × Opens image journal d }
{}

/// An image and its journal open to a document, or they are refused for one cause. Never both.
pub fn opened_or_refused()
    ensures either { (image journal : List ℕ) → ((d : Document) × Opens image journal d) ⊎ ((cause : Cause) × IsRefusedBy image journal cause) }
    ensures not_both { (image journal : List ℕ) (d : Document) (cause : Cause) → Opens image journal d → IsRefusedBy image journal cause → ⊥ }
    ensures one_cause { (image journal : List ℕ) (c d : Cause) → IsRefusedBy image journal c → IsRefusedBy image journal d → c ≡ d }
{}
