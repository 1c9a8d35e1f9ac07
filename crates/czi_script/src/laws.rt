//! Laws of scripts.

ghost use Rattle.std.specs.Prelude.{◌≡◌, ◌≢◌, ◌⊎◌, ℕ, ◌+◌, ◌-◌, ◌≤◌, List, [], ◌∷◌, ◌++◌, Option, length, take};
ghost use Rattle.czi_format.specs.Painting.{Query};
ghost use Rattle.czi_script.specs.declared.kind.Kind.{Kind as FaultKind};
ghost use Rattle.czi_script.specs.Script.{Command as Cmd, Spells, SpellAll, IsFault, NoneBegins, Reads, End, Found, Shows, Finds};
ghost use Rattle.czi_script.specs.Words.{SaysRegion};

use crate::kind::Kind;

/// No spelling of a command begins one of another command, or another one of its own.
pub fn no_spelling_begins_another()
    ensures { (c d : Cmd) (a b x y : List ℕ) → Spells c a → Spells d b → a ++ x ≡ b ++ y → (c ≡ d) × (a ≡ b) × (x ≡ y) }
{}

/// Bytes that no command begins have exactly one kind of fault, unless there are none.
pub fn one_kind()
    ensures exists { (bytes : List ℕ) → bytes ≢ [] → NoneBegins bytes → (kind : FaultKind) × IsFault kind bytes }
    ensures unique { (bytes : List ℕ) (k l : FaultKind) → IsFault k bytes → IsFault l bytes → k ≡ l }
    ensures begins_none { (bytes : List ℕ) (kind : FaultKind) → IsFault kind bytes → (bytes ≢ []) × NoneBegins bytes }
{}

/// Each byte list is read in exactly one way.
pub fn one_reading()
    ensures exists { (first : ℕ) (bytes : List ℕ) → (cs : List Cmd) × (end : End) × Reads first bytes cs end }
    ensures unique { (first : ℕ) (bytes : List ℕ) (cs ds : List Cmd) (end last : End) → Reads first bytes cs end → Reads first bytes ds last → (cs ≡ ds) × (end ≡ last) }
{}

/// A fault that shows in a front of an input is that of the input, however it goes on, unless the front is cut.
pub fn faults_stay()
    ensures { (first : ℕ) (front more : List ℕ) (cs : List Cmd) (n : ℕ) (kind : FaultKind) → kind ≢ Kind.Cut
        → Reads first front cs (End.Fault n kind) → Reads first (front ++ more) cs (End.Fault n kind) }
{}

/// Whatever is ahead, and however many bytes of it may be taken, a reader finds exactly one thing there.
pub fn one_answer()
    ensures exists { (room : ℕ) (bytes : List ℕ) → (found : Found) × Finds room bytes found }
    ensures unique { (room : ℕ) (bytes : List ℕ) (a b : Found) → Finds room bytes a → Finds room bytes b → a ≡ b }
{}

/// What is left of a script after a command that was read, at its end, and at a fault.
pub fn reading_goes_on()
    ensures next { (first : ℕ) (c : Cmd) (spelled more : List ℕ) (cs : List Cmd) (end : End) → Spells c spelled → Reads first (spelled ++ more) cs end
        → (rest : List Cmd) × (cs ≡ c ∷ rest) × Reads (first + 1) more rest end }
    ensures end { (first : ℕ) (cs : List Cmd) (end : End) → Reads first [] cs end → (cs ≡ []) × (end ≡ End.Done) }
    ensures fault { (first : ℕ) (bytes : List ℕ) (kind : FaultKind) (cs : List Cmd) (end : End) → IsFault kind bytes → Reads first bytes cs end
        → (cs ≡ []) × (end ≡ End.Fault first kind) }
{}

/// A fault that shows in so many bytes is that of all. Where it shows behind commands, with so many bytes for both, it
/// shows in the whole script: that has no more bytes, or every script that begins with as many of them has this fault.
pub fn faults_show()
    ensures there { (room : ℕ) (bytes : List ℕ) (kind : FaultKind) → Shows room kind bytes → IsFault kind bytes }
    ensures whole { (most : ℕ) (front bytes : List ℕ) (cs : List Cmd) (kind : FaultKind) → SpellAll cs front → length front ≤ most → Shows (most - length front) kind bytes
        → ((length (front ++ bytes) ≤ most) × Reads 1 (front ++ bytes) cs (End.Fault (1 + length cs) kind))
        ⊎ ((more : List ℕ) → Reads 1 (take most (front ++ bytes) ++ more) cs (End.Fault (1 + length cs) kind)) }
{}

/// Whatever words are given as the fields of a region, they say exactly one region or none.
pub fn one_region()
    ensures exists { (fields : List (List ℕ)) → (said : Option Query) × SaysRegion fields said }
    ensures unique { (fields : List (List ℕ)) (said other : Option Query) → SaysRegion fields said → SaysRegion fields other → said ≡ other }
{}
