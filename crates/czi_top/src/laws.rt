//! Laws of the words.

ghost use Rattle.std.specs.Prelude.{◌≡◌, ℕ, List, Option};
ghost use Rattle.czi_top.specs.Words.{AreWords, Command};

/// Whatever the words are, they ask for exactly one command or none.
pub fn one_command()
    ensures exists { (words : List (List ℕ)) → (command : Option Command) × AreWords words command }
    ensures unique { (words : List (List ℕ)) (command other : Option Command) → AreWords words command → AreWords words other → command ≡ other }
{}
