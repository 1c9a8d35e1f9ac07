ghost use Rattle.std.specs.Prelude.{◌≡◌, ◌<◌, ◌≤◌, length, is_some, is_err, IfOk, OnErr};
ghost use Rattle.std.specs.Option.{ForSome};
ghost use Rattle.czi_rig.specs.Source.{Input, TakesBytes};
ghost use Rattle.czi_rig.specs.Faults.{Counted};

use crate::Failed;

/// An input that is read from front to end, each byte once.
pub trait Source {
    /// What is left of the input, where the source tells it, and how often a call has failed.
    ghost input: { Self → Input };

    /// TakesBytes some of the bytes that are left, from the front, into the front of `into`, and answers how many. An answer
    /// of 0 is the end of the input. A call that answers `Failed` has taken nothing; what `into` then holds is not said.
    /// It has raised the count of faults, and one that answers `Ok` has not.
    fn take(&mut self, into: &mut [u8]) -> Result<usize, Failed>
        requires { 0 < length into.old }
        ensures bound { IfOk result (λ n. n ≤ length into.old) }
        ensures taken { IfOk result (λ n. ForSome (input self.old).left (λ left. TakesBytes n into.new left (input self.new).left)) }
        ensures kept { OnErr result ((input self.new).left ≡ (input self.old).left) }
        ensures told { is_some (input self.new).left ≡ is_some (input self.old).left }
        ensures later { (input self.old).faults ≤ (input self.new).faults }
        ensures cause { Counted (is_err result) (input self.old).faults (input self.new).faults };
}
