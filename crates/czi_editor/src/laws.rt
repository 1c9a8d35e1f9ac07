//! The laws of a run.

ghost use Rattle.czi_editor.specs.Machine.{EachBegins, OpensOrRefused};

/// A run begins over each pair of files that opens, and each pair opens or is refused.
pub fn each_pair_begins_or_is_refused()
    ensures begins { EachBegins }
    ensures refused { OpensOrRefused }
{}
