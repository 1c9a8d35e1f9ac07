//! What is said of a script that breaks off.

ghost use Rattle.std.specs.Prelude.{◌≡◌, IfOk};
ghost use Rattle.czi_session.specs.Text.{kind_word, fault_line};

use czi_script::Kind;
use itoa::Buffer;
use std::alloc::{AllocError, Global};

/// The word of a kind of fault.
fn kind_word(kind: Kind) -> &'static str
    ensures { result.now ≡ kind_word kind }
{
    match kind {
        Kind::Cut => "cut",
        Kind::Long => "long",
        Kind::Word => "word",
        Kind::Later => "later",
        Kind::Field => "field",
        Kind::Value => "value",
        Kind::Tail => "tail",
    }
}

/// The line that says which command is none, and why.
#[tactic(auto, unfolding(crate::specs::Text::fault_line))]
pub(crate) fn fault_text(alloc: Global, number: u64, kind: Kind) -> Result<Vec<u8>, AllocError>
    ensures { IfOk result (λ text. text.items ≡ fault_line number kind) }
{
    let mut text = Vec::new(alloc);
    text.extend_from_slice(b"script ")?;
    text.extend_from_slice(Buffer::new().format(number).as_bytes())?;
    text.extend_from_slice(b" ")?;
    text.extend_from_slice(kind_word(kind).as_bytes())?;
    text.extend_from_slice(b"\n")?;
    Ok(text)
}
