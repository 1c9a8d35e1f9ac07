//! The lines of attachments and of the metadata.

ghost use Rattle.std.specs.Prelude.{◌≡◌, ℕ, [], ◌∷◌, codes, option_map, MatchOption, MatchResult};
ghost use Rattle.czi_doc.specs.View.{att_of};
ghost use Rattle.czi_script.specs.Script.{AttachmentValues, IsSize, attachment_fields, attachment_word, metadata_fields, needed, values_at};
ghost use Rattle.czi_script.specs.View.{head_of, verb_of};
ghost use Rattle.czi_script.specs.Pieces.{RefusesAttachment, RefusesFields, SaysFields, names_in, two_values};

use crate::bytes_text::{guid_by, padded_by};
use crate::fields::{Refusal, len_before, one_value, value_at};
use crate::head::{Head, Plain};
use crate::kind::Kind;
use crate::payload::{Attachment, Metadata, Payload, Verb};
use czi_doc::{AttInfo, Bytes, read_natural};
use std::alloc::{AllocError, Global};

/// The most bytes of an attachment's name.
const NAME: usize = 80;

/// The values of an attachment's line.
#[derive(Clone, Copy)]
pub(crate) struct Names<'a> {
    guid: &'a [u8],
    kind: &'a [u8],
    name: &'a [u8],
    size: &'a [u8],
}

/// The values of the fields of an attachment's line. None where the fields aren't right.
fn names_by(fields: &[u8]) -> Option<Names<'_>>
    ensures { option_map names_in result ≡ values_at attachment_fields fields.now }
{
    let (guid, rest) = value_at(b" guid=", fields)?;
    let (kind, rest) = value_at(b" type=", rest)?;
    let (name, rest) = value_at(b" name=", rest)?;
    let size = one_value(b" data=", rest)?;
    Some(Names {
        guid,
        kind,
        name,
        size,
    })
}

/// What the values of an attachment's line say.
fn attachment_by(verb: Verb, names: &Names<'_>) -> Option<Attachment>
    ensures { MatchOption result (RefusesAttachment names.now) (λ a. (a.verb ≡ verb) × AttachmentValues (att_of a.info) a.size (names_in names.now)) }
{
    let info = AttInfo {
        guid: guid_by(names.guid)?,
        kind: padded_by(names.kind)?,
        name: padded_by(names.name)?,
    };
    let size = read_natural(names.size)?;
    Some(Attachment { verb, info, size })
}

/// What the line of an attachment says, by its fields.
pub(crate) fn attachment_in(verb: Verb, fields: &[u8]) -> Result<Head, Refusal>
    ensures { MatchResult result (λ h. SaysFields (attachment_word (verb_of verb)) attachment_fields fields.now (head_of h)) (RefusesFields (attachment_word (verb_of verb)) attachment_fields fields.now) }
{
    let Some(names) = names_by(fields) else {
        return Err(Refusal::Kind(Kind::Field));
    };
    match attachment_by(verb, &names) {
        Some(attachment) => Ok(Head::Brings(Payload::Attachment(attachment))),
        None => Err(Refusal::Kind(Kind::Value)),
    }
}

/// What the line of `detach` says, by its fields.
pub(crate) fn detach_in(alloc: Global, fields: &[u8]) -> Result<Head, Refusal>
    ensures { MatchResult result (λ h. SaysFields (codes "detach") (needed (codes " name=") ∷ []) fields.now (head_of h)) (RefusesFields (codes "detach") (needed (codes " name=") ∷ []) fields.now) }
{
    let Some(text) = one_value(b" name=", fields) else {
        return Err(Refusal::Kind(Kind::Field));
    };
    let Some(name) = padded_by::<NAME>(text) else {
        return Err(Refusal::Kind(Kind::Value));
    };
    match Vec::from_slice(alloc, &name[..len_before(0, &name)]) {
        Ok(list) => Ok(Head::Alone(Plain::Detach(Bytes::new(list)))),
        Err(AllocError) => Err(Refusal::Memory),
    }
}

/// The values of the fields of `meta`. None where the fields aren't right.
fn sizes_by(fields: &[u8]) -> Option<(&[u8], &[u8])>
    ensures { option_map two_values result ≡ values_at metadata_fields fields.now }
{
    let (xml, rest) = value_at(b" xml=", fields)?;
    let tail = one_value(b" att=", rest)?;
    Some((xml, tail))
}

/// What the values of the line of `meta` say.
fn metadata_by(xml: &[u8], tail: &[u8]) -> Option<Metadata>
    ensures { MatchOption result ((m n : ℕ) → IsSize xml.now m → IsSize tail.now n → ⊥) (λ sizes. IsSize xml.now sizes.xml × IsSize tail.now sizes.tail) }
{
    let xml = read_natural(xml)?;
    let tail = read_natural(tail)?;
    Some(Metadata { xml, tail })
}

/// What the line of `meta` says, by its fields.
pub(crate) fn metadata_in(fields: &[u8]) -> Result<Head, Refusal>
    ensures { MatchResult result (λ h. SaysFields (codes "meta") metadata_fields fields.now (head_of h)) (RefusesFields (codes "meta") metadata_fields fields.now) }
{
    let Some((xml, tail)) = sizes_by(fields) else {
        return Err(Refusal::Kind(Kind::Field));
    };
    match metadata_by(xml, tail) {
        Some(metadata) => Ok(Head::Brings(Payload::Metadata(metadata))),
        None => Err(Refusal::Kind(Kind::Value)),
    }
}
