//! What refuses an edit before it is planned: limits on what it brings, and keys.

ghost use Rattle.std.specs.Prelude.{◌≡◌, ◌<◌, None, Some, IfOk, IfErr, OnOk};
ghost use Rattle.czi_machine.specs.Edit.{fits};
ghost use Rattle.czi_engine.specs.Limits.{TellsNew, TellsOf, attachment_pieces, first_past_limit, metadata_pieces, subblock_pieces};
ghost use Rattle.czi_engine.specs.declared.error.EditError.TheVariants.{NoKey};

use crate::error::EditError;
use czi_doc::{DATA_LIMIT, TEXT_LIMIT};

/// Whether a piece is within its limit.
fn check_piece(piece: &[u8], limit: usize) -> Result<(), EditError>
    ensures within { OnOk result (fits piece.now limit ≡ None) }
    ensures past { IfErr result (TellsOf (fits piece.now limit)) }
{
    if piece.len() > limit {
        return Err(EditError::TooLong {
            len: piece.len() as u64,
            limit: limit as u64,
        });
    }
    Ok(())
}

/// Whether the pieces of a new subblock are within their limits. The first that isn't is told.
pub(crate) fn check_subblock(meta: &[u8], pixels: &[u8], tail: &[u8]) -> Result<(), EditError>
    ensures within { OnOk result (first_past_limit (subblock_pieces meta.now pixels.now tail.now) ≡ None) }
    ensures past { IfErr result (TellsOf (first_past_limit (subblock_pieces meta.now pixels.now tail.now))) }
{
    check_piece(meta, TEXT_LIMIT)?;
    check_piece(pixels, DATA_LIMIT)?;
    check_piece(tail, DATA_LIMIT)
}

/// Whether the bytes of a new attachment are within their limit.
pub(crate) fn check_attachment(bytes: &[u8]) -> Result<(), EditError>
    ensures within { OnOk result (first_past_limit (attachment_pieces bytes.now) ≡ None) }
    ensures past { IfErr result (TellsOf (first_past_limit (attachment_pieces bytes.now))) }
{
    check_piece(bytes, DATA_LIMIT)
}

/// Whether the pieces of new metadata are within their limits. The first that isn't is told.
pub(crate) fn check_metadata(xml: &[u8], tail: &[u8]) -> Result<(), EditError>
    ensures within { OnOk result (first_past_limit (metadata_pieces xml.now tail.now) ≡ None) }
    ensures past { IfErr result (TellsOf (first_past_limit (metadata_pieces xml.now tail.now))) }
{
    check_piece(xml, TEXT_LIMIT)?;
    check_piece(tail, DATA_LIMIT)
}

/// Whether one more item may come to a list of so many: none has its key, as was looked for, and the list isn't full.
pub(crate) fn check_new(there: Option<usize>, count: usize, limit: usize) -> Result<(), EditError>
    ensures unknown { OnOk result (there ≡ None) }
    ensures room { OnOk result (count < limit) }
    ensures told { IfErr result (TellsNew there count limit) }
{
    if let Some(place) = there {
        return Err(EditError::Duplicate(place as u64));
    }
    if count >= limit {
        return Err(EditError::TooMany(count as u64));
    }
    Ok(())
}

/// The place of the item with a key, as was looked for.
pub(crate) fn check_known(there: Option<usize>) -> Result<usize, EditError>
    ensures place { IfOk result (λ i. there ≡ Some i) }
    ensures told { IfErr result (λ error. (error ≡ NoKey) × (there ≡ None)) }
{
    match there {
        Some(place) => Ok(place),
        None => Err(EditError::NoKey),
    }
}
