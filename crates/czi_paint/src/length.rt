//! How long a region may be.

ghost use Rattle.std.specs.Prelude.{◌≡◌, None, MatchOption};
ghost use Rattle.czi_doc.specs.QueryView.{query_of};
ghost use Rattle.czi_format.specs.PaintRefusals.{length_cause};
ghost use Rattle.czi_paint.specs.Refusing.{Tells};

use crate::fault::PaintError;
use czi_doc::Query;
use czi_format::REGION_LIMIT;

/// That a region is too long, where it is.
pub(crate) fn too_long(query: &Query) -> Option<PaintError>
    ensures { MatchOption result (length_cause (query_of query.now) ≡ None) (λ error. Tells (length_cause (query_of query.now)) error) }
{
    let bytes = query.w as u128 * query.h as u128 * query.pixel.bytes() as u128;
    if bytes > REGION_LIMIT as u128 {
        return Some(PaintError::TooLong {
            bytes,
            limit: REGION_LIMIT,
        });
    }
    None
}
