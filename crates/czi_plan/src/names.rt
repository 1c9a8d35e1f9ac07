//! The names of attachments, and the attachment with a name.

ghost use Rattle.std.specs.Prelude.{◌≡◌, ◌==◌, ◌≤◌, length, map, not, bytes_eq};
ghost use Rattle.std.specs.List.{prefix_len};
ghost use Rattle.czi_doc.specs.View.{att_of};
ghost use Rattle.czi_format.specs.Key.{attachment_key};
ghost use Rattle.czi_image.specs.View.{att_item_of};
ghost use Rattle.czi_plan.specs.Search.{attachment_with};

use czi_doc::AttInfo;
use czi_image::{AttItem, Index};

/// How many bytes of a name stand before the first zero byte.
fn name_len(name: &[u8]) -> usize
    ensures len { result ≡ prefix_len (λ b. not (b == 0)) name.now }
    ensures inside { result ≤ length name.now }
{
    name.iter().take_while(|byte| **byte != 0).count()
}

/// The key of an attachment: its name up to the first zero byte.
pub fn attachment_key(info: &AttInfo) -> &[u8]
    ensures { result.now ≡ attachment_key (att_of info.now) }
{
    &info.name[..name_len(&info.name)]
}

/// Whether an attachment has a name.
fn has_name(item: &AttItem, name: &[u8]) -> bool
    ensures { result ≡ bytes_eq (attachment_key (att_item_of item.now).entry.info) name.now }
{
    attachment_key(&item.info) == name
}

/// The place of the first attachment with a name.
pub fn attachment_with(index: &Index, name: &[u8]) -> Option<usize>
    ensures { result ≡ attachment_with name.now (map att_item_of index.now.attachments.items) }
{
    for i in 0..index.attachments.len() {
        if has_name(&index.attachments[i], name) {
            return Some(i);
        }
    }
    None
}
