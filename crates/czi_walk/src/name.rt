//! Ids that are names.

ghost use Rattle.std.specs.Prelude.{◌≡◌, ◌==◌};
ghost use Rattle.std.specs.List.{list_all};
ghost use Rattle.czi_format.specs.Walk.{is_name};

/// One or more bytes from 0x20 to 0x7E, and then zero bytes only.
pub(crate) fn is_name(id: &[u8]) -> bool
    ensures { result ≡ is_name id.now }
{
    if id.is_empty() {
        return false;
    }
    let rest = &id[1..];
    0x20 <= id[0] && id[0] <= 0x7E && (all_zero(rest) || is_name(rest))
}

/// Zero bytes only.
fn all_zero(bytes: &[u8]) -> bool
    ensures { result ≡ list_all (λ c. c == 0) bytes.now }
{
    bytes.iter().all(|c| *c == 0)
}
