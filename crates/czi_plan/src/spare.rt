//! Lists that have memory for what is put into them.

ghost use Rattle.std.specs.Prelude.{◌≡◌, ◌+◌, ◌<◌, ◌≤◌, ◌++◌, ◌∷◌, [], length, vec_len, vec_capacity};

use czi_num::Span;

/// Puts an item behind the others, in memory that there is for it.
pub fn put<T: Drop>(list: &mut Vec<T>, item: T)
    requires { vec_len list.old < vec_capacity list.old }
    ensures items { list.new.items ≡ list.old.items ++ item ∷ [] }
    ensures len { vec_len list.new ≡ vec_len list.old + 1 }
    ensures capacity { vec_capacity list.old ≤ vec_capacity list.new }
{
    let _ = list.push(item);
}

/// Puts spans behind the others, in memory that there is for them.
pub fn put_all(list: &mut Vec<Span>, spans: &[Span])
    requires { vec_len list.old + length spans.now ≤ vec_capacity list.old }
    ensures items { list.new.items ≡ list.old.items ++ spans.now }
    ensures len { vec_len list.new ≡ vec_len list.old + length spans.now }
    ensures capacity { vec_capacity list.old ≤ vec_capacity list.new }
{
    let _ = list.extend_from_slice(spans);
}
