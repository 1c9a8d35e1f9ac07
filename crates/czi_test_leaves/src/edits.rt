use std::process::Abort;

/// The bytes with some of them changed, each to the number beside its place.
pub fn edited<const N: usize>(rt: &impl Abort, bytes: &[u8; N], edits: &[(usize, u8)]) -> [u8; N] {
    let mut out = *bytes;
    for (place, byte) in edits.iter() {
        assert!(rt; *place < N);
        out[*place] = *byte;
    }
    out
}
