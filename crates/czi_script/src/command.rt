//! The commands of a script.

use czi_doc::{AttInfo, Bytes, Dims, EntryInfo, Query};

/// One command of a script.
#[derive(PartialEq, Eq, Drop)]
pub enum Command {
    /// `add`: a subblock is to be added.
    Add {
        /// What the directory entry is to say of it. The spare bytes are zero.
        info: EntryInfo,
        /// Its metadata.
        meta: Bytes,
        /// Its pixel data.
        pixels: Bytes,
        /// Its attachment.
        tail: Bytes,
    },
    /// `replace`: a subblock is to be put in the place of the one that its dimensions name.
    Replace {
        /// What the directory entry is to say of it. The spare bytes are zero.
        info: EntryInfo,
        /// Its metadata.
        meta: Bytes,
        /// Its pixel data.
        pixels: Bytes,
        /// Its attachment.
        tail: Bytes,
    },
    /// `remove`: the subblock with these dimensions is to go.
    Remove {
        /// The dimensions that name the subblock.
        dims: Dims,
    },
    /// `attach`: an attachment is to be added.
    Attach {
        /// What the attachment directory's entry is to say of it.
        info: AttInfo,
        /// Its bytes.
        bytes: Bytes,
    },
    /// `reattach`: an attachment is to be put in the place of the one with its name.
    Reattach {
        /// What the attachment directory's entry is to say of it.
        info: AttInfo,
        /// Its bytes.
        bytes: Bytes,
    },
    /// `detach`: the attachment with this name is to go.
    Detach {
        /// The name, of at most 80 bytes, none of which is zero.
        name: Bytes,
    },
    /// `meta`: the metadata of the image is to be set.
    SetMeta {
        /// The XML.
        xml: Bytes,
        /// What is attached to it.
        tail: Bytes,
    },
    /// `undo`: the last edit that isn't undone yet is to be undone.
    Undo,
    /// `region`: a region of the image is to be painted.
    Region {
        /// What is asked for.
        query: Query,
    },
    /// `list`: the subblocks are to be listed.
    List,
    /// `info`: numbers of the document are to be told.
    Info,
    /// `map`: the free space is to be told.
    Map,
    /// `check`: the segments are to be counted.
    Check,
    /// A command with a payload of which a piece is past its limit. The payload was read, and isn't kept.
    Long {
        /// How many bytes the first such piece has.
        len: u64,
        /// How many it may have.
        limit: u64,
    },
}
