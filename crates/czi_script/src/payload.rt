//! What follows the line of a command.

ghost use Rattle.std.specs.Prelude.{◌≡◌, ◌++◌, option_map, length, nat_lt};
ghost use Rattle.czi_doc.specs.View.{bytes_of};
ghost use Rattle.czi_script.specs.Script.{Brings, first_past, total, with_contents};
ghost use Rattle.czi_script.specs.View.{attachment_of, command_of, payload_of, piece_of, pieces_of, tile_of};
ghost use Rattle.czi_script.specs.Pieces.{HaveSizes, three_pieces};

use crate::command::Command;
use czi_doc::{AttInfo, Bytes, DATA_LIMIT, EntryInfo, TEXT_LIMIT};

/// Whether something is added, or put in the place of another.
#[derive(Clone, Copy, PartialEq, Eq)]
pub(crate) enum Verb {
    /// It is added.
    Add,
    /// It is put in the place of another.
    Replace,
}

/// A subblock, of which metadata, pixel data and attachment follow.
#[derive(PartialEq, Eq, Drop)]
pub(crate) struct Tile {
    /// What is done with it.
    pub(crate) verb: Verb,
    /// Its directory entry.
    pub(crate) info: EntryInfo,
    /// How many bytes of metadata follow.
    pub(crate) meta: u64,
    /// How many bytes of pixel data follow.
    pub(crate) pixels: u64,
    /// How many bytes of attachment follow.
    pub(crate) tail: u64,
}

/// An attachment, of which the bytes follow.
#[derive(PartialEq, Eq, Drop)]
pub(crate) struct Attachment {
    /// What is done with it.
    pub(crate) verb: Verb,
    /// Its directory entry.
    pub(crate) info: AttInfo,
    /// How many bytes follow.
    pub(crate) size: u64,
}

/// The metadata of the image, of which XML and attachment follow.
#[derive(PartialEq, Eq, Drop)]
pub(crate) struct Metadata {
    /// How many bytes of XML follow.
    pub(crate) xml: u64,
    /// How many bytes of attachment follow.
    pub(crate) tail: u64,
}

/// What a payload is.
#[derive(PartialEq, Eq, Drop)]
pub(crate) enum Payload {
    /// A subblock.
    Tile(Tile),
    /// An attachment.
    Attachment(Attachment),
    /// The metadata of the image.
    Metadata(Metadata),
}

/// A piece of a payload.
#[derive(Clone, Copy, PartialEq, Eq)]
pub(crate) struct Piece {
    /// How many bytes it has.
    pub(crate) len: u64,
    /// How many it may have.
    pub(crate) limit: u64,
}

/// The pieces of a payload. One that has fewer than three has empty ones behind them.
#[derive(Clone, Copy, PartialEq, Eq)]
pub(crate) struct Pieces {
    pub(crate) first: Piece,
    pub(crate) second: Piece,
    pub(crate) third: Piece,
}

impl Piece {
    /// No piece: an empty one.
    const NONE: Piece = Piece { len: 0, limit: 0 };

    /// A piece of texts.
    fn text(len: u64) -> Piece
        ensures { piece_of result ≡ record { len = len; limit = TEXT_LIMIT } }
    {
        Piece {
            len,
            limit: TEXT_LIMIT as u64,
        }
    }

    /// A piece of other data.
    fn data(len: u64) -> Piece
        ensures { piece_of result ≡ record { len = len; limit = DATA_LIMIT } }
    {
        Piece {
            len,
            limit: DATA_LIMIT as u64,
        }
    }

    /// Whether it has more bytes than it may have.
    fn is_past(&self) -> bool
        ensures { result ≡ nat_lt self.now.limit self.now.len }
    {
        self.len > self.limit
    }
}

impl Pieces {
    /// How many bytes they have together.
    pub(crate) fn len(&self) -> u128
        ensures { result ≡ total (pieces_of self.now) }
    {
        let first = self.first.len;
        let second = self.second.len;
        let third = self.third.len;
        u128::from(first) + u128::from(second) + u128::from(third)
    }

    /// The first that is past its limit.
    pub(crate) fn past(&self) -> Option<Piece>
        ensures { option_map piece_of result ≡ first_past (pieces_of self.now) }
    {
        if self.first.is_past() {
            Some(self.first)
        } else if self.second.is_past() {
            Some(self.second)
        } else if self.third.is_past() {
            Some(self.third)
        } else {
            None
        }
    }
}

impl Payload {
    /// Its pieces.
    pub(crate) fn pieces(&self) -> Pieces
        ensures { pieces_of result ≡ three_pieces (payload_of self.now) }
    {
        match self {
            Payload::Tile(tile) => Pieces {
                first: Piece::text(tile.meta),
                second: Piece::data(tile.pixels),
                third: Piece::data(tile.tail),
            },
            Payload::Attachment(attachment) => Pieces {
                first: Piece::data(attachment.size),
                second: Piece::NONE,
                third: Piece::NONE,
            },
            Payload::Metadata(metadata) => Pieces {
                first: Piece::text(metadata.xml),
                second: Piece::data(metadata.tail),
                third: Piece::NONE,
            },
        }
    }

    /// The command, by the contents of its pieces.
    pub(crate) fn command(self, first: Bytes, second: Bytes, third: Bytes) -> Command
        requires { HaveSizes (three_pieces (payload_of self)) (bytes_of first) (bytes_of second) (bytes_of third) }
        ensures { command_of result ≡ with_contents (Brings (payload_of self)) (bytes_of first ++ (bytes_of second ++ bytes_of third)) }
    {
        match self {
            Payload::Tile(tile) => tile.command(first, second, third),
            Payload::Attachment(attachment) => attachment.command(first),
            Payload::Metadata(_) => Command::SetMeta {
                xml: first,
                tail: second,
            },
        }
    }
}

impl Tile {
    /// The command, by its contents.
    fn command(self, meta: Bytes, pixels: Bytes, tail: Bytes) -> Command
        requires meta { length (bytes_of meta) ≡ self.meta }
        requires pixels { length (bytes_of pixels) ≡ self.pixels }
        ensures { command_of result ≡ with_contents (Brings (tile_of self)) (bytes_of meta ++ (bytes_of pixels ++ bytes_of tail)) }
    {
        let info = self.info;
        match self.verb {
            Verb::Add => Command::Add {
                info,
                meta,
                pixels,
                tail,
            },
            Verb::Replace => Command::Replace {
                info,
                meta,
                pixels,
                tail,
            },
        }
    }
}

impl Attachment {
    /// The command, by its contents.
    fn command(self, bytes: Bytes) -> Command
        ensures { command_of result ≡ with_contents (Brings (attachment_of self)) (bytes_of bytes) }
    {
        let info = self.info;
        match self.verb {
            Verb::Add => Command::Attach { info, bytes },
            Verb::Replace => Command::Reattach { info, bytes },
        }
    }
}
