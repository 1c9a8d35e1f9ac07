//! The engine as an editor of a session.

ghost use Rattle.std.specs.Prelude.{◌≡◌, ◌++◌, IfErr, IfSome, OnOk};
ghost use Rattle.czi_doc.specs.View.{att_of, bytes_of, dims_of, info_of};
ghost use Rattle.czi_format.specs.Live.{Live};
ghost use Rattle.czi_format.specs.Layout.{Layout};
ghost use Rattle.czi_image.specs.Holds.{Holds, LiesAs};
ghost use Rattle.czi_machine.specs.Edit.{too_long};
ghost use Rattle.czi_report.specs.Replies.{no_line};
ghost use Rattle.czi_report.specs.States.{check_of};
ghost use Rattle.czi_report.specs.Text.{info_text, list_text, map_text};
ghost use Rattle.czi_script.specs.Script.{Add, Attach, Detach, Reattach, Remove, Replace, SetMeta, Undo};
ghost use Rattle.czi_space.specs.State.{space_of};
ghost use Rattle.czi_doc.specs.QueryView.{query_of};
ghost use Rattle.czi_tiles.specs.Grid.{IsGrid};
ghost use Rattle.czi_editor.specs.Answering.{MayGoOn, Owes, goes_on_of, piece_of, rows_left};
ghost use Rattle.czi_editor.specs.Painted.{IsBegun};
ghost use Rattle.czi_editor.specs.Laws.{begins_unsealed_of, each_says, refused_once_of, rests_now_of};
ghost use Rattle.czi_editor.specs.Machine.{AtState, IsReady, the_machine};
ghost use Rattle.czi_editor.specs.Performs.{Performs};

use crate::painting::{Painting, begun, grid_of};
use crate::refusal::stop_of;
use crate::reply::{push_answer, push_undone, take_room};
use czi_doc::{AttInfo, Bytes, Dims, EntryInfo, Query};
use czi_engine::Engine;
use czi_report::{check, info, list, map, push_no_long};
use czi_rig::{Failed, Rig};
use czi_script::Command;
use czi_session::{Editor, EditorStop, OpenStop};
use czi_tiles::TileGrid;
use std::alloc::{AllocError, Global};

/// An engine, whose commands and replies are those of a script.
#[derive(Drop)]
pub struct ImageEditor {
    engine: Engine,
    /// What is replied first: a whole reply, or the head of a region.
    reply: Vec<u8>,
    /// The region that is being painted.
    painting: Option<Painting>,
    /// Where the tiles stand, from one region to the next, until an edit.
    grid: Option<TileGrid>,
}

/// Adds a subblock, and appends the reply.
fn add<R: Rig>(
    engine: &mut Engine,
    rig: &mut R,
    info: &EntryInfo,
    meta: &Bytes,
    pixels: &Bytes,
    tail: &Bytes,
    reply: &mut Vec<u8>,
) -> Result<(), EditorStop>
    requires ready { IsReady engine.old (R.state rig.old) }
    ensures { Performs R.Rig (Add (info_of info.now) (bytes_of meta.now) (bytes_of pixels.now) (bytes_of tail.now)) rig.old rig.new engine.old engine.new reply.old.items reply.new.items result }
{
    take_room(reply)?;
    let answer = engine.add(
        rig,
        info,
        meta.as_slice(),
        pixels.as_slice(),
        tail.as_slice(),
    );
    push_answer(answer, reply)
}

/// Puts a subblock into the place of the one with its key, and appends the reply.
fn replace<R: Rig>(
    engine: &mut Engine,
    rig: &mut R,
    info: &EntryInfo,
    meta: &Bytes,
    pixels: &Bytes,
    tail: &Bytes,
    reply: &mut Vec<u8>,
) -> Result<(), EditorStop>
    requires ready { IsReady engine.old (R.state rig.old) }
    ensures { Performs R.Rig (Replace (info_of info.now) (bytes_of meta.now) (bytes_of pixels.now) (bytes_of tail.now)) rig.old rig.new engine.old engine.new reply.old.items reply.new.items result }
{
    take_room(reply)?;
    let answer = engine.replace(
        rig,
        info,
        meta.as_slice(),
        pixels.as_slice(),
        tail.as_slice(),
    );
    push_answer(answer, reply)
}

/// Removes a subblock, and appends the reply.
fn remove<R: Rig>(
    engine: &mut Engine,
    rig: &mut R,
    dims: &Dims,
    reply: &mut Vec<u8>,
) -> Result<(), EditorStop>
    requires ready { IsReady engine.old (R.state rig.old) }
    ensures { Performs R.Rig (Remove (dims_of dims.now)) rig.old rig.new engine.old engine.new reply.old.items reply.new.items result }
{
    take_room(reply)?;
    let answer = engine.remove(rig, dims);
    push_answer(answer, reply)
}

/// Adds an attachment, and appends the reply.
fn attach<R: Rig>(
    engine: &mut Engine,
    rig: &mut R,
    info: &AttInfo,
    bytes: &Bytes,
    reply: &mut Vec<u8>,
) -> Result<(), EditorStop>
    requires ready { IsReady engine.old (R.state rig.old) }
    ensures { Performs R.Rig (Attach (att_of info.now) (bytes_of bytes.now)) rig.old rig.new engine.old engine.new reply.old.items reply.new.items result }
{
    take_room(reply)?;
    let answer = engine.attach(rig, info, bytes.as_slice());
    push_answer(answer, reply)
}

/// Puts an attachment into the place of the one with its name, and appends the reply.
fn reattach<R: Rig>(
    engine: &mut Engine,
    rig: &mut R,
    info: &AttInfo,
    bytes: &Bytes,
    reply: &mut Vec<u8>,
) -> Result<(), EditorStop>
    requires ready { IsReady engine.old (R.state rig.old) }
    ensures { Performs R.Rig (Reattach (att_of info.now) (bytes_of bytes.now)) rig.old rig.new engine.old engine.new reply.old.items reply.new.items result }
{
    take_room(reply)?;
    let answer = engine.reattach(rig, info, bytes.as_slice());
    push_answer(answer, reply)
}

/// Detaches the attachment with this name, and appends the reply.
fn detach<R: Rig>(
    engine: &mut Engine,
    rig: &mut R,
    name: &Bytes,
    reply: &mut Vec<u8>,
) -> Result<(), EditorStop>
    requires ready { IsReady engine.old (R.state rig.old) }
    ensures { Performs R.Rig (Detach (bytes_of name.now)) rig.old rig.new engine.old engine.new reply.old.items reply.new.items result }
{
    take_room(reply)?;
    let answer = engine.detach(rig, name.as_slice());
    push_answer(answer, reply)
}

/// Sets the metadata, and appends the reply.
fn set_meta<R: Rig>(
    engine: &mut Engine,
    rig: &mut R,
    xml: &Bytes,
    tail: &Bytes,
    reply: &mut Vec<u8>,
) -> Result<(), EditorStop>
    requires ready { IsReady engine.old (R.state rig.old) }
    ensures { Performs R.Rig (SetMeta (bytes_of xml.now) (bytes_of tail.now)) rig.old rig.new engine.old engine.new reply.old.items reply.new.items result }
{
    take_room(reply)?;
    let answer = engine.set_meta(rig, xml.as_slice(), tail.as_slice());
    push_answer(answer, reply)
}

/// Undoes the last edit that isn't undone yet, and appends the reply.
fn undo<R: Rig>(engine: &mut Engine, rig: &mut R, reply: &mut Vec<u8>) -> Result<(), EditorStop>
    requires ready { IsReady engine.old (R.state rig.old) }
    ensures { Performs R.Rig Undo rig.old rig.new engine.old engine.new reply.old.items reply.new.items result }
{
    take_room(reply)?;
    let answer = engine.undo(rig);
    push_undone(answer, reply)
}

/// Appends that a piece of a payload is past its limit.
fn push_long(len: u64, limit: u64, reply: &mut Vec<u8>) -> Result<(), EditorStop>
    ensures said { OnOk result (reply.new.items ≡ reply.old.items ++ no_line (too_long len limit)) }
    ensures stopped { IfErr result (λ stop. stop ≡ EditorStop.Memory) }
{
    match push_no_long(len, limit, reply) {
        Ok(()) => Ok(()),
        Err(AllocError) => Err(EditorStop::Memory),
    }
}

/// Appends the list of the subblocks.
fn push_list(engine: &Engine, reply: &mut Vec<u8>) -> Result<(), EditorStop>
    ensures said { OnOk result ((live : Live) → Holds live engine.now.state.index → reply.new.items ≡ reply.old.items ++ list_text live) }
    ensures stopped { IfErr result (λ stop. stop ≡ EditorStop.Memory) }
{
    match list(engine.index(), reply) {
        Ok(()) => Ok(()),
        Err(AllocError) => Err(EditorStop::Memory),
    }
}

/// Appends what the image holds, and where it lies.
fn push_info(engine: &Engine, reply: &mut Vec<u8>) -> Result<(), EditorStop>
    ensures said { OnOk result ((live : Live) → Holds live engine.now.state.index → reply.new.items ≡ reply.old.items ++ info_text engine.now.state.index.length live) }
    ensures stopped { IfErr result (λ stop. stop ≡ EditorStop.Memory) }
{
    match info(engine.index(), reply) {
        Ok(()) => Ok(()),
        Err(AllocError) => Err(EditorStop::Memory),
    }
}

/// Appends where space is free, and where it is held back.
fn push_map(engine: &Engine, reply: &mut Vec<u8>) -> Result<(), EditorStop>
    ensures said { OnOk result (reply.new.items ≡ reply.old.items ++ map_text engine.now.state.map.length (space_of engine.now.state.map).runs engine.now.state.map.held) }
    ensures stopped { IfErr result (λ stop. stop ≡ EditorStop.Memory) }
{
    match map(engine.map(), reply) {
        Ok(()) => Ok(()),
        Err(AllocError) => Err(EditorStop::Memory),
    }
}

/// Appends how much of the image is what.
fn push_check(engine: &Engine, reply: &mut Vec<u8>) -> Result<(), EditorStop>
    ensures said { OnOk result ((l : Layout) → LiesAs l engine.now.state.index → reply.new.items ≡ reply.old.items ++ check_of l) }
    ensures stopped { IfErr result (λ stop. stop ≡ EditorStop.Memory) }
{
    match check(engine.index(), reply) {
        Ok(()) => Ok(()),
        Err(AllocError) => Err(EditorStop::Memory),
    }
}

impl ImageEditor {
    /// Begins to paint a region, or says why it isn't painted.
    fn paint(&mut self, query: &Query) -> Result<(), EditorStop>
        requires grid { IfSome self.old.grid (IsGrid self.old.engine.state.index.tiles.items) }
        ensures engine { self.new.engine ≡ self.old.engine }
        ensures grid { OnOk result (IfSome self.new.grid (IsGrid self.old.engine.state.index.tiles.items)) }
        ensures begun { OnOk result (IsBegun (query_of query.now) self.old.engine.state.index.tiles.items self.old.reply.items self.new.reply.items self.new.painting) }
        ensures stopped { IfErr result (λ stop. stop ≡ EditorStop.Memory) }
    {
        let alloc = *self.reply.allocator();
        let tiles = &self.engine.index().tiles;
        let grid = grid_of(alloc, tiles, self.grid.take())?;
        self.painting = begun(alloc, tiles, &grid, query, &mut self.reply)?;
        self.grid = Some(grid);
        Ok(())
    }
}

impl Editor for ImageEditor {
    ghost model = { the_machine };

    ghost stands = { λ editor image journal b. AtState editor.engine image journal b };

    ghost ready = { λ editor s. MayGoOn editor s };

    ghost says = { λ editor. piece_of editor.painting editor.reply.items };

    ghost owes = { λ editor b rest. Owes editor.painting editor.engine.state.index.tiles.items b.state.document.subblocks rest };

    ghost pieces_left = { λ editor. rows_left editor.painting };

    ghost stays_ready = { λ editor old new ready files goes. goes_on_of editor old new ready files goes };

    ghost rests_now = { λ editor image journal b at. rests_now_of editor.engine image journal b at };

    ghost begins_unsealed = { λ image journal b begins. begins_unsealed_of image journal b begins };

    ghost refused_once = { λ image journal text other refused again. refused_once_of image journal text other refused again };

    ghost says_something = { λ b c. each_says b.state c };

    fn open<R: Rig>(alloc: Global, rig: &mut R) -> Result<ImageEditor, OpenStop> {
        match Engine::open(alloc, rig) {
            Ok(engine) => Ok(ImageEditor {
                engine,
                reply: Vec::new(alloc),
                painting: None,
                grid: None,
            }),
            Err(error) => Err(stop_of(alloc, &error)),
        }
    }

    fn perform<R: Rig>(&mut self, rig: &mut R, command: &Command) -> Result<(), EditorStop> {
        self.painting = None;
        self.reply.clear();
        match command {
            Command::Add {
                info,
                meta,
                pixels,
                tail,
            } => {
                self.grid = None;
                add(
                    &mut self.engine,
                    rig,
                    info,
                    meta,
                    pixels,
                    tail,
                    &mut self.reply,
                )
            }
            Command::Replace {
                info,
                meta,
                pixels,
                tail,
            } => {
                self.grid = None;
                replace(
                    &mut self.engine,
                    rig,
                    info,
                    meta,
                    pixels,
                    tail,
                    &mut self.reply,
                )
            }
            Command::Remove { dims } => {
                self.grid = None;
                remove(&mut self.engine, rig, dims, &mut self.reply)
            }
            Command::Attach { info, bytes } => {
                self.grid = None;
                attach(&mut self.engine, rig, info, bytes, &mut self.reply)
            }
            Command::Reattach { info, bytes } => {
                self.grid = None;
                reattach(&mut self.engine, rig, info, bytes, &mut self.reply)
            }
            Command::Detach { name } => {
                self.grid = None;
                detach(&mut self.engine, rig, name, &mut self.reply)
            }
            Command::SetMeta { xml, tail } => {
                self.grid = None;
                set_meta(&mut self.engine, rig, xml, tail, &mut self.reply)
            }
            Command::Undo => {
                self.grid = None;
                undo(&mut self.engine, rig, &mut self.reply)
            }
            Command::Region { query } => self.paint(query),
            Command::List => push_list(&self.engine, &mut self.reply),
            Command::Info => push_info(&self.engine, &mut self.reply),
            Command::Map => push_map(&self.engine, &mut self.reply),
            Command::Check => push_check(&self.engine, &mut self.reply),
            Command::Long { len, limit } => push_long(*len, *limit, &mut self.reply),
        }
    }

    fn piece(&self) -> &[u8] {
        match &self.painting {
            Some(painting) if painting.begun => &painting.row,
            _ => &self.reply,
        }
    }

    fn next_piece<R: Rig>(&mut self, rig: &mut R) -> Result<bool, Failed> {
        match &mut self.painting {
            Some(painting) => painting.next_row(rig),
            None => Ok(false),
        }
    }

    fn seal<R: Rig>(self, rig: &mut R) -> Result<(), Failed> {
        self.engine.seal(rig)
    }
}
