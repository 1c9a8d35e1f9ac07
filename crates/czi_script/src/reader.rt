//! Scripts, read command by command.

ghost use Rattle.std.specs.Prelude.{◌≡◌, ◌≢◌, ◌+◌, ◌^◌, ◌<◌, ◌≤◌, ℕ, List, [], ◌∷◌, length, is_some, IfOk, IfErr, IfSome, OnOk};
ghost use Rattle.std.specs.Option.{ForSome};
ghost use Rattle.czi_rig.specs.Faults.{Counted, fault_at, is_at_input};
ghost use Rattle.czi_script.specs.Reader.{Reader, IsReader, unused, ahead, FindsThere, Leaves, Counts, TakesCounted, kept, lost, script_device};
ghost use Rattle.czi_doc.specs.View.{bytes_of};
ghost use Rattle.czi_script.specs.Script.{Brings, payload_len};
ghost use Rattle.czi_script.specs.View.{head_of, payload_of};
ghost use Rattle.czi_script.specs.Pieces.{IsFront, AtEnd, Fills, FillStops, Lines, LineStops, UsesLine, RefusesLine, EndsLine, TakesSome, Passed, Interrupted, Contents, FeedStops, Finished, PayloadStops};

use crate::command::Command;
use crate::error::ScriptError;
use crate::fields::Refusal;
use crate::filling::Filling;
use crate::head::Head;
use crate::kind::Kind;
use crate::lines::{Front, front_of, head_in};
use crate::payload::{Payload, Piece};
use crate::window::{SIZE, Window};
use czi_doc::Bytes;
use czi_rig::Source;
use std::alloc::{AllocError, Global};
use std::marker::Model;

/// How many bytes are taken of an input at most.
const LIMIT: u64 = 1 << 40;

/// Reads a script from an input, command by command. It keeps a buffer of 64 KiB, and takes as many bytes at once as
/// have room there. What is not there yet of a payload goes straight into the buffers of the command.
#[derive(Drop)]
pub struct ScriptReader {
    window: Window,
    taken: u64,
    commands: u64,
    error: Option<ScriptError>,
    alloc: Global,
}

impl Model for ScriptReader {
    ghost use Rattle.std.specs.Prelude.{◌+◌, ◌^◌, ◌≤◌, length};
    ghost use Rattle.czi_script.specs.Reader.{Reader};

    ghost Value = { Reader };

    ghost view = { λ r. record { held = r.window; taken = r.taken; commands = r.commands; error = r.error } };

    ghost invariant = { λ r. (r.commands + length r.window ≤ r.taken) × (r.taken ≤ 2 ^ 40) };
}

/// Whether the input is at its end, where no more bytes may be taken.
fn ends<S: Source>(input: &mut S) -> Result<(), ScriptError>
    ensures end { OnOk result (AtEnd (S.input input.new).left) }
    ensures same { OnOk result ((S.input input.new).left ≡ (S.input input.old).left) }
    ensures stops { IfErr result (EndsLine (S.input input.old).left (S.input input.new).left) }
    ensures told { is_some (S.input input.new).left ≡ is_some (S.input input.old).left }
    ensures later { (S.input input.old).faults ≤ (S.input input.new).faults }
    ensures cause { Counted (is_at_input (fault_at script_device result)) (S.input input.old).faults (S.input input.new).faults }
{
    match input.take(&mut [0u8; 1]) {
        Ok(0) => Ok(()),
        Ok(_) => Err(ScriptError::TooLong),
        Err(_) => Err(ScriptError::Input),
    }
}

impl ScriptReader {
    /// A reader that has taken nothing.
    ///
    /// # Errors
    ///
    /// Memory is wanting.
    pub fn new(alloc: Global) -> Result<ScriptReader, AllocError>
        ensures { IfOk result (λ r. r ≡ unused) }
    {
        Ok(ScriptReader {
            window: Window::new(alloc)?,
            taken: 0,
            commands: 0,
            error: None,
            alloc,
        })
    }

    /// The fault of the next command.
    fn fault(&self, kind: Kind) -> ScriptError
        ensures { result ≡ ScriptError.Fault (self.now.commands + 1) kind }
    {
        ScriptError::Fault {
            number: self.commands + 1,
            kind,
        }
    }

    /// Keeps an error.
    fn keep(&mut self, error: ScriptError)
        ensures { self.new ≡ record self.old { error = Some error } }
    {
        self.error = Some(error);
    }

    /// Takes more bytes. False at the end of the input.
    fn fill<S: Source>(&mut self, input: &mut S) -> Result<bool, ScriptError>
        requires { length self.old.held < 4096 }
        ensures fills { IfOk result (Fills self.old self.new (S.input input.old).left (S.input input.new).left) }
        ensures sound { IsReader self.new }
        ensures stops { IfErr result (FillStops self.old self.new (S.input input.old).left (S.input input.new).left) }
        ensures told { is_some (S.input input.new).left ≡ is_some (S.input input.old).left }
        ensures later { (S.input input.old).faults ≤ (S.input input.new).faults }
        ensures cause { Counted (is_at_input (fault_at script_device result)) (S.input input.old).faults (S.input input.new).faults }
    {
        let room = LIMIT - self.taken;
        if room == 0 {
            ends(input)?;
            return Ok(false);
        }
        let most = room.min(SIZE as u64) as usize;
        match self.window.fill(input, most) {
            Ok(count) => {
                self.taken += count as u64;
                Ok(count != 0)
            }
            Err(_) => Err(ScriptError::Input),
        }
    }

    /// What the end of the input makes of the bytes that are left.
    fn end(&self) -> Result<Option<usize>, ScriptError>
        ensures none { IfOk result (λ found. (found ≡ None) × (self.now.held ≡ [])) }
        ensures cut { IfErr result (λ error. (error ≡ ScriptError.Fault (self.now.commands + 1) Kind.Cut) × (self.now.held ≢ [])) }
        ensures own { fault_at script_device result ≡ None }
    {
        if self.window.held().is_empty() {
            Ok(None)
        } else {
            Err(self.fault(Kind::Cut))
        }
    }

    /// Takes bytes until a whole line stands in front, and answers how long it is without its line feed. None at
    /// the end of the input behind a whole line.
    fn line<S: Source>(&mut self, input: &mut S) -> Result<Option<usize>, ScriptError>
        ensures lines { IfOk result (Lines self.old self.new (S.input input.old).left (S.input input.new).left) }
        ensures sound { IsReader self.new }
        ensures stops { IfErr result (LineStops self.old self.new (S.input input.old).left (S.input input.new).left) }
        ensures told { is_some (S.input input.new).left ≡ is_some (S.input input.old).left }
        ensures later { (S.input input.old).faults ≤ (S.input input.new).faults }
        ensures cause { Counted (is_at_input (fault_at script_device result)) (S.input input.old).faults (S.input input.new).faults }
    {
        let mut seen = 0;
        loop {
            match front_of(self.window.held(), seen) {
                Front::Line(len) => return Ok(Some(len)),
                Front::Long => return Err(self.fault(Kind::Long)),
                Front::Part => seen = self.window.held().len(),
            }
            if !self.fill(input)? {
                return self.end();
            }
        }
    }

    /// What the line in front says, by its bytes without the line feed. The line is used.
    fn head(&mut self, len: usize) -> Result<Head, ScriptError>
        requires { IsFront self.old.held (Front.Line len) }
        ensures sound { IsReader self.new }
        ensures ok { IfOk result (UsesLine self.old self.new len) }
        ensures err { IfErr result (RefusesLine self.old self.new len) }
        ensures own { fault_at script_device result ≡ None }
    {
        let line = &self.window.held()[..len];
        match head_in(self.alloc, line) {
            Ok(head) => {
                self.window.use_front(len + 1);
                Ok(head)
            }
            Err(Refusal::Kind(kind)) => Err(self.fault(kind)),
            Err(Refusal::Memory) => Err(ScriptError::Memory),
        }
    }

    /// Takes bytes of the input straight into the buffer of a piece, where none is held.
    fn fill_piece<S: Source>(
        &mut self,
        input: &mut S,
        piece: &mut Filling,
    ) -> Result<(), ScriptError>
        requires none { self.old.held ≡ [] }
        requires room { length piece.old.bytes < piece.old.size }
        ensures some { OnOk result (TakesSome self.old self.new (S.input input.old).left (S.input input.new).left piece.old.bytes piece.new.bytes) }
        ensures size { piece.new.size ≡ piece.old.size }
        ensures held { self.new.held ≡ [] }
        ensures sound { IsReader self.new }
        ensures stops { IfErr result (Interrupted self.old self.new (S.input input.old).left (S.input input.new).left 0) }
        ensures told { is_some (S.input input.new).left ≡ is_some (S.input input.old).left }
        ensures later { (S.input input.old).faults ≤ (S.input input.new).faults }
        ensures cause { Counted (is_at_input (fault_at script_device result)) (S.input input.old).faults (S.input input.new).faults }
    {
        let room = LIMIT - self.taken;
        if room == 0 {
            ends(input)?;
            return Err(self.fault(Kind::Cut));
        }
        match piece.fill(input, room) {
            Ok(0) => Err(self.fault(Kind::Cut)),
            Ok(count) => {
                self.taken += count as u64;
                Ok(())
            }
            Err(_) => Err(ScriptError::Input),
        }
    }

    /// The next so many bytes. Those that aren't held yet are taken straight into their buffer.
    fn piece<S: Source>(&mut self, input: &mut S, size: u64) -> Result<Bytes, ScriptError>
        requires { size < 2 ^ 63 }
        ensures ok { IfOk result (λ b. Passed self.old self.new (S.input input.old).left (S.input input.new).left (bytes_of b) × (length (bytes_of b) ≡ size)) }
        ensures sound { IsReader self.new }
        ensures stops { IfErr result (Interrupted self.old self.new (S.input input.old).left (S.input input.new).left size) }
        ensures told { is_some (S.input input.new).left ≡ is_some (S.input input.old).left }
        ensures later { (S.input input.old).faults ≤ (S.input input.new).faults }
        ensures cause { Counted (is_at_input (fault_at script_device result)) (S.input input.old).faults (S.input input.new).faults }
    {
        let Ok(mut piece) = Filling::new(self.alloc, size as usize) else {
            return Err(ScriptError::Memory);
        };
        let front = self.window.held().len().min(size as usize);
        piece.add(&self.window.held()[..front]);
        self.window.use_front(front);
        while piece.room() > 0 {
            self.fill_piece(input, &mut piece)?;
        }
        Ok(piece.finish())
    }

    /// Takes so many bytes and keeps none.
    fn skip<S: Source>(&mut self, input: &mut S, count: u128) -> Result<(), ScriptError>
        ensures ok { OnOk result ((bytes : List ℕ) × Passed self.old self.new (S.input input.old).left (S.input input.new).left bytes × (length bytes ≡ count)) }
        ensures sound { IsReader self.new }
        ensures stops { IfErr result (Interrupted self.old self.new (S.input input.old).left (S.input input.new).left count) }
        ensures told { is_some (S.input input.new).left ≡ is_some (S.input input.old).left }
        ensures later { (S.input input.old).faults ≤ (S.input input.new).faults }
        ensures cause { Counted (is_at_input (fault_at script_device result)) (S.input input.old).faults (S.input input.new).faults }
    {
        let mut left = count;
        loop {
            let front = left.min(self.window.held().len() as u128);
            self.window.use_front(front as usize);
            left -= front;
            if left == 0 {
                return Ok(());
            }
            if !self.fill(input)? {
                return Err(self.fault(Kind::Cut));
            }
        }
    }

    /// The payload of a line, as a command. Where a piece is past its limit none is kept.
    fn contents<S: Source>(
        &mut self,
        input: &mut S,
        payload: Payload,
    ) -> Result<Command, ScriptError>
        ensures ok { IfOk result (Contents self.old self.new (S.input input.old).left (S.input input.new).left (Brings (payload_of payload))) }
        ensures sound { IsReader self.new }
        ensures stops { IfErr result (Interrupted self.old self.new (S.input input.old).left (S.input input.new).left (payload_len (Brings (payload_of payload)))) }
        ensures told { is_some (S.input input.new).left ≡ is_some (S.input input.old).left }
        ensures later { (S.input input.old).faults ≤ (S.input input.new).faults }
        ensures cause { Counted (is_at_input (fault_at script_device result)) (S.input input.old).faults (S.input input.new).faults }
    {
        let pieces = payload.pieces();
        if let Some(Piece { len, limit }) = pieces.past() {
            self.skip(input, pieces.len())?;
            return Ok(Command::Long { len, limit });
        }
        let first = self.piece(input, pieces.first.len)?;
        let second = self.piece(input, pieces.second.len)?;
        let third = self.piece(input, pieces.third.len)?;
        Ok(payload.command(first, second, third))
    }

    /// Sees that a byte is held.
    fn some<S: Source>(&mut self, input: &mut S) -> Result<(), ScriptError>
        ensures ok { OnOk result (Passed self.old self.new (S.input input.old).left (S.input input.new).left []) }
        ensures some { OnOk result (self.new.held ≢ []) }
        ensures sound { IsReader self.new }
        ensures stops { IfErr result (Interrupted self.old self.new (S.input input.old).left (S.input input.new).left 0) }
        ensures told { is_some (S.input input.new).left ≡ is_some (S.input input.old).left }
        ensures later { (S.input input.old).faults ≤ (S.input input.new).faults }
        ensures cause { Counted (is_at_input (fault_at script_device result)) (S.input input.old).faults (S.input input.new).faults }
    {
        if !self.window.held().is_empty() {
            return Ok(());
        }
        if self.fill(input)? {
            Ok(())
        } else {
            Err(self.fault(Kind::Cut))
        }
    }

    /// The line feed behind a payload.
    fn feed<S: Source>(&mut self, input: &mut S) -> Result<(), ScriptError>
        ensures ok { OnOk result (Passed self.old self.new (S.input input.old).left (S.input input.new).left (10 ∷ [])) }
        ensures sound { IsReader self.new }
        ensures stops { IfErr result (FeedStops self.old self.new (S.input input.old).left (S.input input.new).left) }
        ensures told { is_some (S.input input.new).left ≡ is_some (S.input input.old).left }
        ensures later { (S.input input.old).faults ≤ (S.input input.new).faults }
        ensures cause { Counted (is_at_input (fault_at script_device result)) (S.input input.old).faults (S.input input.new).faults }
    {
        self.some(input)?;
        if self.window.held().first() != Some(&b'\n') {
            return Err(self.fault(Kind::Tail));
        }
        self.window.use_front(1);
        Ok(())
    }

    /// The command of a line that is used, with its payload.
    fn command<S: Source>(&mut self, input: &mut S, head: Head) -> Result<Command, ScriptError>
        requires sound { IsReader self.old }
        ensures ok { IfOk result (Finished self.old self.new (S.input input.old).left (S.input input.new).left (head_of head)) }
        ensures sound { IsReader self.new }
        ensures stops { IfErr result (PayloadStops self.old self.new (S.input input.old).left (S.input input.new).left (head_of head)) }
        ensures told { is_some (S.input input.new).left ≡ is_some (S.input input.old).left }
        ensures later { (S.input input.old).faults ≤ (S.input input.new).faults }
        ensures cause { Counted (is_at_input (fault_at script_device result)) (S.input input.old).faults (S.input input.new).faults }
    {
        match head {
            Head::Alone(plain) => Ok(plain.command()),
            Head::Brings(payload) => {
                let command = self.contents(input, payload)?;
                self.feed(input)?;
                Ok(command)
            }
        }
    }

    /// The next command, of a reader without an error.
    fn read<S: Source>(&mut self, input: &mut S) -> Result<Option<Command>, ScriptError>
        ensures finds { ForSome (ahead self.old (S.input input.old).left) (λ bytes. FindsThere self.old bytes result) }
        ensures leaves { Leaves self.old self.new (S.input input.old).left (S.input input.new).left result }
        ensures takes { TakesCounted self.old self.new (S.input input.old).left (S.input input.new).left (lost result) }
        ensures counts { Counts self.old self.new result }
        ensures sound { IsReader self.new }
        ensures error { self.new.error ≡ self.old.error }
        ensures told { is_some (S.input input.new).left ≡ is_some (S.input input.old).left }
        ensures later { (S.input input.old).faults ≤ (S.input input.new).faults }
        ensures cause { Counted (is_at_input (fault_at script_device result)) (S.input input.old).faults (S.input input.new).faults }
    {
        let Some(len) = self.line(input)? else {
            return Ok(None);
        };
        let head = self.head(len)?;
        let command = self.command(input, head)?;
        self.commands += 1;
        Ok(Some(command))
    }

    /// The next command of the script, or None where the input is at its end behind a whole command.
    ///
    /// # Errors
    ///
    /// `Fault` where the bytes ahead begin with no command, `Input` where a call of the input failed, `TooLong` where
    /// 2^40 bytes of it did not suffice and it goes on, or `Memory`. The bytes of an unfinished command may be gone
    /// then. Each later call answers the same, and takes nothing.
    pub fn next<S: Source>(&mut self, input: &mut S) -> Result<Option<Command>, ScriptError>
        ensures finds { self.old.error ≡ None → ForSome (ahead self.old (S.input input.old).left) (λ bytes. FindsThere self.old bytes result) }
        ensures leaves { self.old.error ≡ None → Leaves self.old self.new (S.input input.old).left (S.input input.new).left result }
        ensures takes { self.old.error ≡ None → TakesCounted self.old self.new (S.input input.old).left (S.input input.new).left (lost result) }
        ensures counts { self.old.error ≡ None → Counts self.old self.new result }
        ensures cause { self.old.error ≡ None → Counted (is_at_input (fault_at script_device result)) (S.input input.old).faults (S.input input.new).faults }
        ensures keeps { self.new.error ≡ kept result }
        ensures again { IfSome self.old.error (λ error. (result ≡ Err error) × (self.new ≡ self.old) × (input.new ≡ input.old)) }
        ensures sound { IsReader self.new }
        ensures told { is_some (S.input input.new).left ≡ is_some (S.input input.old).left }
        ensures later { (S.input input.old).faults ≤ (S.input input.new).faults }
    {
        if let Some(error) = self.error {
            return Err(error);
        }
        match self.read(input) {
            Ok(found) => Ok(found),
            Err(error) => {
                self.keep(error);
                Err(error)
            }
        }
    }
}
