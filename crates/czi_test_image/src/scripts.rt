//! `czi_script`: the commands and the faults of scripts.

ghost use Rattle.std.specs.Prelude.{None};
ghost use Rattle.czi_rig.specs.MemSource.{input_in};

use czi_doc::{Bytes, EntryInfo, read_dims};
use czi_rig::{Failed, MemSource, Source};
use czi_script::{
    Command, Kind, ScriptError, ScriptReader, faults_show, faults_stay, no_spelling_begins_another,
    one_answer, one_kind, one_reading, reading_goes_on,
};
use std::alloc::{AllocError, Global};
use std::process::Abort;
use std::test::Fail;

// An input that gives one byte at a time, and doesn't tell what is left.
#[derive(Drop)]
struct Drip {
    source: MemSource,
}

impl Source for Drip {
    ghost input = { λ s. record { left = None; faults = (input_in s.source).faults } };

    fn take(&mut self, into: &mut [u8]) -> Result<usize, Failed> {
        self.source.take(&mut into[..1])
    }
}

// An input that gives a line, then so many bytes, and then `\n` and a line. It doesn't tell what is left.
#[derive(Drop)]
pub(crate) struct Padded {
    pub(crate) line: MemSource,
    pub(crate) padding: u64,
    pub(crate) end: MemSource,
}

impl Source for Padded {
    ghost input = { λ s. record { left = None; faults = 0 } };

    fn take(&mut self, into: &mut [u8]) -> Result<usize, Failed> {
        if let Ok(count) = self.line.take(into)
            && count > 0
        {
            return Ok(count);
        }
        let count = self.padding.min(into.len() as u64);
        self.padding -= count;
        if count > 0 {
            return Ok(count as usize);
        }
        Ok(self.end.take(into).unwrap_or(0))
    }
}

// Such an input that notes the longest buffer that it was to fill.
#[derive(Drop)]
struct Watched {
    source: Padded,
    widest: usize,
}

impl Source for Watched {
    ghost input = { λ s. record { left = None; faults = 0 } };

    fn take(&mut self, into: &mut [u8]) -> Result<usize, Failed> {
        self.widest = self.widest.max(into.len());
        self.source.take(into)
    }
}

// A script, how many commands are read of it, and why no further one is.
type Row = (&'static [u8], u64, Option<Kind>);

static SCRIPTS: [Row; 62] = [
    (b"", 0, None),
    (b"list\n", 1, None),
    (b"info\nlist\nremove dims=C0,X0:4,Y0:2:1\n", 3, None),
    (b"map\ncheck\nmap\n", 3, None),
    (b"list", 0, Some(Kind::Cut)),
    (b"list\nadd", 1, Some(Kind::Cut)),
    (b"map\nchec", 1, Some(Kind::Cut)),
    (b"\n", 0, Some(Kind::Word)),
    (b"list\n\nlist\n", 1, Some(Kind::Word)),
    (b"lists\n", 0, Some(Kind::Word)),
    (b"maps\n", 0, Some(Kind::Word)),
    (b"list\r\n", 0, Some(Kind::Word)),
    (b" list\n", 0, Some(Kind::Word)),
    (b"LIST\n", 0, Some(Kind::Word)),
    (b"list \n", 0, Some(Kind::Field)),
    (b"info\ninfo x=1\n", 1, Some(Kind::Field)),
    (b"map x=1\n", 0, Some(Kind::Field)),
    (b"map\ncheck x=1\n", 1, Some(Kind::Field)),
    (b"check \n", 0, Some(Kind::Field)),
    (b"remove\n", 0, Some(Kind::Field)),
    (b"remove dims\n", 0, Some(Kind::Field)),
    (b"remove name=C0\n", 0, Some(Kind::Field)),
    (b"remove  dims=C0\n", 0, Some(Kind::Field)),
    (b"remove dims=C0 \n", 0, Some(Kind::Field)),
    (b"remove dims=?? x=1\n", 0, Some(Kind::Field)),
    (b"remove dims=\n", 0, Some(Kind::Value)),
    (b"remove dims=c0\n", 0, Some(Kind::Value)),
    (b"remove dims=C0,\n", 0, Some(Kind::Value)),
    (b"remove dims=C0\r\n", 0, Some(Kind::Value)),
    (b"remove dims=C2147483648\n", 0, Some(Kind::Value)),
    (b"undo\nundo x=1\n", 1, Some(Kind::Field)),
    (b"list\nrepack data=8\nlist", 1, Some(Kind::Later)),
    (b"region  x=\n", 0, Some(Kind::Field)),
    (b"adds\n", 0, Some(Kind::Word)),
    (b"add pixel=0 dims=C0 meta=0 data=0 att=0\n\n", 1, None),
    (
        b"add pixel=0 comp=1 dims=C0 meta=0 data=0 att=0\n\n",
        1,
        None,
    ),
    (
        b"add pixel=0 pyramid=1 dims=C0 meta=0 data=0 att=0\n\n",
        1,
        None,
    ),
    (
        b"replace pixel=1 comp=-2147483648 pyramid=255 dims=C0,X1:2:3 meta=1 data=2 att=1\n\n12\n\nlist\n",
        2,
        None,
    ),
    (b"add\n", 0, Some(Kind::Field)),
    (b"list\nadd data=8\nlist", 1, Some(Kind::Field)),
    (b"add dims=C0 meta=0 data=0 att=0\n\n", 0, Some(Kind::Field)),
    (
        b"add pixel=0 dims=C0 meta=0 data=0\n\n",
        0,
        Some(Kind::Field),
    ),
    (
        b"add dims=C0 pixel=0 meta=0 data=0 att=0\n\n",
        0,
        Some(Kind::Field),
    ),
    (
        b"add pixel=0 dims=C0 data=0 meta=0 att=0\n\n",
        0,
        Some(Kind::Field),
    ),
    (
        b"add pixel=0 pyramid=0 comp=0 dims=C0 meta=0 data=0 att=0\n\n",
        0,
        Some(Kind::Field),
    ),
    (
        b"add pixel=0 comp=0 comp=0 dims=C0 meta=0 data=0 att=0\n\n",
        0,
        Some(Kind::Field),
    ),
    (
        b"add pixel=0 dims=C0 meta=0 data=0 att=0 \n\n",
        0,
        Some(Kind::Field),
    ),
    (b"replace pixel=x\n", 0, Some(Kind::Field)),
    (
        b"add pixel= dims=C0 meta=0 data=0 att=0\n\n",
        0,
        Some(Kind::Value),
    ),
    (
        b"add pixel=-0 dims=C0 meta=0 data=0 att=0\n\n",
        0,
        Some(Kind::Value),
    ),
    (
        b"add pixel=01 dims=C0 meta=0 data=0 att=0\n\n",
        0,
        Some(Kind::Value),
    ),
    (
        b"add pixel=2147483648 dims=C0 meta=0 data=0 att=0\n\n",
        0,
        Some(Kind::Value),
    ),
    (
        b"add pixel=0 comp=+1 dims=C0 meta=0 data=0 att=0\n\n",
        0,
        Some(Kind::Value),
    ),
    (
        b"add pixel=0 pyramid=256 dims=C0 meta=0 data=0 att=0\n\n",
        0,
        Some(Kind::Value),
    ),
    (
        b"add pixel=0 dims=c0 meta=0 data=0 att=0\n\n",
        0,
        Some(Kind::Value),
    ),
    (
        b"add pixel=0 dims=C0 meta=-1 data=0 att=0\n\n",
        0,
        Some(Kind::Value),
    ),
    (
        b"add pixel=0 dims=C0 meta=0 data=0 att=18446744073709551616\n\n",
        0,
        Some(Kind::Value),
    ),
    (
        b"add pixel=0 dims=C0 meta=0 data=0 att=18446744073709551615\n\n",
        0,
        Some(Kind::Cut),
    ),
    (
        b"add pixel=0 dims=C0 meta=0 data=0 att=0\n",
        0,
        Some(Kind::Cut),
    ),
    (
        b"list\nadd pixel=0 dims=C0 meta=1 data=1 att=1\nabc",
        1,
        Some(Kind::Cut),
    ),
    (
        b"add pixel=0 dims=C0 meta=0 data=0 att=0\nlist\n",
        0,
        Some(Kind::Tail),
    ),
    (
        b"list\nadd pixel=0 dims=C0 meta=1 data=1 att=1\nabcd\n",
        1,
        Some(Kind::Tail),
    ),
];

// The command words of the format that aren't built.
static WORDS: [&str; 1] = ["repack"];

// How long a line is, whether a line feed follows, and what kind of fault it is.
static LINES: [(usize, bool, Kind); 5] = [
    (4095, false, Kind::Cut),
    (4095, true, Kind::Word),
    (4096, false, Kind::Long),
    (4096, true, Kind::Long),
    (5000, true, Kind::Long),
];

// How many commands are read, and the error behind them, which is answered twice.
fn read_all<S: Source>(
    rt: &impl Abort,
    alloc: Global,
    input: &mut S,
) -> Result<(u64, Option<ScriptError>), Fail> {
    let mut reader = ScriptReader::new(alloc)?;
    for count in 0..100_000u64 {
        match reader.next(input) {
            Ok(Some(_)) => {}
            Ok(None) => return Ok((count, None)),
            Err(error) => {
                assert!(rt; reader.next(input).err() == Some(error));
                return Ok((count, Some(error)));
            }
        }
    }
    Err(Fail::new("too many commands"))
}

// So many commands are read of an input, and this is the error behind them.
fn check_all<S: Source>(
    rt: &impl Abort,
    alloc: Global,
    input: &mut S,
    count: u64,
    error: Option<ScriptError>,
) -> Result<(), Fail> {
    let (read, found) = read_all(rt, alloc, input)?;
    assert!(rt; read == count && found == error);
    Ok(())
}

// Reads a script that ends well or at a fault, from an input that gives it at once and from one that drips.
fn check_script(
    rt: &impl Abort,
    alloc: Global,
    script: &[u8],
    count: u64,
    kind: Option<Kind>,
) -> Result<(), Fail> {
    let number = count.saturating_add(1);
    let error = kind.map(|kind| ScriptError::Fault { number, kind });
    let mut whole = MemSource::new(alloc, script)?;
    check_all(rt, alloc, &mut whole, count, error)?;
    let mut drip = Drip {
        source: MemSource::new(alloc, script)?,
    };
    check_all(rt, alloc, &mut drip, count, error)
}

#[test]
fn each_kind_has_its_number(rt: HostRuntime) -> Result<(), Fail> {
    for (script, count, kind) in SCRIPTS.iter() {
        check_script(&rt, rt.alloc(), script, *count, *kind)?;
    }
    Ok(())
}

#[test]
fn words_of_the_format_that_are_not_built_are_later(rt: HostRuntime) -> Result<(), Fail> {
    for word in WORDS.iter() {
        let script = format!(in rt.alloc(); "info\n{word}\n")?;
        check_script(&rt, rt.alloc(), script.as_bytes(), 1, Some(Kind::Later))?;
    }
    Ok(())
}

// How many commands stand in front of the cut of the script that is cut after so many bytes, and whether it is one.
fn cut_at(len: usize) -> (u64, Option<Kind>) {
    match len {
        0 => (0, None),
        1..5 => (0, Some(Kind::Cut)),
        5 => (1, None),
        6..25 => (1, Some(Kind::Cut)),
        25 => (2, None),
        26..30 => (2, Some(Kind::Cut)),
        _ => (3, None),
    }
}

#[test]
fn a_script_that_is_cut_ends_at_its_line(rt: HostRuntime) -> Result<(), Fail> {
    let script = b"info\nremove dims=C0,X0:4\nlist\n";
    for len in 0..=30usize {
        let (count, kind) = cut_at(len);
        check_script(&rt, rt.alloc(), &script[..len], count, kind)?;
    }
    Ok(())
}

// Reads a line of so many bytes at the begin of a script and behind a command.
fn check_line(
    rt: &impl Abort,
    alloc: Global,
    len: usize,
    feed: bool,
    kind: Kind,
) -> Result<(), Fail> {
    let mut script = Vec::from_slice(alloc, b"list\n")?;
    script.resize(5usize.saturating_add(len), b'x')?;
    if feed {
        script.push(b'\n')?;
    }
    assert!(rt; script.len() >= 5);
    check_script(rt, alloc, &script[5..], 0, Some(kind))?;
    check_script(rt, alloc, &script, 1, Some(kind))
}

#[test]
fn a_line_has_at_most_4096_bytes(rt: HostRuntime) -> Result<(), Fail> {
    for (len, feed, kind) in LINES.iter() {
        check_line(&rt, rt.alloc(), *len, *feed, *kind)?;
    }
    Ok(())
}

// A script of so many commands, one like the other.
fn removals(alloc: Global, count: u64) -> Result<Vec<u8>, AllocError> {
    let mut script = Vec::new(alloc);
    for _ in 0..count {
        script.extend_from_slice(b"remove dims=C3,X-4:4,Y0\n")?;
    }
    Ok(script)
}

// The next command is the one of that script.
fn check_removal(
    rt: &impl Abort,
    alloc: Global,
    reader: &mut ScriptReader,
    input: &mut MemSource,
) -> Result<(), Fail> {
    let dims = read_dims(alloc, b"C3:1,X-4:4:4,Y0:1:1").map_err(|_| "refused")?;
    assert!(rt; reader.next(input) == Ok(Some(Command::Remove { dims })));
    Ok(())
}

// So many commands of that script are read, and no more.
fn check_removals(rt: &impl Abort, alloc: Global, script: &[u8], count: u64) -> Result<(), Fail> {
    let mut input = MemSource::new(alloc, script)?;
    let mut reader = ScriptReader::new(alloc)?;
    for _ in 0..count {
        check_removal(rt, alloc, &mut reader, &mut input)?;
    }
    assert!(rt; reader.next(&mut input) == Ok(None));
    assert!(rt; reader.next(&mut input) == Ok(None));
    Ok(())
}

#[test]
fn commands_go_on_over_the_end_of_a_piece(rt: HostRuntime) -> Result<(), Fail> {
    let script = removals(rt.alloc(), 7000)?;
    check_removals(&rt, rt.alloc(), &script, 7000)?;
    check_script(&rt, rt.alloc(), &script, 7000, None)
}

// The input's fault is told behind so many commands where the call of `take` with this number fails.
fn check_failing(rt: &impl Abort, alloc: Global, number: u64, count: u64) -> Result<(), Fail> {
    let mut input = MemSource::new(alloc, b"list\n")?;
    input.fail_call(number)?;
    check_all(rt, alloc, &mut input, count, Some(ScriptError::Input))
}

#[test]
fn a_failed_input_is_told_from_then_on(rt: HostRuntime) -> Result<(), Fail> {
    check_failing(&rt, rt.alloc(), 0, 0)?;
    check_failing(&rt, rt.alloc(), 1, 1)?;
    let mut source = MemSource::new(rt.alloc(), b"info\nlist\n")?;
    source.fail_call(7)?;
    let mut drip = Drip { source };
    check_all(&rt, rt.alloc(), &mut drip, 1, Some(ScriptError::Input))?;
    let mut source = MemSource::new(rt.alloc(), PAYLOADS[0])?;
    source.fail_call(43)?;
    let mut drip = Drip { source };
    check_all(&rt, rt.alloc(), &mut drip, 0, Some(ScriptError::Input))
}

#[test]
fn a_reader_that_stopped_takes_nothing(rt: HostRuntime) -> Result<(), Fail> {
    let mut drip = Drip {
        source: MemSource::new(rt.alloc(), b"bad\nlist\n")?,
    };
    let fault = ScriptError::Fault {
        number: 1,
        kind: Kind::Word,
    };
    check_all(&rt, rt.alloc(), &mut drip, 0, Some(fault))?;
    let mut rest = [0u8; 8];
    assert!(rt; drip.source.take(&mut rest) == Ok(5));
    assert!(rt; &rest[..5] == b"list\n".as_slice());
    Ok(())
}

#[test]
fn laws(_rt: HostRuntime) {
    no_spelling_begins_another();
    one_kind();
    one_reading();
    faults_stay();
    one_answer();
    reading_goes_on();
    faults_show();
}

// The line of `add` or `replace` whose payload is cut at each place, with that payload.
static PAYLOADS: [&[u8]; 2] = [
    b"add pixel=0 dims=C0 meta=2 data=3 att=1\nmmpppt\n",
    b"replace pixel=0 dims=C0 meta=0 data=1 att=5\n\nttttt\n",
];

#[test]
fn a_payload_that_is_cut_ends_at_its_command(rt: HostRuntime) -> Result<(), Fail> {
    for script in PAYLOADS.iter() {
        for len in 1..script.len() {
            check_script(&rt, rt.alloc(), &script[..len], 0, Some(Kind::Cut))?;
        }
        check_script(&rt, rt.alloc(), script, 1, None)?;
    }
    Ok(())
}

// What an entry of these tests says, with these two fields and this pyramid type.
fn entry_of(alloc: Global, pixel: i32, compression: i32, pyramid: u8) -> Result<EntryInfo, Fail> {
    let Ok(dims) = read_dims(alloc, b"C0,X1:2:3") else {
        return Err(Fail::new("dimensions"));
    };
    Ok(EntryInfo {
        pixel,
        compression,
        pyramid,
        spare: [0; 5],
        dims,
    })
}

#[test]
fn add_and_replace_have_their_fields_and_payload(rt: HostRuntime) -> Result<(), Fail> {
    let alloc = rt.alloc();
    let script =
        b"add pixel=3 dims=C0,X1:2:3 meta=2 data=3 att=1\nmmpp\nt\nreplace pixel=-4 comp=1 pyramid=2 dims=C0,X1:2:3 meta=0 data=1 att=2\np\n\n\n";
    let mut input = MemSource::new(alloc, script)?;
    let mut reader = ScriptReader::new(alloc)?;
    let added = Command::Add {
        info: entry_of(alloc, 3, 0, 0)?,
        meta: Bytes::new(Vec::from_slice(alloc, b"mm")?),
        pixels: Bytes::new(Vec::from_slice(alloc, b"pp\n")?),
        tail: Bytes::new(Vec::from_slice(alloc, b"t")?),
    };
    assert!(&rt; reader.next(&mut input) == Ok(Some(added)));
    let replaced = Command::Replace {
        info: entry_of(alloc, -4, 1, 2)?,
        meta: Bytes::new(Vec::new(alloc)),
        pixels: Bytes::new(Vec::from_slice(alloc, b"p")?),
        tail: Bytes::new(Vec::from_slice(alloc, b"\n\n")?),
    };
    assert!(&rt; reader.next(&mut input) == Ok(Some(replaced)));
    assert!(&rt; reader.next(&mut input) == Ok(None));
    Ok(())
}

// A line, how many bytes its payload has, and the length and limit of the piece that is told.
static PAST: [(&[u8], u64, u64, u64); 5] = [
    (
        b"add pixel=0 dims=C0 meta=0 data=67108865 att=0\n",
        67_108_865,
        67_108_865,
        67_108_864,
    ),
    (
        b"add pixel=0 dims=C0 meta=16777217 data=0 att=0\n",
        16_777_217,
        16_777_217,
        16_777_216,
    ),
    (
        b"replace pixel=0 dims=C0 meta=0 data=67108865 att=1\n",
        67_108_866,
        67_108_865,
        67_108_864,
    ),
    (
        b"add pixel=0 dims=C0 meta=0 data=67108864 att=67108865\n",
        134_217_729,
        67_108_865,
        67_108_864,
    ),
    (
        b"add pixel=0 dims=C0 meta=16777217 data=67108865 att=0\n",
        83_886_082,
        16_777_217,
        16_777_216,
    ),
];

// The piece is told, and the command behind it read, with no buffer for the payload.
fn check_past(
    rt: &impl Abort,
    alloc: Global,
    (line, padding, len, limit): &(&[u8], u64, u64, u64),
) -> Result<(), Fail> {
    let source = Padded {
        line: MemSource::new(alloc, line)?,
        padding: *padding,
        end: MemSource::new(alloc, b"\nlist\n")?,
    };
    let mut input = Watched { source, widest: 0 };
    let mut reader = ScriptReader::new(alloc)?;
    let long = Command::Long {
        len: *len,
        limit: *limit,
    };
    assert!(rt; reader.next(&mut input) == Ok(Some(long)));
    assert!(rt; reader.next(&mut input) == Ok(Some(Command::List)));
    assert!(rt; reader.next(&mut input) == Ok(None));
    assert!(rt; input.widest <= 65_536);
    Ok(())
}

#[test]
fn a_piece_past_its_limit_is_read_and_told(rt: HostRuntime) -> Result<(), Fail> {
    for row in PAST.iter() {
        check_past(&rt, rt.alloc(), row)?;
    }
    Ok(())
}

#[test]
fn a_piece_at_its_limit_is_kept(rt: HostRuntime) -> Result<(), Fail> {
    let alloc = rt.alloc();
    let mut input = Padded {
        line: MemSource::new(alloc, b"add pixel=0 dims=C0 meta=16777216 data=0 att=0\n")?,
        padding: 16_777_216,
        end: MemSource::new(alloc, b"\n")?,
    };
    let mut reader = ScriptReader::new(alloc)?;
    match reader.next(&mut input) {
        Ok(Some(Command::Add { meta, .. })) => {
            assert!(&rt; meta.as_slice().len() == 16_777_216);
            Ok(())
        }
        _ => Err(Fail::new("no subblock")),
    }
}
