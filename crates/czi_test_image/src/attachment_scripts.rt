//! `czi_script`: the lines of attachments and of the metadata.

use crate::scripts::Padded;
use czi_doc::{AttInfo, Bytes};
use czi_rig::MemSource;
use czi_script::{Command, Kind, ScriptError, ScriptReader};
use std::alloc::{AllocError, Global};
use std::process::Abort;
use std::test::Fail;

// What the first command of a script reads as.
type First = Result<Option<Command>, ScriptError>;

fn first(alloc: Global, script: &[u8]) -> Result<First, AllocError> {
    let mut input = MemSource::new(alloc, script)?;
    Ok(ScriptReader::new(alloc)?.next(&mut input))
}

// The first line of a script, or its payload, is wrong so.
fn check_fault(rt: &impl Abort, alloc: Global, script: &[u8], kind: Kind) -> Result<(), Fail> {
    let fault = ScriptError::Fault { number: 1, kind };
    assert!(rt; first(alloc, script)? == Err(fault));
    Ok(())
}

// Values of a GUID, a type, a name and a size, and whether they are right.
type Row = (&'static str, &'static str, &'static str, &'static str, bool);

const GUID: &str = "00112233-4455-6677-8899-aabbccddeeff";

const NAME: &str =
    "12345678901234567890123456789012345678901234567890123456789012345678901234567890";

const LONG_NAME: &str =
    "123456789012345678901234567890123456789012345678901234567890123456789012345678901";

static VALUES: [Row; 28] = [
    (GUID, "CZTIMS", "TimeStamps", "0", true),
    (GUID, "", "", "0", true),
    (GUID, "12345678", NAME, "0", true),
    (GUID, "%20%25%7f%80%ff", "%0a!~", "0", true),
    ("00112233445566778899AABBCCDDEEFF", "A", "a", "0", true),
    (
        "{00112233-4455-6677-8899-AABBCCDDEEFF}",
        "A",
        "a",
        "0",
        true,
    ),
    (
        "urn:uuid:00112233-4455-6677-8899-aabbccddeeff",
        "A",
        "a",
        "0",
        true,
    ),
    ("", "A", "a", "0", false),
    ("00112233-4455-6677-8899-aabbccddeef", "A", "a", "0", false),
    ("00112233-4455-6677-8899-aabbccddeefg", "A", "a", "0", false),
    (
        "00112233-4455-6677-8899-aabbccddee\u{e9}",
        "A",
        "a",
        "0",
        false,
    ),
    (GUID, "123456789", "a", "0", false),
    (GUID, "A", LONG_NAME, "0", false),
    (GUID, "%", "a", "0", false),
    (GUID, "%2", "a", "0", false),
    (GUID, "%2g", "a", "0", false),
    (GUID, "%0A", "a", "0", false),
    (GUID, "%41", "a", "0", false),
    (GUID, "%00", "a", "0", false),
    (GUID, "A", "a%00", "0", false),
    (GUID, "A", "a%7E", "0", false),
    (GUID, "A", "\u{e9}", "0", false),
    (GUID, "A", "a\t", "0", false),
    (GUID, "A", "a", "", false),
    (GUID, "A", "a", "01", false),
    (GUID, "A", "a", "-1", false),
    (GUID, "A", "a", "+1", false),
    (GUID, "A", "a", "18446744073709551616", false),
];

#[test]
fn each_value_of_an_attachment_has_its_form(rt: HostRuntime) -> Result<(), Fail> {
    let alloc = rt.alloc();
    for word in ["attach", "reattach"] {
        for (guid, kind, name, size, right) in VALUES.iter() {
            let script = format!(in alloc;
                "{word} guid={guid} type={kind} name={name} data={size}\n\n"
            )?;
            if *right {
                assert!(&rt; matches!(first(alloc, script.as_bytes())?, Ok(Some(_))));
            } else {
                check_fault(&rt, alloc, script.as_bytes(), Kind::Value)?;
            }
        }
    }
    Ok(())
}

// Lines that are wrong, and how.
static FAULTS: [(&[u8], Kind); 25] = [
    (b"attach\n", Kind::Field),
    (b"attach guid= type= name=\n", Kind::Field),
    (b"attach type= guid= name= data=0\n", Kind::Field),
    (b"attach guid= name= type= data=0\n", Kind::Field),
    (b"attach guid= type= data=0 name=\n", Kind::Field),
    (b"attach guid= type= name= data=0 \n", Kind::Field),
    (b"attach guid= type= name= data=0 att=0\n", Kind::Field),
    (b"reattach  guid= type= name= data=0\n", Kind::Field),
    (b"reattach guid= type= name=a b data=0\n", Kind::Field),
    (b"attaches guid= type= name= data=0\n", Kind::Word),
    (b"detach\n", Kind::Field),
    (b"detach type=a\n", Kind::Field),
    (b"detach name=a x=1\n", Kind::Field),
    (b"detach name=%\n", Kind::Value),
    (b"detach name=a%00\n", Kind::Value),
    (b"detach name=%61\n", Kind::Value),
    (b"meta\n", Kind::Field),
    (b"meta xml=0\n", Kind::Field),
    (b"meta att=0 xml=0\n", Kind::Field),
    (b"meta xml=0 att=0 data=0\n", Kind::Field),
    (b"meta xml= att=0\n", Kind::Value),
    (b"meta xml=0 att=-1\n", Kind::Value),
    (b"meta xml=18446744073709551616 att=0\n", Kind::Value),
    (b"meta xml=0 att=0\nlist\n", Kind::Tail),
    (b"meta xml=1 att=1\nabcd\n", Kind::Tail),
];

#[test]
fn each_line_has_its_fields(rt: HostRuntime) -> Result<(), Fail> {
    for (script, kind) in FAULTS.iter() {
        check_fault(&rt, rt.alloc(), script, *kind)?;
    }
    Ok(())
}

#[test]
fn the_name_to_detach_has_at_most_80_bytes(rt: HostRuntime) -> Result<(), Fail> {
    let alloc = rt.alloc();
    let script = format!(in alloc; "detach name={NAME}\n")?;
    let name = Bytes::new(Vec::from_slice(alloc, NAME.as_bytes())?);
    assert!(&rt; first(alloc, script.as_bytes())? == Ok(Some(Command::Detach { name })));
    let script = format!(in alloc; "detach name={LONG_NAME}\n")?;
    check_fault(&rt, alloc, script.as_bytes(), Kind::Value)
}

// Commands with a payload.
static PAYLOADS: [&[u8]; 3] = [
    b"attach guid=00112233445566778899aabbccddeeff type=A name=a data=3\n123\n",
    b"reattach guid=00112233445566778899aabbccddeeff type= name= data=0\n\n",
    b"meta xml=2 att=1\n<>a\n",
];

#[test]
fn a_payload_ends_behind_its_line_feed(rt: HostRuntime) -> Result<(), Fail> {
    for script in PAYLOADS.iter() {
        for len in 1..script.len() {
            check_fault(&rt, rt.alloc(), &script[..len], Kind::Cut)?;
        }
        assert!(&rt; matches!(first(rt.alloc(), script)?, Ok(Some(_))));
    }
    Ok(())
}

// The entry of an attachment, and bytes of its type and name.
fn entry_of(kind: &[u8], name: &[u8]) -> AttInfo {
    let mut info = AttInfo {
        guid: *b"\x33\x22\x11\x00\x55\x44\x77\x66\x88\x99\xAA\xBB\xCC\xDD\xEE\xFF",
        kind: [0; 8],
        name: [0; 80],
    };
    for (to, from) in info.kind.iter_mut().zip(kind) {
        *to = *from;
    }
    for (to, from) in info.name.iter_mut().zip(name) {
        *to = *from;
    }
    info
}

#[test]
fn each_command_has_its_fields_and_payload(rt: HostRuntime) -> Result<(), Fail> {
    let alloc = rt.alloc();
    let script =
        b"attach guid=00112233-4455-6677-8899-aabbccddeeff type=CZ%01 name=a%20b data=3\n1\n3\nreattach guid={00112233-4455-6677-8899-aabbccddeeff} type= name=%ff data=0\n\ndetach name=a%20b\nmeta xml=2 att=1\n<>a\n";
    let bytes = |text: &[u8]| Vec::from_slice(alloc, text).map(Bytes::new);
    let commands = [
        Command::Attach {
            info: entry_of(b"CZ\x01", b"a b"),
            bytes: bytes(b"1\n3")?,
        },
        Command::Reattach {
            info: entry_of(b"", b"\xFF"),
            bytes: bytes(b"")?,
        },
        Command::Detach {
            name: bytes(b"a b")?,
        },
        Command::SetMeta {
            xml: bytes(b"<>")?,
            tail: bytes(b"a")?,
        },
    ];
    let mut input = MemSource::new(alloc, script)?;
    let mut reader = ScriptReader::new(alloc)?;
    for command in commands {
        assert!(&rt; reader.next(&mut input) == Ok(Some(command)));
    }
    assert!(&rt; reader.next(&mut input) == Ok(None));
    Ok(())
}

// A line, how many bytes its payload has, and the length and limit of the first piece that is past its limit.
static PAST: [(&[u8], u64, u64, u64); 4] = [
    (
        b"attach guid=00112233445566778899aabbccddeeff type=A name=a data=67108865\n",
        67_108_865,
        67_108_865,
        67_108_864,
    ),
    (
        b"reattach guid=00112233445566778899aabbccddeeff type=A name=a data=67108866\n",
        67_108_866,
        67_108_866,
        67_108_864,
    ),
    (
        b"meta xml=16777217 att=67108865\n",
        83_886_082,
        16_777_217,
        16_777_216,
    ),
    (
        b"meta xml=16777216 att=67108865\n",
        83_886_081,
        67_108_865,
        67_108_864,
    ),
];

#[test]
fn a_piece_past_its_limit_is_told(rt: HostRuntime) -> Result<(), Fail> {
    let alloc = rt.alloc();
    for (line, padding, len, limit) in PAST.iter() {
        let mut input = Padded {
            line: MemSource::new(alloc, line)?,
            padding: *padding,
            end: MemSource::new(alloc, b"\n")?,
        };
        let long = Command::Long {
            len: *len,
            limit: *limit,
        };
        assert!(&rt; ScriptReader::new(alloc)?.next(&mut input) == Ok(Some(long)));
    }
    Ok(())
}
