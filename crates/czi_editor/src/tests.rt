use crate::ImageEditor;
use crate::refusal::stop_of;
use crate::reply::push_no;
use czi_engine::{EditError, ImageRefusal, OpenError};
use czi_num::Span;
use czi_report::push_ok;
use czi_rig::{File, MemRig};
use czi_script::Command;
use czi_session::{Editor, EditorStop, OpenStop};
use std::alloc::Global;
use std::process::Abort;
use std::test::Fail;

// An error of opening that is a refusal, and its line.
fn check_line(rt: &impl Abort, alloc: Global, error: &OpenError, line: &[u8]) -> Result<(), Fail> {
    let text = Vec::from_slice(alloc, line)?;
    assert!(rt; stop_of(alloc, error) == OpenStop::Refused(text));
    Ok(())
}

const JOURNAL_REFUSALS: [(OpenError, &[u8]); 4] = [
    (OpenError::JournalVersion(9), b"refused version 9\n"),
    (OpenError::BadJournal(262_348), b"refused journal 262348\n"),
    (
        OpenError::ImageShort {
            have: 1000,
            need: 1280,
        },
        b"refused short 1000 1280\n",
    ),
    (
        OpenError::ForeignJournal {
            journal: *b"\x33\x22\x11\x00\x55\x44\x77\x66\x88\x99\xAA\xBB\xCC\xDD\xEE\xFF",
            image: [0; 16],
        },
        b"refused foreign 00112233-4455-6677-8899-aabbccddeeff 00000000-0000-0000-0000-000000000000\n",
    ),
];

const RULES: [(ImageRefusal, &[u8]); 8] = [
    (ImageRefusal::NotCzi, b"refused notczi\n"),
    (ImageRefusal::MultiPart(-1), b"refused multipart -1\n"),
    (ImageRefusal::Pending(1), b"refused pending 1\n"),
    (
        ImageRefusal::BadDirectory(-544),
        b"refused directory -544\n",
    ),
    (
        ImageRefusal::TooMany(544, 1_048_577),
        b"refused many 544 1048577\n",
    ),
    (ImageRefusal::BadEntry(704), b"refused entry 704\n"),
    (ImageRefusal::BadSegment(32), b"refused segment 32\n"),
    (ImageRefusal::BadAttachment(64), b"refused attachment 64\n"),
];

fn check_rules(rt: &impl Abort, alloc: Global) -> Result<(), Fail> {
    for (refusal, line) in RULES.iter() {
        check_line(rt, alloc, &OpenError::Refused(*refusal), line)?;
    }
    let (first, second) = (Span { at: 704, len: 320 }, Span { at: 1000, len: 32 });
    let overlap = OpenError::Refused(ImageRefusal::Overlap(first, second));
    check_line(rt, alloc, &overlap, b"refused overlap 704 320 1000 32\n")
}

// An error of opening that is none.
fn check_stop(rt: &impl Abort, alloc: Global, error: OpenError, stop: EditorStop) {
    assert!(rt; stop_of(alloc, &error) == OpenStop::Stopped(stop));
}

#[test]
fn each_refusal_is_a_line(rt: HostRuntime) -> Result<(), Fail> {
    let alloc = rt.alloc();
    for (error, line) in JOURNAL_REFUSALS.iter() {
        check_line(&rt, alloc, error, line)?;
    }
    check_rules(&rt, alloc)?;
    check_stop(&rt, alloc, OpenError::ImageDevice, EditorStop::Image);
    check_stop(&rt, alloc, OpenError::JournalDevice, EditorStop::Journal);
    check_stop(&rt, alloc, OpenError::Memory, EditorStop::Memory);
    Ok(())
}

// The errors of an edit, and what is answered.
static ANSWERS: [(EditError, Result<(), EditorStop>); 8] = [
    (
        EditError::TooLong {
            len: 67_108_865,
            limit: 67_108_864,
        },
        Ok(()),
    ),
    (EditError::NoKey, Ok(())),
    (EditError::Duplicate(1_048_575), Ok(())),
    (EditError::TooMany(1_048_576), Ok(())),
    (
        EditError::Full {
            need: 160,
            length: 1_099_511_627_700,
        },
        Ok(()),
    ),
    (EditError::Memory, Err(EditorStop::Memory)),
    (EditError::ImageDevice, Err(EditorStop::Image)),
    (EditError::JournalDevice, Err(EditorStop::Journal)),
];

#[test]
fn each_reply_is_a_line(rt: HostRuntime) -> Result<(), Fail> {
    let mut reply = Vec::new(rt.alloc());
    push_ok(u64::MAX, &mut reply)?;
    for (error, answer) in ANSWERS.iter() {
        assert!(rt; push_no(error, &mut reply) == *answer);
    }
    let lines =
        b"ok 18446744073709551615\nno long 67108865 67108864\nno key\nno duplicate 1048575\nno many 1048576\nno full 160 1099511627700\n".as_slice();
    assert!(rt; reply.as_slice() == lines);
    Ok(())
}

// An editor over 704 bytes, which hold no subblock.
#[test]
fn an_editor_is_opened_and_closed(rt: HostRuntime) -> Result<(), Fail> {
    let alloc = rt.alloc();
    let mut image = Vec::from_slice(alloc, b"ZISRAWFILE\0\0\0\0\0\0\0\x02")?;
    image.resize(704, 0)?;
    let mut rig = MemRig::new(alloc, &image, b"")?;
    let opened: Result<ImageEditor, OpenStop> = Editor::open(alloc, &mut rig);
    let Ok(mut editor) = opened else {
        return Err(Fail::new("not opened"));
    };
    let Ok(()) = editor.perform(&mut rig, &Command::List) else {
        return Err(Fail::new("not listed"));
    };
    assert!(rt; editor.piece() == b"tiles 0\n".as_slice());
    let sealed = editor.seal(&mut rig);
    assert!(rt; sealed.is_ok() && rig.content(File::Image) == image.as_slice());
    Ok(())
}
