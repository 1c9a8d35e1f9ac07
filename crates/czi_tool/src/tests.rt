use crate::file_rig::FileRig;
use crate::input::InputSource;
use czi_rig::{Failed, File, Rig, Source, cut_synced, write_synced};
use std::fs;
use std::test::Fail;

// Removes what an earlier run has left.
fn clear(rt: &HostRuntime, paths: &[&str]) {
    for path in paths {
        let _ = fs::remove_file(rt, *path);
    }
}

fn rig_over(rt: &HostRuntime, path: &str, journal_path: &str) -> Result<FileRig, Fail> {
    let path = String::from_str(rt.alloc(), path)?;
    let journal_path = String::from_str(rt.alloc(), journal_path)?;
    Ok(FileRig::new(rt.clone()?, path, journal_path))
}

#[test]
fn missing_file_is_empty_and_made_by_the_first_write(rt: HostRuntime) -> Result<(), Fail> {
    clear(&rt, &["new.czi", "new.czi.jrn"]);
    let mut rig = rig_over(&rt, "new.czi", "new.czi.jrn")?;
    let mut none = [0u8; 0];
    assert!(rt; rig.len(File::Image) == Ok(0));
    assert!(rt; rig.read_at(File::Image, 0, &mut none) == Ok(()));
    assert!(rt; rig.sync(File::Image) == Ok(()));
    assert!(rt; !fs::exists(&rt, "new.czi")?);
    assert!(rt; rig.write_at(File::Image, 0, b"abcdef") == Ok(()));
    assert_eq!(rt; fs::read(&rt, "new.czi")?.as_slice(), b"abcdef".as_slice());
    assert!(rt; !fs::exists(&rt, "new.czi.jrn")?);
    assert!(rt; rig.cut(File::Journal, 0) == Ok(()));
    assert_eq!(rt; fs::read(&rt, "new.czi.jrn")?.len(), 0);
    assert_eq!(rt;
        (rig.image.faults, rig.journal.faults, rig.output_faults),
        (0, 0, 0)
    );
    clear(&rt, &["new.czi", "new.czi.jrn"]);
    Ok(())
}

#[test]
fn file_has_what_was_written_and_cut(rt: HostRuntime) -> Result<(), Fail> {
    fs::write(&rt, "image.czi", b"abcdef")?;
    let mut rig = rig_over(&rt, "image.czi", "image.czi.jrn")?;
    let mut three = [0u8; 3];
    assert!(rt; rig.len(File::Image) == Ok(6));
    assert!(rt; rig.read_at(File::Image, 2, &mut three) == Ok(()));
    assert_eq!(rt; three, *b"cde");
    assert!(rt; rig.sync(File::Image) == Ok(()));
    assert!(rt; rig.write_at(File::Image, 4, b"EFGH") == Ok(()));
    assert!(rt; rig.read_at(File::Image, 3, &mut three) == Ok(()));
    assert_eq!(rt; three, *b"dEF");
    assert!(rt; rig.cut(File::Image, 7) == Ok(()));
    assert!(rt; rig.sync(File::Image) == Ok(()));
    assert!(rt; rig.len(File::Image) == Ok(7));
    assert!(rt; write_synced(&mut rig, File::Image, 7, b"HI") == Ok(()));
    assert!(rt; cut_synced(&mut rig, File::Image, 8) == Ok(()));
    assert_eq!(rt;
        fs::read(&rt, "image.czi")?.as_slice(),
        b"abcdEFGH".as_slice()
    );
    assert!(rt; rig.say(b"said\n") == Ok(()));
    assert_eq!(rt;
        (rig.image.faults, rig.journal.faults, rig.output_faults),
        (0, 0, 0)
    );
    clear(&rt, &["image.czi"]);
    Ok(())
}

#[test]
fn refusal_of_the_system_is_counted(rt: HostRuntime) -> Result<(), Fail> {
    fs::write(&rt, "short.czi", b"abc")?;
    let mut rig = rig_over(&rt, "no/such/image.czi", "short.czi")?;
    let mut four = [0u8; 4];
    assert!(rt; rig.len(File::Image) == Ok(0));
    assert!(rt; rig.sync(File::Image) == Ok(()));
    assert_eq!(rt; rig.image.faults, 0);
    assert!(rt; rig.read_at(File::Image, 0, &mut four) == Err(Failed));
    assert!(rt; rig.write_at(File::Image, 0, b"a") == Err(Failed));
    assert!(rt; rig.cut(File::Image, 0) == Err(Failed));
    assert!(rt; rig.read_at(File::Journal, 0, &mut four) == Err(Failed));
    assert!(rt; rig.read_at(File::Journal, 3, &mut four) == Err(Failed));
    assert_eq!(rt;
        (rig.image.faults, rig.journal.faults, rig.output_faults),
        (3, 2, 0)
    );
    clear(&rt, &["short.czi"]);
    Ok(())
}

// As far as a test can show it: its standard input is empty.
#[test]
fn source_tells_the_end_of_the_input(rt: HostRuntime) -> Result<(), Fail> {
    let mut source = InputSource::new(rt.clone()?);
    let mut four = [0u8; 4];
    assert!(rt; source.take(&mut four) == Ok(0));
    assert_eq!(rt; source.faults, 0);
    Ok(())
}
