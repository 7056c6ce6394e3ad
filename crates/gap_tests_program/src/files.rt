use gap_files::{
    Files, MemoryFiles, MemorySink, RealFiles, RealSink, Sink, SteadyFiles, SteadySink, Tally,
    Trouble,
};
use std::fs;
use std::os::unix::fs::symlink;
use std::test::Fail;

/// What is answered to a read; what is known of the files after it is of no use to a test.
fn read<F: Files>(files: &mut F, name: &str, at: u64, buf: &mut [u8]) -> Result<usize, Trouble> {
    files.read_at(name, at, buf)
}

/// The same for an append.
fn append<F: Files>(files: &mut F, name: &str, bytes: &[u8]) -> Result<(), Trouble> {
    files.append(name, bytes)
}

/// The same for a start.
fn start<F: Files>(files: &mut F, name: &str) -> Result<(), Trouble> {
    files.start(name)
}

/// The same for a write.
fn write<S: Sink>(sink: &mut S, bytes: &[u8]) -> Result<(), Trouble> {
    sink.write(bytes)
}

/// Was it done?
fn is_done(answer: Result<(), Trouble>) -> bool {
    matches!(answer, Ok(()))
}

/// Has it failed?
fn has_failed(answer: Result<(), Trouble>) -> bool {
    matches!(answer, Err(Trouble::Failed))
}

/// Has the read failed?
fn has_failed_to_read(answer: Result<usize, Trouble>) -> bool {
    matches!(answer, Err(Trouble::Failed))
}

/// Were so many bytes read?
fn gives(answer: Result<usize, Trouble>, count: usize) -> bool {
    match answer {
        Ok(found) => found == count,
        Err(_) => false,
    }
}

/// Are these the bytes that are due?
fn are(found: &[u8], due: &[u8]) -> bool {
    found == due
}

/// Is this the content of a file?
fn holds(files: &MemoryFiles, name: &str, bytes: &[u8]) -> bool {
    match files.content(name) {
        Some(found) => found == bytes,
        None => false,
    }
}

/// Is there such a file?
fn has(files: &MemoryFiles, name: &str) -> bool {
    files.content(name).is_some()
}

/// Is this the content of a steady file?
fn holds_steadily(files: &SteadyFiles, name: &str, bytes: &[u8]) -> bool {
    match files.content(name) {
        Some(found) => found == bytes,
        None => false,
    }
}

#[test]
fn counts_one_name_alone(rt: HostRuntime) -> Result<(), Fail> {
    let mut tally = Tally::new(rt.alloc());
    tally.raise("A")?;
    tally.raise("A")?;
    tally.raise("B")?;
    assert_eq!(rt; tally.count("A"), 2);
    assert_eq!(rt; tally.count("B"), 1);
    assert_eq!(rt; tally.count("C"), 0);
    Ok(())
}

#[test]
fn reads_pieces_of_memory(rt: HostRuntime) -> Result<(), Fail> {
    let alloc = rt.alloc();
    let mut files = MemoryFiles::new(alloc, vec![in alloc; 4u64]?);
    files.put("A", b"first".as_slice())?;
    files.put("A", b"portgap".as_slice())?;
    let mut buf = [0u8; 4];
    assert!(rt; gives(read(&mut files, "A", 0, &mut buf), 4));
    assert!(rt; are(&buf, b"port".as_slice()));
    assert!(rt; gives(read(&mut files, "A", 4, &mut buf), 3));
    assert!(rt; are(&buf, b"gapt".as_slice()));
    assert!(rt; gives(read(&mut files, "A", 7, &mut buf), 0));
    assert!(rt;
        has_failed_to_read(read(&mut files, "A", 0, &mut buf)),
        "the fourth call"
    );
    assert!(rt;
        has_failed_to_read(read(&mut files, "B", 0, &mut buf)),
        "a missing file"
    );
    assert!(rt; holds(&files, "A", b"portgap".as_slice()));
    assert!(rt; !has(&files, "B"));
    Ok(())
}

#[test]
fn reads_a_missing_file_as_empty(rt: HostRuntime) -> Result<(), Fail> {
    let mut files = SteadyFiles::new(rt.alloc());
    files.put("A", b"gap".as_slice())?;
    let mut buf = [0u8; 4];
    assert!(rt; gives(read(&mut files, "A", 1, &mut buf), 2));
    assert!(rt; gives(read(&mut files, "B", 0, &mut buf), 0));
    assert!(rt; holds_steadily(&files, "A", b"gap".as_slice()));
    Ok(())
}

#[test]
fn writes_to_memory(rt: HostRuntime) -> Result<(), Fail> {
    let alloc = rt.alloc();
    let mut sink = MemorySink::new(alloc, vec![in alloc; 2u64]?);
    assert!(rt; is_done(write(&mut sink, b"port".as_slice())));
    assert!(rt;
        has_failed(write(&mut sink, b"lost".as_slice())),
        "the second write"
    );
    assert!(rt; is_done(write(&mut sink, b"gap".as_slice())));
    assert!(rt; are(sink.bytes(), b"portgap".as_slice()));
    let mut steady = SteadySink::new(alloc);
    assert!(rt; is_done(write(&mut steady, b"gap".as_slice())));
    assert!(rt; are(steady.bytes(), b"gap".as_slice()));
    Ok(())
}

#[test]
fn reads_a_file_of_the_system(rt: HostRuntime) -> Result<(), Fail> {
    fs::write(&rt, "gap_files_test", "portgap")?;
    let mut files = RealFiles::new(&rt, rt.alloc());
    let mut buf = [0u8; 4];
    assert!(rt; gives(read(&mut files, "gap_files_test", 0, &mut buf), 4));
    assert!(rt; gives(read(&mut files, "gap_files_test", 4, &mut buf), 3));
    assert!(rt; are(&buf, b"gapt".as_slice()));
    assert!(rt; gives(read(&mut files, "gap_files_test", 7, &mut buf), 0));
    assert!(rt; has_failed_to_read(read(&mut files, "gap_files_none", 0, &mut buf)));
    fs::remove_file(&rt, "gap_files_test")?;
    Ok(())
}

#[test]
fn writes_to_standard_output(rt: HostRuntime) {
    let mut sink = RealSink::new(&rt);
    assert!(rt; is_done(write(&mut sink, b"portgap\n".as_slice())));
    assert!(rt; is_done(write(&mut sink, b"".as_slice())));
}

#[test]
fn appends_to_memory(rt: HostRuntime) -> Result<(), Fail> {
    let alloc = rt.alloc();
    let mut files = MemoryFiles::new(alloc, vec![in alloc; 3u64, 5u64]?);
    files.put("A", b"old".as_slice())?;
    assert!(rt; is_done(start(&mut files, "A")));
    assert!(rt; is_done(append(&mut files, "A", b"port".as_slice())));
    assert!(rt;
        has_failed(append(&mut files, "A", b"lost".as_slice())),
        "the third call"
    );
    assert!(rt; is_done(append(&mut files, "A", b"gap".as_slice())));
    assert!(rt; has_failed(start(&mut files, "B")), "the fifth call");
    assert!(rt; is_done(append(&mut files, "C", b"new".as_slice())));
    assert!(rt; holds(&files, "A", b"portgap".as_slice()));
    assert!(rt; !has(&files, "B"));
    assert!(rt; holds(&files, "C", b"new".as_slice()));
    Ok(())
}

#[test]
fn appends_to_steady_files(rt: HostRuntime) -> Result<(), Fail> {
    let mut files = SteadyFiles::new(rt.alloc());
    files.put("A", b"old".as_slice())?;
    assert!(rt; is_done(append(&mut files, "A", b"er".as_slice())));
    assert!(rt; holds_steadily(&files, "A", b"older".as_slice()));
    Ok(())
}

#[test]
fn appends_to_a_missing_steady_file(rt: HostRuntime) -> Result<(), Fail> {
    let mut files = SteadyFiles::new(rt.alloc());
    assert!(rt; is_done(append(&mut files, "B", b"gap".as_slice())));
    assert!(rt; holds_steadily(&files, "B", b"gap".as_slice()));
    Ok(())
}

#[test]
fn starts_a_steady_file(rt: HostRuntime) -> Result<(), Fail> {
    let mut files = SteadyFiles::new(rt.alloc());
    assert!(rt; is_done(start(&mut files, "C")));
    assert!(rt; holds_steadily(&files, "C", b"".as_slice()));
    Ok(())
}

#[test]
fn appends_to_a_file_of_the_system(rt: HostRuntime) -> Result<(), Fail> {
    fs::write(&rt, "gap_files_append", "old")?;
    let mut files = RealFiles::new(&rt, rt.alloc());
    assert!(rt; is_done(start(&mut files, "gap_files_append")));
    assert!(rt; is_done(append(&mut files, "gap_files_append", b"port".as_slice())));
    assert!(rt; is_done(append(&mut files, "gap_files_append", b"gap".as_slice())));
    assert!(rt; has_failed(start(&mut files, "gap_files_none/A")));
    assert!(rt; has_failed(append(&mut files, "gap_files_none/A", b"gap".as_slice())));
    assert!(rt; is_done(start(&mut files, "")));
    assert!(rt; is_done(append(&mut files, "", b"gap".as_slice())));
    let mut buf = [0u8; 8];
    assert!(rt; gives(read(&mut files, "gap_files_append", 0, &mut buf), 7));
    assert!(rt; are(&buf[..7], b"portgap".as_slice()));
    fs::remove_file(&rt, "gap_files_append")?;
    Ok(())
}

#[test]
fn a_file_that_was_read_is_not_started(rt: HostRuntime) -> Result<(), Fail> {
    fs::write(&rt, "gap_files_read", "old")?;
    fs::hard_link(&rt, "gap_files_read", "gap_files_hard")?;
    symlink(&rt, "gap_files_read", "gap_files_soft")?;
    let mut files = RealFiles::new(&rt, rt.alloc());
    let mut buf = [0u8; 8];
    assert!(rt; gives(read(&mut files, "gap_files_read", 0, &mut buf), 3));
    assert!(rt; files.failure().is_none());
    for name in [
        "gap_files_read",
        "./gap_files_read",
        "gap_files_hard",
        "gap_files_soft",
    ] {
        assert!(rt; has_failed(start(&mut files, name)), "{name}");
    }
    assert!(rt; files.failure().is_some());
    assert!(rt; gives(read(&mut files, "gap_files_hard", 0, &mut buf), 3));
    assert!(rt; are(&buf[..3], b"old".as_slice()));
    for name in ["gap_files_read", "gap_files_hard", "gap_files_soft"] {
        fs::remove_file(&rt, name)?;
    }
    Ok(())
}

#[test]
fn a_directory_is_no_file(rt: HostRuntime) {
    let mut files = RealFiles::new(&rt, rt.alloc());
    let mut buf = [0u8; 8];
    assert!(rt; has_failed_to_read(read(&mut files, ".", 0, &mut buf)));
    assert!(rt; has_failed(start(&mut files, ".")));
}
