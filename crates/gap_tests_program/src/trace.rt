use gap_files::{Halt, MemoryFiles, MemorySink, append, print, start};
use std::test::Fail;

/// What is answered to a start of A.
fn started(files: &mut MemoryFiles) -> Result<(), Halt> {
    start(files, "A")
}

/// What is answered to an append to A.
fn appended(files: &mut MemoryFiles, bytes: &[u8]) -> Result<(), Halt> {
    append(files, "A", bytes)
}

/// What is answered to a line.
fn printed(out: &mut MemorySink, bytes: &[u8]) -> Result<(), Halt> {
    print(out, bytes)
}

#[test]
fn puts_out_in_order(rt: HostRuntime) -> Result<(), Fail> {
    let alloc = rt.alloc();
    let mut files = MemoryFiles::new(alloc, vec![in alloc; 3u64]?);
    let mut out = MemorySink::new(alloc, vec![in alloc; 2u64]?);
    files.put("A", b"old".as_slice())?;
    assert_eq!(rt; started(&mut files), Ok(()));
    assert_eq!(rt; appended(&mut files, b"port".as_slice()), Ok(()));
    assert_eq!(rt; printed(&mut out, b"gap".as_slice()), Ok(()));
    assert_eq!(rt;
        appended(&mut files, b"lost".as_slice()),
        Err(Halt::WriteFault)
    );
    assert_eq!(rt;
        printed(&mut out, b"lost".as_slice()),
        Err(Halt::WriteFault)
    );
    assert_eq!(rt; files.content("A"), Some(b"port".as_slice()));
    assert_eq!(rt; out.bytes(), b"gap".as_slice());
    Ok(())
}
