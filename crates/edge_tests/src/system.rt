//! The shelf of real files, and the sink of standard output.

use rte_text::{FILE_LIMIT, Fetched, FileShelf, Put, Shelf, Sink, StdSink};
use std::alloc::{AllocError, Global};
use std::fs;
use std::test::Fail;

/// A sample of so many bytes, of which no two neighbours are alike.
fn sample(alloc: Global, size: usize) -> Result<Vec<u8>, AllocError> {
    (0..size).map(|at| (at % 251) as u8).collect(alloc)
}

#[test]
fn reads_files_up_to_the_limit(rt: HostRuntime) -> Result<(), Fail> {
    let alloc = rt.alloc();
    let mut shelf = FileShelf::new(rt.clone()?);
    for size in [0, 1, 4_096, 10_000, FILE_LIMIT] {
        let bytes = sample(alloc, size)?;
        fs::write(&rt, "held", bytes.as_slice())?;
        assert!(rt;
            shelf.fetch(alloc, "held") == Fetched::Bytes(bytes),
            "at {size}"
        );
    }
    fs::write(&rt, "held", sample(alloc, FILE_LIMIT + 1)?.as_slice())?;
    assert!(rt; shelf.fetch(alloc, "held") == Fetched::TooLong);
    Ok(())
}

#[test]
fn fails_where_no_file_is(rt: HostRuntime) -> Result<(), Fail> {
    let alloc = rt.alloc();
    let mut shelf = FileShelf::new(rt.clone()?);
    fs::write(&rt, "held", "some text")?;
    fs::remove_file(&rt, "held")?;
    // A file that was there, the folder, no name, and a name in what is no folder.
    for name in ["held", ".", "", "held/held"] {
        assert!(rt; shelf.fetch(alloc, name) == Fetched::Failed, "at {name}");
    }
    Ok(())
}

#[test]
fn writes_to_standard_output(rt: HostRuntime) -> Result<(), Fail> {
    let mut sink = StdSink::new(rt.clone()?);
    for piece in ["", "some text\n"] {
        assert_eq!(rt; sink.put(piece.as_bytes()), Put::Done);
    }
    Ok(())
}
