//! Each public call, and what the objects answer in a run.
use crate::{
    FetchFault, HostLibrary, HostSink, Library, MemoryLibrary, MemorySink, PutFault, Sink,
};
use std::alloc::Global;
use std::cell::Cell;
use std::fmt::Display;
use std::io::{self, Error, ErrorKind};
use std::test::Fail;
use std::{env, fs};

// Through the bound, as callers do.
fn fetched<L: Library>(
    library: &mut L,
    alloc: Global,
    name: &str,
    limit: u64,
) -> Result<Vec<u8>, FetchFault> {
    library.fetch(alloc, name, limit)
}

fn put<S: Sink>(sink: &mut S, bytes: &[u8]) -> Result<(), PutFault> {
    sink.put(bytes)
}

#[test]
fn a_library_in_memory_gives_its_files(rt: HostRuntime) -> Result<(), Fail> {
    let alloc = rt.alloc();
    let mut library = MemoryLibrary::new(alloc)?;
    library.add("a.p", b"old")?;
    library.add("b.p", b"")?;
    library.add("a.p", b"p(a)")?;
    assert_eq!(rt;
        fetched(&mut library, alloc, "a.p", 4)?.as_slice(),
        b"p(a)".as_slice()
    );
    assert_eq!(rt; fetched(&mut library, alloc, "b.p", 0)?.len(), 0);
    assert_eq!(rt;
        fetched(&mut library, alloc, "a.p", 3).err(),
        Some(FetchFault::TooLong)
    );
    assert_eq!(rt;
        fetched(&mut library, alloc, "c.p", 3).err(),
        Some(FetchFault::Missing)
    );
    Ok(())
}

#[test]
fn a_library_in_memory_fails_where_it_is_told_to(rt: HostRuntime) -> Result<(), Fail> {
    let alloc = rt.alloc();
    let mut library = MemoryLibrary::new(alloc)?;
    library.add("a.p", b"p")?;
    library.fail_at(1)?;
    assert_eq!(rt;
        fetched(&mut library, alloc, "a.p", 9)?.as_slice(),
        b"p".as_slice()
    );
    assert_eq!(rt;
        fetched(&mut library, alloc, "b.p", 9).err(),
        Some(FetchFault::Failed)
    );
    assert_eq!(rt;
        fetched(&mut library, alloc, "a.p", 9)?.as_slice(),
        b"p".as_slice()
    );
    Ok(())
}

#[test]
fn a_sink_in_memory_takes_a_prefix_where_it_fails(rt: HostRuntime) -> Result<(), Fail> {
    let piece = [b'x'; 150];
    let mut sink = MemorySink::with_room(rt.alloc(), 300)?;
    sink.fail_at(1, 7)?;
    sink.fail_at(1, 100)?;
    assert_eq!(rt; put(&mut sink, b"head\n"), Ok(()));
    assert_eq!(rt; put(&mut sink, &piece), Err(PutFault::Failed));
    assert_eq!(rt; sink.bytes().len(), 105);
    assert_eq!(rt; put(&mut sink, &piece), Ok(()));
    assert_eq!(rt; put(&mut sink, b""), Ok(()));
    assert_eq!(rt; sink.bytes().len(), 255);

    // 45 bytes are left.
    assert_eq!(rt; put(&mut sink, &piece), Err(PutFault::Failed));
    assert_eq!(rt; sink.bytes().len(), 300);
    assert_eq!(rt; put(&mut sink, b"."), Err(PutFault::Failed));
    assert!(rt; sink.bytes().starts_with(b"head\nxx"));
    assert_eq!(rt; sink.bytes().len(), 300);
    Ok(())
}

#[test]
fn the_host_reads_files(rt: HostRuntime) -> Result<(), Fail> {
    let alloc = rt.alloc();
    let folder = env::temp_dir(&rt)?;
    let path = folder.join(alloc, "pm_outside_host_library.p")?;
    let inside = path.join(alloc, "a.p")?;
    let text = [b'y'; 20_000];
    fs::write(&rt, path.as_path(), text.as_slice())?;

    let mut library = HostLibrary::new(&rt);
    assert_eq!(rt;
        fetched(&mut library, alloc, path.as_str(), 20_000)?.as_slice(),
        text.as_slice()
    );
    assert_eq!(rt;
        fetched(&mut library, alloc, path.as_str(), 19_999).err(),
        Some(FetchFault::TooLong)
    );
    assert_eq!(rt;
        fetched(&mut library, alloc, path.as_str(), u64::MAX)?.len(),
        20_000
    );
    assert_eq!(rt;
        fetched(&mut library, alloc, folder.as_str(), 9).err(),
        Some(FetchFault::Failed)
    );
    assert_eq!(rt;
        fetched(&mut library, alloc, inside.as_str(), 9).err(),
        Some(FetchFault::Failed)
    );
    fs::remove_file(&rt, path.as_path())?;
    assert_eq!(rt;
        fetched(&mut library, alloc, path.as_str(), 9).err(),
        Some(FetchFault::Missing)
    );
    assert_eq!(rt;
        fetched(&mut library, alloc, "", 9).err(),
        Some(FetchFault::Missing)
    );
    Ok(())
}

#[test]
fn the_host_writes_text(rt: HostRuntime) {
    let mut sink = HostSink::new(&rt);
    assert_eq!(rt; put(&mut sink, b"the standard output\n"), Ok(()));
}

// A runtime that prints three bytes at a time, and as many in all as it has room for.
#[derive(Drop)]
struct Drip {
    room: Cell<usize>,
}

impl Print for Drip {
    fn print<D: Display + Drop>(&self, _value: D) -> io::Result<()> {
        Err(Error::from(ErrorKind::Unsupported))
    }

    fn println<D: Display + Drop>(&self, _value: D) -> io::Result<()> {
        Err(Error::from(ErrorKind::Unsupported))
    }

    fn write_all(&self, _bytes: &[u8]) -> io::Result<()> {
        Err(Error::from(ErrorKind::Unsupported))
    }

    fn write_some(&self, bytes: &[u8]) -> io::Result<usize> {
        let room = self.room.get();
        let count = bytes.len().min(room).min(3);
        self.room.set(room.saturating_sub(count));
        Ok(count)
    }
}

#[test]
fn the_host_writes_all_that_it_is_given(rt: HostRuntime) {
    let drip = Drip {
        room: Cell::new(10),
    };
    let mut sink = HostSink::new(&drip);
    assert_eq!(rt; put(&mut sink, b"1234567"), Ok(()));
    assert_eq!(rt; drip.room.get(), 3);
    assert_eq!(rt; put(&mut sink, b"8901"), Err(PutFault::Failed));
    assert_eq!(rt; drip.room.get(), 0);
}
