//! Files and streams, of the system and of a runtime whose reads and writes are short.
use crate::short::ShortRuntime;
use fem_text::{DiskStore, Failed, Sink, StdSink, Store, StoreFault};
use std::alloc::Global;
use std::cell::RefCell;
use std::fs;

// What a store reads under a name, or its fault.
fn read_from<S: Store>(alloc: Global, store: &mut S, name: &str, limit: u64) -> Option<String> {
    match store.read(alloc, name, limit) {
        Ok(bytes) => String::from_utf8(bytes).ok(),
        Err(fault) => format!(in alloc; "{fault:?}").ok(),
    }
}

#[test]
fn a_file_is_written_and_read(rt: HostRuntime) {
    let name = "value_tests_outside.txt";
    let mut store = DiskStore::new(&rt);
    assert_eq!(rt; store.write(rt.alloc(), name, b"0123456789"), Ok(()));
    let read = read_from(rt.alloc(), &mut store, name, 4);
    assert!(rt; fs::remove_file(&rt, name).is_ok());
    let gone = read_from(rt.alloc(), &mut store, name, 4);
    assert!(rt; read.is_some_and(|text| text.as_str() == "01234"));
    assert!(rt; gone.is_some_and(|text| text.as_str() == "Failed"));
    assert_eq!(rt;
        store.write(rt.alloc(), "none/none.txt", b"0"),
        Err(StoreFault::Failed)
    );
}

#[test]
fn standard_streams_take_bytes(rt: HostRuntime) {
    for is_err in [false, true] {
        assert_eq!(rt; StdSink::new(&rt, is_err).put(b"taken\n"), Ok(()));
    }
}

// What is read of an input of ten bytes.
fn read_short(alloc: Global, limit: u64, fails_at: u32) -> Option<String> {
    let taken = RefCell::new(Vec::new(alloc));
    let rt = ShortRuntime {
        input: b"0123456789",
        taken: &taken,
        fails_at,
        stops_at: 0,
    };
    let mut store = DiskStore::new(&rt);
    read_from(alloc, &mut store, "-", limit)
}

#[test]
fn an_input_is_read_up_to_its_limit(rt: HostRuntime) {
    for (limit, fails_at, expected) in [
        (20, 0, "0123456789"),
        (9, 0, "0123456789"),
        (4, 0, "01234"),
        (0, 0, "0"),
        (20, 3, "Failed"),
        (20, 5, "Failed"),
        (4, 3, "01234"),
    ] {
        let told = read_short(rt.alloc(), limit, fails_at);
        assert!(rt;
            told.is_some_and(|told| told.as_str() == expected),
            "{limit} {fails_at}"
        );
    }
}

// Whether a stream answers so, and has taken these bytes.
fn takes(
    alloc: Global,
    is_err: bool,
    fails_at: u32,
    stops_at: u32,
    answer: Result<(), Failed>,
    bytes: &[u8],
) -> bool {
    let taken = RefCell::new(Vec::new(alloc));
    let rt = ShortRuntime {
        input: b"",
        taken: &taken,
        fails_at,
        stops_at,
    };
    let told = StdSink::new(&rt, is_err).put(b"0123456789");
    match taken.try_borrow() {
        Ok(taken) => told == answer && taken.as_slice() == bytes,
        Err(_) => false,
    }
}

#[test]
fn a_stream_takes_all_or_a_prefix(rt: HostRuntime) {
    for (fails_at, stops_at, answer, bytes) in [
        (0, 0, Ok(()), "0123456789"),
        (1, 0, Err(Failed), ""),
        (3, 0, Err(Failed), "012345"),
        (0, 2, Err(Failed), "012"),
    ] {
        for is_err in [false, true] {
            assert!(rt;
                takes(
                    rt.alloc(),
                    is_err,
                    fails_at,
                    stops_at,
                    answer,
                    bytes.as_bytes()
                ),
                "{fails_at} {stops_at}"
            );
        }
    }
}
