// What no clause says: that calls succeed with ample memory, and what real files and streams do.
use crate::{Failed, GetError, Got, MemSink, MemStore, Sink, Store, SureSink, SureStore};
use std::test::Fail;

// The names of seventeen files.
const NAMES: [&str; 17] = [
    "a", "b", "c", "d", "e", "f", "g", "h", "i", "j", "k", "l", "m", "n", "o", "p", "q",
];

// A name of 64 bytes, and one of 65.
const LONGEST: &str = "0123456789012345678901234567890123456789012345678901234567890123";

const TOO_LONG: &str = "01234567890123456789012345678901234567890123456789012345678901234";

// Whether an answer is these bytes.
pub(crate) fn is_bytes(got: Result<Got, GetError>, want: &[u8]) -> bool {
    match got {
        Ok(Got::Bytes(octets)) => octets.items() == want,
        _ => false,
    }
}

// Whether a file is there with these bytes.
fn has(file: Option<&[u8]>, want: &[u8]) -> bool {
    match file {
        Some(bytes) => bytes == want,
        None => false,
    }
}

// Puts a file in two pieces.
pub(crate) fn put<S: Store>(
    store: &mut S,
    name: &str,
    first: &[u8],
    second: &[u8],
) -> Result<(), Failed> {
    store.begin_put(name)?;
    store.piece(first)?;
    store.piece(second)?;
    store.end_put()
}

#[test]
fn mem_store_adds_what_fits(rt: HostRuntime) -> Result<(), Fail> {
    let mut store = MemStore::new(rt.alloc(), 10)?;
    // name, bytes, whether it fits; the room is 10 bytes
    let cases: [(&str, &[u8], bool); 7] = [
        (TOO_LONG, b"", false),
        (LONGEST, b"12345", true),
        ("x", b"123456", false),
        ("x", b"12345", true),
        (LONGEST, b"123456", false),
        (LONGEST, b"1", true),
        ("y", b"1234", true),
    ];
    for (name, bytes, fits) in cases {
        assert_eq!(rt; store.add(name, bytes), fits, "{name}");
    }
    assert!(rt; has(store.file(LONGEST), b"1"));
    assert!(rt; has(store.file("x"), b"12345"));
    assert!(rt; store.file(TOO_LONG).is_none());
    Ok(())
}

#[test]
fn mem_store_keeps_sixteen_files(rt: HostRuntime) -> Result<(), Fail> {
    let mut store = MemStore::new(rt.alloc(), 100)?;
    for (i, name) in NAMES.iter().enumerate() {
        assert_eq!(rt; store.add(name, b"1"), i < 16, "{name}");
    }
    assert!(rt; store.add("a", b"22"));
    assert!(rt; has(store.file("a"), b"22"));
    assert!(rt; has(store.file("p"), b"1"));
    Ok(())
}

#[test]
fn mem_store_fails_as_planned(rt: HostRuntime) -> Result<(), Fail> {
    // begin_put, two pieces, end_put and get; each fails in turn, and then none
    for call in 0..6 {
        let mut store = MemStore::new(rt.alloc(), 2)?;
        assert!(rt; store.fail_at(call));
        assert_eq!(rt;
            put(&mut store, "a", b"1", b"2").is_ok(),
            call > 3,
            "call {call}"
        );
        if call > 3 {
            assert_eq!(rt;
                is_bytes(store.get(rt.alloc(), "a", 2), b"12"),
                call > 4,
                "call {call}"
            );
        }
        assert_eq!(rt; has(store.file("a"), b"12"), call > 2, "call {call}");
    }
    Ok(())
}

#[test]
fn mem_store_puts_and_gets(rt: HostRuntime) -> Result<(), Fail> {
    let mut store = MemStore::new(rt.alloc(), 4)?;
    assert!(rt;
        put(&mut store, "a", b"12", b"345").is_err(),
        "one over the room"
    );
    assert!(rt; has(store.file("a"), b"12"));
    assert!(rt;
        put(&mut store, "a", b"12", b"34").is_ok(),
        "the room exactly"
    );
    assert!(rt; is_bytes(store.get(rt.alloc(), "a", 4), b"1234"));
    assert!(rt; matches!(store.get(rt.alloc(), "a", 3), Ok(Got::Longer)));
    assert!(rt; matches!(store.get(rt.alloc(), "b", 3), Ok(Got::Absent)));
    assert!(rt; put(&mut store, TOO_LONG, b"", b"").is_err());

    // An add ends the put that is open.
    assert!(rt; store.begin_put("a").is_ok());
    assert!(rt; store.add("b", b"5678"));
    assert!(rt; has(store.file("a"), b""));
    for call in 0..17 {
        assert_eq!(rt; store.fail_at(call), call < 16, "number {call}");
    }
    Ok(())
}

#[test]
fn mem_sink_takes_what_fits(rt: HostRuntime) -> Result<(), Fail> {
    let mut sink = MemSink::new(rt.alloc(), 5)?;
    assert!(rt; sink.fail_at(1));
    // bytes, whether all are taken, what was taken then
    let cases: [(&[u8], bool, &[u8]); 5] = [
        (b"123", true, b"123"),
        (b"4", false, b"123"),
        (b"45", true, b"12345"),
        (b"6", false, b"12345"),
        (b"", true, b"12345"),
    ];
    for (bytes, whole, taken) in cases {
        assert_eq!(rt; sink.emit(bytes).is_ok(), whole);
        assert_eq!(rt; sink.bytes(), taken);
    }
    let mut small = MemSink::new(rt.alloc(), 2)?;
    assert!(rt; small.emit(b"123").is_err());
    assert_eq!(rt; small.bytes(), b"12".as_slice());
    Ok(())
}

#[test]
fn sure_ones_count_what_is_over(rt: HostRuntime) -> Result<(), Fail> {
    let mut sink = SureSink::new(rt.alloc(), 3)?;
    assert!(rt; sink.emit(b"123").is_ok());
    assert_eq!(rt; sink.over(), 0);
    assert!(rt; sink.emit(b"45").is_ok());
    assert_eq!(rt; sink.over(), 2);
    assert_eq!(rt; sink.bytes(), b"123".as_slice());

    let mut store = SureStore::new(rt.alloc(), 5)?;
    assert!(rt; store.add("a", b"12"));
    assert!(rt; put(&mut store, "b", b"1", b"23").is_ok());
    assert_eq!(rt; store.over(), 0);
    assert!(rt; put(&mut store, "b", b"12", b"345").is_ok());
    assert_eq!(rt; store.over(), 2);
    assert!(rt; has(store.file("b"), b"123"));
    assert!(rt; put(&mut store, TOO_LONG, b"1", b"2").is_ok());
    assert_eq!(rt; store.over(), 5);
    assert!(rt; is_bytes(store.get(rt.alloc(), "a", 2), b"12"));
    Ok(())
}
