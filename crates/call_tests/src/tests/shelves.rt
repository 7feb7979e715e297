//! What no clause says: that the calls succeed while there is memory, and what the adapters do.

use super::rows::each;
use mc_shelf::*;
use rv_words::Bytes;
use std::alloc::Global;
use std::fs;

/// 200,000 bytes that differ from place to place, while there is memory.
fn pattern(alloc: Global) -> Bytes {
    let mut bytes = Bytes::new(alloc);
    for i in 0..200_000u32 {
        let _done = bytes.push((i % 251) as u8);
    }
    bytes
}

/// A name, a limit, and a call that fails.
type Reading = (&'static str, u64, u64);

/// Whether reading a file of these bytes ends so, where a call fails.
fn ends_so(
    alloc: Global,
    whole: &[u8],
    (name, limit, failing): Reading,
    end: Option<ReadEnd>,
) -> bool {
    let mut shelf = MemShelf::new(alloc);
    let is_held = shelf.set("e", whole).is_ok() & shelf.fail(failing, 0).is_ok();
    match read_file(alloc, &mut shelf, name, limit) {
        Ok(bytes) => is_held & end.is_none() & (bytes.as_slice() == whole),
        Err(fault) => is_held & (end == Some(fault)),
    }
}

/// A name, a limit and a call that fails, and how reading 200,000 bytes ends: three whole pieces, a
/// part of one, and nothing.
type Ending = (Reading, Option<ReadEnd>);

static ENDS: [Ending; 9] = [
    (("e", 200_000, 5), None),
    (("e", u64::MAX, 5), None),
    (("e", 199_999, 9), Some(ReadEnd::TooLong)),
    (("e", 65_535, 1), Some(ReadEnd::TooLong)),
    (("e", 0, 1), Some(ReadEnd::TooLong)),
    (("e", 200_000, 0), Some(ReadEnd::Fault)),
    (("e", 200_000, 2), Some(ReadEnd::Fault)),
    (("e", 200_000, 4), Some(ReadEnd::Fault)),
    (("f", 200_000, 9), Some(ReadEnd::Fault)),
];

fn pattern_ends_so(alloc: Global, (read, end): Ending) -> bool {
    let whole = pattern(alloc);
    ends_so(alloc, whole.as_slice(), read, end)
}

/// Whether measuring a file of these bytes ends so, where a call fails.
fn measures_so(
    alloc: Global,
    whole: &[u8],
    (name, limit, failing): Reading,
    end: Result<u64, MeasureEnd>,
) -> bool {
    let mut shelf = MemShelf::new(alloc);
    let is_held = shelf.set("e", whole).is_ok() & shelf.fail(failing, 0).is_ok();
    is_held & (measure(&mut shelf, name, limit) == end)
}

/// A name, a limit and a call that fails, and how measuring 200,000 bytes ends: 48 whole pieces, a
/// part of one, and nothing.
type Measured = (Reading, Result<u64, MeasureEnd>);

static MEASURES: [Measured; 8] = [
    (("e", 200_000, 50), Ok(200_000)),
    (("e", u64::MAX, 50), Ok(200_000)),
    (("e", 199_999, 49), Err(MeasureEnd::TooLong)),
    (("e", 4_095, 1), Err(MeasureEnd::TooLong)),
    (("e", 200_000, 0), Err(MeasureEnd::Fault)),
    (("e", 200_000, 48), Err(MeasureEnd::Fault)),
    (("e", 200_000, 49), Err(MeasureEnd::Fault)),
    (("f", 200_000, 50), Err(MeasureEnd::Fault)),
];

fn pattern_measures_so(alloc: Global, (read, end): Measured) -> bool {
    let whole = pattern(alloc);
    measures_so(alloc, whole.as_slice(), read, end)
}

/// Whether the next call gives these bytes, or nothing.
fn gives_line<S: Shelf>(
    alloc: Global,
    lines: &mut Lines<'_>,
    shelf: &mut S,
    wanted: Option<&[u8]>,
) -> bool {
    match lines.next(alloc, shelf) {
        Ok(Some(line)) => wanted == Some(line.as_slice()),
        Ok(None) => wanted.is_none(),
        Err(_) => false,
    }
}

/// Bytes, how many of them are given, and the lines of these.
type Text = (&'static [u8], u64, &'static [&'static [u8]]);

/// Whether the lines of these bytes, up to the size, are these, and then there is none.
fn lines_are(alloc: Global, (bytes, size, wanted): Text) -> bool {
    let mut shelf = SureShelf::new(alloc);
    let mut is_so = shelf.set("e", bytes).is_ok();
    let mut lines = Lines::new("e", size);
    for &line in wanted {
        is_so = is_so & gives_line(alloc, &mut lines, &mut shelf, Some(line));
    }
    is_so & gives_line(alloc, &mut lines, &mut shelf, None)
}

static LINES: [Text; 9] = [
    (b"", 9, &[]),
    (b"ab\n", 0, &[]),
    (b"ab\ncd\n", 6, &[b"ab\n", b"cd\n"]),
    (b"ab\ncd\n", u64::MAX, &[b"ab\n", b"cd\n"]),
    (b"ab\n\n\ncd", 9, &[b"ab\n", b"\n", b"\n", b"cd"]),
    (b"ab\ncd\n", 5, &[b"ab\n", b"cd"]),
    (b"ab\ncd\n", 3, &[b"ab\n"]),
    (b"ab\r\ncd", 4, &[b"ab\r\n"]),
    (b"\n", 1, &[b"\n"]),
];

/// A line of 10,001 bytes, and 5,000 bytes without a newline, while there is memory.
fn two_lines(alloc: Global) -> Bytes {
    let mut bytes = Bytes::new(alloc);
    for i in 0..15_001u32 {
        let _done = bytes.push(if i == 10_000 { b'\n' } else { b'x' });
    }
    bytes
}

/// Whether the next call gives nothing, or this refusal.
fn gives_end(
    alloc: Global,
    lines: &mut Lines<'_>,
    shelf: &mut MemShelf,
    end: Option<LineFault>,
) -> bool {
    match lines.next(alloc, shelf) {
        Ok(Some(_)) => false,
        Ok(None) => end.is_none(),
        Err(fault) => end == Some(fault),
    }
}

/// A name, a size and a call that fails; how long the lines are that are given of the two; and what
/// comes behind them.
type Given = (Reading, &'static [usize], Option<LineFault>);

/// Whether the lines of a file have these lengths up to their end or a refusal, which stays, where
/// a call fails.
fn lengths_are(alloc: Global, ((name, size, failing), lengths, end): Given) -> bool {
    let whole = two_lines(alloc);
    let whole = whole.as_slice();
    let mut shelf = MemShelf::new(alloc);
    let mut is_so = shelf.set("e", whole).is_ok() & shelf.fail(failing, 0).is_ok();
    let mut lines = Lines::new(name, size);
    for &length in lengths {
        is_so = is_so & (next_length(alloc, &mut lines, &mut shelf) == Some(length));
    }
    let first = gives_end(alloc, &mut lines, &mut shelf, end);
    let is_held = shelf.set(name, whole).is_ok();
    is_so & is_held & first & gives_end(alloc, &mut lines, &mut shelf, end)
}

/// How long the next line is, if there is one.
fn next_length(alloc: Global, lines: &mut Lines<'_>, shelf: &mut MemShelf) -> Option<usize> {
    match lines.next(alloc, shelf) {
        Ok(Some(line)) => Some(line.len()),
        _ => None,
    }
}

static LENGTHS: [Given; 8] = [
    (("e", 15_001, 4), &[10_001, 5_000], None),
    (("e", u64::MAX, 5), &[10_001, 5_000], None),
    (("e", 10_000, 3), &[10_000], None),
    (("e", 10_002, 3), &[10_001, 1], None),
    (("e", u64::MAX, 4), &[10_001], Some(LineFault::Fault)),
    (("e", u64::MAX, 3), &[10_001], Some(LineFault::Fault)),
    (("e", u64::MAX, 1), &[], Some(LineFault::Fault)),
    (("f", u64::MAX, 9), &[], Some(LineFault::Fault)),
];

/// How long the next line is, if it is what stands from a place on.
fn length_at(
    alloc: Global,
    lines: &mut Lines<'_>,
    shelf: &mut MemShelf,
    whole: &[u8],
    at: usize,
) -> Option<usize> {
    match lines.next(alloc, shelf) {
        Ok(Some(line)) if at <= whole.len() && whole[at..].starts_with(line.as_slice()) => {
            Some(line.len())
        }
        _ => None,
    }
}

/// How many lines of the pattern are given up to one that isn't what stands next, and how many
/// bytes these have, where the file holds other bytes from the second call on.
fn lines_given(alloc: Global, whole: &[u8], later: &[u8]) -> (usize, usize) {
    let mut shelf = MemShelf::new(alloc);
    let _is_held = shelf.set("e", whole);
    let mut lines = Lines::new("e", u64::MAX);
    let (mut count, mut at) = (0usize, 0usize);
    for _ in 0..1_000 {
        let Some(length) = length_at(alloc, &mut lines, &mut shelf, whole, at) else {
            break;
        };
        at = at.saturating_add(length);
        count = count.saturating_add(1);
        let _is_held = shelf.set("e", later);
    }
    (count, at)
}

/// The pattern has 797 newlines, 17 of them in its first 4,096 bytes. A file that shrinks ends
/// where the shelf gives nothing.
fn lines_follow(alloc: Global) -> bool {
    let whole = pattern(alloc);
    let whole = whole.as_slice();
    let all = lines_given(alloc, whole, whole) == (798, 200_000);
    all & (lines_given(alloc, whole, b"abc") == (18, 4_096))
}

#[test]
fn whole_files_are_read_and_measured(rt: HostRuntime) {
    assert!(rt; each(rt.alloc(), &ENDS, pattern_ends_so));
    assert!(rt; ends_so(rt.alloc(), &[], ("e", 0, 9), None));
    assert!(rt; each(rt.alloc(), &MEASURES, pattern_measures_so));
}

#[test]
fn lines_are_given_or_refused(rt: HostRuntime) {
    assert!(rt; each(rt.alloc(), &LINES, lines_are));
    assert!(rt; each(rt.alloc(), &LENGTHS, lengths_are));
    assert!(rt; lines_follow(rt.alloc()));
}

/// A call on a shelf, and what it gives: whether it succeeds, or up to four bytes that are read.
#[derive(Clone, Copy)]
enum Call {
    Create(bool),
    Append(&'static [u8], bool),
    Read(u64, Option<&'static [u8]>),
}

/// Whether reading four bytes gives these, and leaves what stands behind them as it was; or fails.
fn reads<S: Shelf>(shelf: &mut S, name: &str, at: u64, wanted: Option<&[u8]>) -> bool {
    let mut buffer = [9u8; 4];
    match shelf.read(name, at, &mut buffer) {
        Ok(count) => {
            let Some(bytes) = wanted else { return false };
            let behind = [9u8; 4];
            count == bytes.len()
                && count <= 4
                && &buffer[..count] == bytes
                && buffer[count..] == behind[count..]
        }
        Err(Failed) => wanted.is_none(),
    }
}

fn gives<S: Shelf>(shelf: &mut S, name: &str, call: Call) -> bool {
    match call {
        Call::Create(is_done) => match shelf.create(name) {
            Ok(()) => is_done,
            Err(stop) => !is_done && stop == Stop::Failed,
        },
        Call::Append(bytes, is_done) => match shelf.append(name, bytes) {
            Ok(()) => is_done,
            Err(stop) => !is_done && stop == Stop::Failed,
        },
        Call::Read(at, wanted) => reads(shelf, name, at, wanted),
    }
}

/// Whether the calls, one after the other, give what they are to give.
fn all_give<S: Shelf>(shelf: &mut S, name: &str, calls: &[Call]) -> bool {
    for &call in calls {
        if !gives(shelf, name, call) {
            return false;
        }
    }
    true
}

/// Calls on a name that is missing at first.
static CALLS: [Call; 13] = [
    Call::Read(0, None),
    Call::Append(b"ab", false),
    Call::Read(0, None),
    Call::Create(true),
    Call::Read(0, Some(b"")),
    Call::Append(b"abc", true),
    Call::Append(b"def", true),
    Call::Read(0, Some(b"abcd")),
    Call::Read(4, Some(b"ef")),
    Call::Read(6, Some(b"")),
    Call::Read(100, Some(b"")),
    Call::Create(true),
    Call::Read(0, Some(b"")),
];

/// Calls that fail on no file.
static NO_FILE: [Call; 2] = [Call::Read(0, None), Call::Append(b"abc", false)];

/// Further calls, in memory.
static LAST_CALLS: [Call; 2] = [Call::Append(b"xyz", true), Call::Read(u64::MAX, Some(b""))];

/// Whether a shelf in memory gives that, and another name holds what it held.
fn memory_gives(alloc: Global) -> bool {
    let mut shelf = MemShelf::new(alloc);
    let is_held = shelf.set("q", b"other").is_ok();
    let is_so = all_give(&mut shelf, "p", &CALLS) & all_give(&mut shelf, "p", &LAST_CALLS);
    let p = shelf.held("p") == Some(b"xyz".as_slice());
    let q = shelf.held("q") == Some(b"other".as_slice());
    is_held & is_so & p & q
}

/// What fails on a shelf where the second call, an append, keeps a part.
static FAILING: [Call; 3] = [
    Call::Read(0, None),
    Call::Append(b"abc", false),
    Call::Create(false),
];

/// Whether the second call, an append, fails with so many bytes kept and the third, a create, fails
/// too.
fn fails_on_a_shelf(alloc: Global, kept: u64, left: &[u8]) -> bool {
    let mut shelf = MemShelf::new(alloc);
    let is_held = shelf.set("p", b"x").is_ok() & shelf.fail(1, kept).is_ok();
    let fails = shelf.fail(0, kept).is_ok() & shelf.fail(2, kept).is_ok();
    let is_set = is_held & fails & shelf.fail(1, 2).is_ok();
    is_set & all_give(&mut shelf, "p", &FAILING) & (shelf.held("p") == Some(left))
}

/// Whether the second call, a put, fails with so many bytes kept, and the next one doesn't.
fn fails_on_a_sink(alloc: Global, kept: u64, left: &[u8]) -> bool {
    let mut sink = MemSink::new(alloc);
    let is_set = sink.fail(1, kept).is_ok() & sink.fail(1, 2).is_ok();
    let first = sink.put(b"x") == Ok(());
    let second = sink.put(b"abc") == Err(Stop::Failed);
    let third = sink.put(b"") == Ok(());
    is_set & first & second & third & (sink.written() == left)
}

/// How many bytes are kept, and what is left then.
type Kept = (u64, &'static [u8]);

static KEPT: [Kept; 4] = [(0, b"x"), (1, b"xa"), (3, b"xabc"), (u64::MAX, b"xabc")];

fn fails_so(alloc: Global, (kept, left): Kept) -> bool {
    fails_on_a_shelf(alloc, kept, left) & fails_on_a_sink(alloc, kept, left)
}

#[test]
fn calls_in_memory_are_answered_or_fail(rt: HostRuntime) {
    assert!(rt; memory_gives(rt.alloc()));
    assert!(rt; each(rt.alloc(), &KEPT, fails_so));
}

/// Calls on a name that was never given, where none is missing.
static SURE_CALLS: [Call; 6] = [
    Call::Read(0, Some(b"")),
    Call::Append(b"ab", true),
    Call::Append(b"cde", true),
    Call::Read(1, Some(b"bcde")),
    Call::Create(true),
    Call::Append(b"x", true),
];

/// Whether a sure shelf gives that, and another name holds what it was given.
fn sure_shelf_gives(alloc: Global) -> bool {
    let mut shelf = SureShelf::new(alloc);
    let is_held = shelf.set("q", b"other").is_ok();
    let is_so = all_give(&mut shelf, "p", &SURE_CALLS);
    let p = shelf.held("p") == b"x".as_slice();
    let q = shelf.held("q") == b"other".as_slice();
    is_held & is_so & p & q & shelf.held("r").is_empty()
}

fn sure_sink_takes(alloc: Global) -> bool {
    let mut sink = SureSink::new(alloc);
    let is_taken = sink.put(b"ab").is_ok() & sink.put(b"c").is_ok();
    is_taken & (sink.written() == b"abc".as_slice())
}

#[test]
fn sure_calls_never_fail(rt: HostRuntime) {
    assert!(rt; sure_shelf_gives(rt.alloc()));
    assert!(rt; sure_sink_takes(rt.alloc()));
}

/// Whether reading the file to its end gives these bytes.
fn file_is<S: Shelf>(alloc: Global, shelf: &mut S, name: &str, bytes: &[u8]) -> bool {
    match read_file(alloc, shelf, name, 6) {
        Ok(found) => found.as_slice() == bytes,
        Err(_) => false,
    }
}

/// Whether the file has as many bytes as these, and they are its one line.
fn is_one_line<S: Shelf>(alloc: Global, shelf: &mut S, name: &str, bytes: &[u8]) -> bool {
    let size = measure(shelf, name, 6) == Ok(bytes.len() as u64);
    let mut lines = Lines::new(name, 6);
    let line = gives_line(alloc, &mut lines, shelf, Some(bytes));
    size && line && gives_line(alloc, &mut lines, shelf, None)
}

/// The name of a file that the tests make.
const NAME: &str = "mc_shelf_test_file";

/// Whether a file is made, read and measured.
fn file_is_made<S: Shelf>(alloc: Global, shelf: &mut S) -> bool {
    let is_made = all_give(shelf, NAME, &CALLS);
    let is_held = gives(shelf, NAME, Call::Append(b"abcdef", true));
    let is_read = file_is(alloc, shelf, NAME, b"abcdef");
    is_made & is_held & is_read & is_one_line(alloc, shelf, NAME, b"abcdef")
}

/// Calls on a file that was removed while it was open.
static REMOVED: [Call; 2] = [Call::Append(b"abc", true), Call::Read(0, Some(b"abcd"))];

/// Whether three names that are no file, the one of the file that was removed among them, fail.
fn there_is_no_file<S: Shelf>(shelf: &mut S) -> bool {
    let is_removed = all_give(shelf, NAME, &NO_FILE);
    is_removed & all_give(shelf, ".", &NO_FILE) & all_give(shelf, "", &NO_FILE)
}

#[test]
fn the_system_has_files(rt: HostRuntime) {
    let mut shelf = DirShelf::new(&rt);
    let is_made = file_is_made(rt.alloc(), &mut shelf);
    let is_removed = fs::remove_file(&rt, NAME).is_ok();
    let is_open = all_give(&mut shelf, NAME, &REMOVED);
    let is_refused = gives(&mut shelf, ".", Call::Create(false));
    let mut other = DirShelf::new(&rt);
    assert!(rt; is_made & is_removed & is_open & is_refused & there_is_no_file(&mut other));
}

/// The names of two files that the tests make.
const FIRST: &str = "mc_shelf_test_first";

const SECOND: &str = "mc_shelf_test_second";

/// Names, and calls on them.
static BOTH: [(&str, Call); 5] = [
    (FIRST, Call::Create(true)),
    (FIRST, Call::Append(b"abc", true)),
    (SECOND, Call::Create(true)),
    (FIRST, Call::Append(b"def", true)),
    (SECOND, Call::Append(b"xy", true)),
];

/// Whether each of two names takes what is its own.
fn both_take<S: Shelf>(alloc: Global, shelf: &mut S) -> bool {
    let mut is_so = true;
    for &(name, call) in &BOTH {
        is_so = is_so & gives(shelf, name, call);
    }
    let first = file_is(alloc, shelf, FIRST, b"abcdef");
    let second = file_is(alloc, shelf, SECOND, b"xy");
    is_so & first & second & file_is(alloc, shelf, FIRST, b"abcdef")
}

#[test]
fn each_name_takes_what_is_its_own(rt: HostRuntime) {
    let mut shelf = DirShelf::new(&rt);
    let is_so = both_take(rt.alloc(), &mut shelf);
    let first = fs::remove_file(&rt, FIRST).is_ok();
    assert!(rt; is_so & first & fs::remove_file(&rt, SECOND).is_ok());
}

#[test]
fn the_system_has_an_output(rt: HostRuntime) {
    let mut sink = OutSink::new(&rt);
    assert!(rt; sink.put(b"output\n").is_ok() & sink.put(b"").is_ok());
}
