//! Files and sinks, in memory and of the system.

ghost use Rattle.std.specs.Prelude.{◌≡◌, ◌+◌, ◌≤◌, [], length, IsSome, IfOk};
ghost use Rattle.base_outside.specs.Memory.{held};

use base_outside::{
    Failed, Files, HostFiles, HostSink, MemEntry, MemFiles, MemSink, ReadRefusal, Sink,
    names_differ, read_whole,
};
use std::alloc::{AllocError, Global};
use std::fs::{self, File};
use std::process::{self, Abort};
use std::test::Fail;

#[derive(Clone, Copy)]
enum Call {
    Size,
    /// Reads the byte at this place; 256 is the end.
    Byte(u64),
    Create,
    Append(&'static [u8]),
}

fn answer<F: Files>(files: &mut F, name: &str, call: Call) -> Result<u64, Failed> {
    match call {
        Call::Size => files.size(name),
        Call::Byte(at) => {
            let mut buf = [0u8];
            let n = files.read_at(name, at, &mut buf)?;
            Ok(if n == 0 { 256 } else { u64::from(buf[0]) })
        }
        Call::Create => files.create(name).map(|()| 0),
        Call::Append(piece) => files.append(name, piece).map(|()| 0),
    }
}

fn check_step<F: Files>(
    rt: &impl Abort,
    files: &mut F,
    name: &str,
    call: Call,
    want: Result<u64, Failed>,
) {
    assert!(rt; answer(files, name, call) == want, "{name}");
}

/// A name "a" that holds "old" and has room for 8 bytes, and a name "b" that isn't there and has room for 4.
fn two_files(
    rt: &impl Abort,
    alloc: Global,
    fails: &[u64],
    keep: u32,
) -> Result<MemFiles, AllocError>
    ensures { IfOk result (λ files. files.fails ≡ fails.now) }
{
    let mut entries = Vec::new(alloc);
    entries.push(MemEntry {
        name: b"a".to_vec(alloc)?,
        there: true,
        bytes: b"old".to_vec(alloc)?,
        room: 8,
    })?;
    entries.push(MemEntry {
        name: b"b".to_vec(alloc)?,
        there: false,
        bytes: Vec::new(alloc),
        room: 4,
    })?;
    assert!(rt; names_differ(&entries));
    MemFiles::new(alloc, entries, fails.to_vec(alloc)?, keep)
}

/// Calls on names, and what they are to answer. The second and the seventh fail by their numbers.
const STEPS: &[(&str, Call, Result<u64, Failed>)] = &[
    ("a", Call::Size, Ok(3)),
    ("a", Call::Append(b"new"), Err(Failed)),
    ("a", Call::Append(b"!"), Ok(0)),
    ("a", Call::Append(b"too long"), Err(Failed)),
    ("b", Call::Size, Err(Failed)),
    ("b", Call::Create, Ok(0)),
    ("b", Call::Size, Err(Failed)),
    ("b", Call::Append(b"ab"), Ok(0)),
    ("c", Call::Create, Err(Failed)),
    ("a", Call::Byte(1), Ok(108)),
    ("a", Call::Byte(99), Ok(256)),
];

/// How many bytes a failing `append` keeps, and what "a" then holds.
const KEPT: &[(u32, &[u8])] = &[(0, b"old!"), (1, b"oldn!t"), (9, b"oldnew!t")];

fn check_held(rt: &impl Abort, files: &MemFiles, name: &str, want: &[u8]) {
    match files.contents(name) {
        Some(bytes) => assert_eq!(rt; bytes, want, "{name}"),
        None => assert!(rt; false, "{name}"),
    }
}

fn keeps(rt: &impl Abort, alloc: Global, keep: u32, held: &[u8]) -> Result<(), AllocError> {
    let mut files = two_files(rt, alloc, &[1, 6], keep)?;
    for (name, call, want) in STEPS {
        check_step(rt, &mut files, name, *call, *want);
    }
    check_held(rt, &files, "a", held);
    check_held(rt, &files, "b", b"ab");
    assert_eq!(rt;
        (files.read_faults(), files.write_faults()),
        (1, 3),
        "keep {keep}"
    );
    Ok(())
}

#[test]
fn calls_fail_by_their_numbers(rt: HostRuntime) -> Result<(), Fail> {
    for (keep, held) in KEPT {
        keeps(&rt, rt.alloc(), *keep, held)?;
    }
    Ok(())
}

/// A name and a limit, and what reading it whole answers. The last call to the files fails.
const WHOLE: &[(&str, u64, Result<&[u8], ReadRefusal>)] = &[
    ("a", 3, Ok(b"old")),
    ("a", 2, Err(ReadRefusal::TooLong)),
    ("b", 9, Err(ReadRefusal::Failed)),
    ("a", 9, Err(ReadRefusal::Failed)),
];

#[test]
fn files_are_read_whole(rt: HostRuntime) -> Result<(), Fail> {
    let alloc = rt.alloc();
    let mut files = two_files(&rt, alloc, &[5], 0)?;
    for (name, limit, want) in WHOLE {
        match read_whole(alloc, &mut files, name, *limit) {
            Ok(bytes) => assert!(rt; Ok(bytes.as_slice()) == *want, "{name} {limit}"),
            Err(refusal) => assert!(rt; Err(refusal) == *want, "{name} {limit}"),
        }
    }
    Ok(())
}

/// Pieces that are put where the second and the third call fail and five bytes have room.
const PIECES: &[(&[u8], Result<(), Failed>)] = &[
    (b"abc", Ok(())),
    (b"", Ok(())),
    (b"d", Err(Failed)),
    (b"def", Err(Failed)),
    (b"de", Ok(())),
];

#[test]
fn sinks_take_what_has_room(rt: HostRuntime) -> Result<(), Fail> {
    let alloc = rt.alloc();
    let mut sink = MemSink::new(alloc, 5, [1, 2].to_vec(alloc)?)?;
    for (piece, want) in PIECES {
        assert!(rt; sink.put(piece) == *want);
    }
    assert_eq!(rt; sink.bytes(), b"abcde".as_slice());
    assert_eq!(rt; sink.faults(), 2);
    Ok(())
}

/// The size of a name that is there, where no call is to fail.
fn size_of(files: &mut MemFiles, name: &str) -> u64
    requires none_fails { files.old.fails ≡ [] }
    requires there { IsSome (held files.old name.now) }
{
    files.size(name).unwrap()
}

fn print(sink: &mut MemSink, piece: &[u8])
    requires none_fails { sink.old.fails ≡ [] }
    requires fits { length sink.old.bytes + length piece.now ≤ sink.old.room }
{
    sink.put(piece).unwrap()
}

#[test]
fn nothing_is_to_fail(rt: HostRuntime) -> Result<(), Fail> {
    let alloc = rt.alloc();
    let mut files = two_files(&rt, alloc, &[], 0)?;
    assert!(rt; files.contents("a").is_some());
    assert_eq!(rt; size_of(&mut files, "a"), 3);
    let mut sink = MemSink::new(alloc, 2, Vec::new(alloc))?;
    print(&mut sink, b"ab");
    assert_eq!(rt; sink.bytes(), b"ab".as_slice());
    Ok(())
}

/// Calls on a name of the system that isn't there, and what they are to answer.
const HOST_STEPS: &[(Call, Result<u64, Failed>)] = &[
    (Call::Size, Err(Failed)),
    (Call::Append(b"x"), Err(Failed)),
    (Call::Create, Ok(0)),
    (Call::Append(b"abc"), Ok(0)),
    (Call::Append(b"def"), Ok(0)),
    (Call::Size, Ok(6)),
    (Call::Byte(2), Ok(99)),
    (Call::Byte(6), Ok(256)),
    (Call::Create, Ok(0)),
    (Call::Size, Ok(0)),
    (Call::Append(b"abcdef"), Ok(0)),
];

#[test]
fn a_file_of_the_system(rt: HostRuntime) -> Result<(), Fail> {
    let alloc = rt.alloc();
    let path = format!(in alloc; "/tmp/outside-test-{}", process::id(rt.process()))?;
    let name = path.as_str();
    let mut files = HostFiles::new(&rt);
    for (call, want) in HOST_STEPS {
        check_step(&rt, &mut files, name, *call, *want);
    }
    let bytes = read_whole(alloc, &mut files, name, 6)?;
    assert_eq!(rt; bytes.as_slice(), b"abcdef".as_slice());
    fs::remove_file(&rt, name)?;
    Ok(())
}

#[test]
fn writers_of_the_system(rt: HostRuntime) -> Result<(), Fail> {
    let mut out = HostSink::new(rt.stdout());
    assert!(rt; out.put(b"to standard output\n") == Ok(()));
    let mut err = HostSink::new(rt.stderr());
    assert!(rt; err.put(b"to standard error\n") == Ok(()));
    // A file that is open for reading takes no byte.
    let mut shut = HostSink::new(File::open(&rt, "/dev/null")?);
    assert!(rt; shut.put(b"") == Ok(()));
    assert!(rt; shut.put(b"x") == Err(Failed));
    Ok(())
}
