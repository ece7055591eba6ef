use op_base::{FileAnswer, Files, Got, MemFiles, MemSink, MemSource, Put, Sink, Source};
use std::alloc::Global;
use std::test::Fail;

#[test]
fn a_source_fails_where_it_is_told_to(rt: HostRuntime) -> Result<(), Fail> {
    let alloc = rt.alloc();
    let mut source = MemSource::new(b"abc".to_vec(alloc)?, [1].to_vec(alloc)?);
    let mut buffer = [0u8; 2];
    for (answer, taken) in [
        (Got::Gave(2), *b"ab"),
        (Got::Failed, *b"ab"),
        (Got::Gave(1), *b"cb"),
        (Got::End, *b"cb"),
    ] {
        let is_answer = source.take(&mut buffer) == answer;
        assert!(rt; is_answer && buffer == taken);
    }
    Ok(())
}

#[test]
fn a_sink_takes_a_part(rt: HostRuntime) -> Result<(), Fail> {
    let alloc = rt.alloc();
    let mut sink = MemSink::new(alloc, 5, [1].to_vec(alloc)?)?;
    let whole = sink.put(b"ab") == Put::Done;
    let failing = sink.put(b"cd") == Put::Failed;
    let part = sink.put(b"cdefg") == Put::Failed;
    assert!(rt; whole && failing && part && sink.bytes() == b"abcde".as_slice());
    Ok(())
}

/// How a read of at most three bytes is answered.
fn read(files: &mut MemFiles, alloc: Global, name: &str) -> Result<&'static str, Fail> {
    Ok(match files.read(alloc, name, 3)? {
        FileAnswer::Found(bytes) => {
            if bytes.as_slice() == b"abc".as_slice() {
                "found"
            } else {
                "other"
            }
        }
        FileAnswer::Long => "long",
        FileAnswer::Missing => "missing",
        FileAnswer::Failed => "failed",
    })
}

/// Files whose third read fails.
fn stored(alloc: Global) -> Result<MemFiles, Fail> {
    let mut files = MemFiles::new(alloc, [2].to_vec(alloc)?);
    for (name, text) in [("a", "old"), ("a", "abc"), ("b", "abcd")] {
        files.add(name, text.as_bytes().to_vec(alloc)?)?;
    }
    Ok(files)
}

#[test]
fn files_fail_or_are_missing(rt: HostRuntime) -> Result<(), Fail> {
    let alloc = rt.alloc();
    let mut files = stored(alloc)?;
    for (name, answer) in [
        ("a", "found"),
        ("b", "long"),
        ("a", "failed"),
        ("c", "missing"),
    ] {
        assert!(rt; read(&mut files, alloc, name)? == answer, "{name}");
    }
    Ok(())
}
