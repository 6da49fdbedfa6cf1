//! Sources and sinks in memory.

ghost use Rattle.std.specs.Io.{ReadsAtMost};

use json_terms::NoMemory;
use std::alloc::Global;
use std::test::Fail;
use view_ports::{
    INPUT_LIMIT, MemorySink, MemorySource, PortFault, RunEnd, Sink, Source, write_all,
};

fn read<S: Source>(source: &mut S, into: &mut [u8]) -> Result<usize, PortFault>
    ensures { ReadsAtMost result into.new }
{
    source.read(into)
}

fn write<K: Sink>(sink: &mut K, from: &[u8]) -> Result<usize, PortFault> {
    sink.write(from)
}

/// What reads give one after another, and the bytes at the front of the room then.
const READS: &[(Result<usize, PortFault>, &[u8])] = &[
    (Ok(2), b"ab"),
    (Err(PortFault), b""),
    (Ok(2), b"cd"),
    (Ok(1), b"e"),
    (Err(PortFault), b""),
    (Ok(0), b""),
];

fn reads_so(source: &mut MemorySource, want: Result<usize, PortFault>, bytes: &[u8]) -> bool {
    let mut into = [0; 3];
    read(source, &mut into) == want && into.starts_with(bytes)
}

#[test]
fn a_source_gives_its_bytes_in_pieces(rt: HostRuntime) -> Result<(), Fail> {
    let fail = [1, 4].to_vec(rt.alloc())?;
    let mut source = MemorySource::new(rt.alloc(), b"abcde", 2, fail)?;
    for (want, bytes) in READS {
        assert!(rt; reads_so(&mut source, *want, bytes));
    }
    Ok(())
}

/// What writes are given one after another, and what they answer.
const WRITES: &[(&[u8], Result<usize, PortFault>)] = &[
    (b"abcde", Ok(3)),
    (b"x", Err(PortFault)),
    (b"de", Ok(2)),
    (b"", Ok(0)),
];

#[test]
fn a_sink_takes_pieces(rt: HostRuntime) -> Result<(), Fail> {
    let fail = [1].to_vec(rt.alloc())?;
    let mut sink = MemorySink::new(rt.alloc(), 3, fail)?;
    for (from, want) in WRITES {
        assert!(rt; write(&mut sink, from) == *want);
    }
    assert_eq!(rt; sink.held(), b"abcde".as_slice());
    Ok(())
}

/// The most bytes that a call takes, the calls that fail, whether all of a reply is written, and what is held then.
const TEXTS: &[(usize, &[u64], bool, &[u8])] = &[
    (9, &[], true, b"reply\n"),
    (1, &[6], true, b"reply\n"),
    (9, &[0], false, b""),
    (4, &[1], false, b"repl"),
];

fn is_written_so(
    alloc: Global,
    piece: usize,
    fail: &[u64],
    whole: bool,
    held: &[u8],
) -> Result<bool, NoMemory> {
    let mut sink = MemorySink::new(alloc, piece.max(1), fail.to_vec(alloc)?)?;
    let is_whole = write_all(&mut sink, b"reply\n").is_ok();
    Ok(is_whole == whole && sink.held() == held)
}

#[test]
fn a_text_is_written_up_to_the_fault(rt: HostRuntime) -> Result<(), Fail> {
    for (piece, fail, whole, held) in TEXTS {
        let right = is_written_so(rt.alloc(), *piece, fail, *whole, held)?;
        assert!(rt; right, "pieces of {piece}");
    }
    Ok(())
}

#[test]
fn each_end_has_its_status(rt: HostRuntime) -> Result<(), Fail> {
    for (end, want) in [
        (RunEnd::InputEnded, 0),
        (RunEnd::SinkFailed, 4),
        (RunEnd::SourceFailed, 5),
        (RunEnd::OutOfMemory, 6),
        (RunEnd::InputTooLong, 8),
    ] {
        assert_eq!(rt; end.status(), want);
    }
    assert_eq!(rt; INPUT_LIMIT, 1_099_511_627_776);
    assert_eq!(rt;
        format!(in rt.alloc(); "{PortFault}")?.as_str(),
        "the device failed"
    );
    Ok(())
}
