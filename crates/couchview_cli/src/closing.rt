//! The last line of a run that a fault of the folder ends. Writing it takes no memory.
ghost use Rattle.std.specs.Prelude.{◌≡◌, ◌≤◌, ◌≢◌, [], OnErr, OnOk, option_map, Option, ℕ};
ghost use Rattle.std.specs.Io.KnownBytes.{Appends};
ghost use Rattle.view_ports.specs.Faults.{HasCause, Rose};
ghost use Rattle.couchview_cli.specs.Closing.{about_file, closing_of, fault_status, limit_text, Closes};
ghost use Rattle.line_loop.specs.Loops.{FailsIn};

use itoa::Buffer;
use real_ports::{FILE_TEXT_LIMIT, file_text};
use view_engine::StepFault;
use view_ports::{FileName, PortFault, RunEnd, Sink, write_all};

/// The exit status where the disk failed.
const DISK_FAILED: u8 = 3;

/// The exit status where a file is damaged.
const DAMAGED: u8 = 7;

/// The exit status where a file is full.
const FULL: u8 = 9;

/// Writes the last line of a run that this fault ended, and answers the exit status.
pub fn close<K: Sink>(sink: &mut K, fault: StepFault) -> u8
    ensures closes { Closes (K.held sink.old) (K.held sink.new) [] fault result }
    ensures no_usage { result ≢ 2 }
    ensures sink_failed { result ≡ 4 → Rose (K.faults sink.old) (K.faults sink.new) }
    ensures sink_count { K.faults sink.old ≤ K.faults sink.new }
{
    match write_last(sink, fault) {
        Ok(()) => status_of(fault),
        Err(PortFault) => RunEnd::SinkFailed.status(),
    }
}

/// The exit status that says that a run was ended by this fault.
fn status_of(fault: StepFault) -> u8
    ensures { result ≡ fault_status fault }
{
    match fault {
        StepFault::DiskFault => DISK_FAILED,
        StepFault::Damaged { name: _, offset: _ } => DAMAGED,
        StepFault::Full { name: _, length: _ } => FULL,
        StepFault::NoMemory => RunEnd::OutOfMemory.status(),
    }
}

/// Writes the last line, which names the fault. For want of memory there is none.
fn write_last<K: Sink>(sink: &mut K, fault: StepFault) -> Result<(), PortFault>
    ensures ok { OnOk result (Appends (K.held sink.old) (K.held sink.new) (closing_of fault)) }
    ensures err { OnErr result (FailsIn (K.held sink.old) (K.held sink.new) (closing_of fault)) }
    ensures cause { HasCause (K.faults sink.old) (K.faults sink.new) result }
{
    let mut digits = Buffer::new();
    match fault {
        StepFault::DiskFault => {
            write_all(
                sink,
                b"{\"error\":\"disk_fault\",\"reason\":\"the run ends\"}\n",
            )
        }
        StepFault::Damaged { name, offset } => {
            let offset = digits.format(offset);
            write_about(sink, b"damaged", &name, offset.as_bytes())
        }
        StepFault::Full { name, length } => match length {
            Some(length) => {
                let length = digits.format(length);
                write_about(sink, b"full", &name, length.as_bytes())
            }
            None => write_about(sink, b"full", &name, b"commits"),
        },
        StepFault::NoMemory => write_all(sink, b""),
    }
}

/// Writes a line that names an error, and of which file and what it is said.
fn write_about<K: Sink>(
    sink: &mut K,
    error: &[u8],
    name: &FileName,
    what: &[u8],
) -> Result<(), PortFault>
    ensures ok { OnOk result (Appends (K.held sink.old) (K.held sink.new)
        (about_file error.now name.now what.now)) }
    ensures err { OnErr result (FailsIn (K.held sink.old) (K.held sink.new)
        (about_file error.now name.now what.now)) }
    ensures cause { HasCause (K.faults sink.old) (K.faults sink.new) result }
{
    let mut room = [0; FILE_TEXT_LIMIT];
    write_all(sink, b"{\"error\":\"")?;
    write_all(sink, error)?;
    write_all(sink, b"\",\"reason\":\"")?;
    write_all(sink, file_text(name, &mut room))?;
    write_all(sink, b" ")?;
    write_all(sink, what)?;
    write_all(sink, b"\"}\n")
}
