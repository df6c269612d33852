// Reading a file by its name.
ghost use Rattle.twolsken.specs.Working.{AtFront};

use std::fs::File;
use std::io::{ErrorKind, Read, Write};
use std::{io, str};

// Reads until the end of the file or until the buffer is full. A read may hand over fewer bytes than there is room for; none are
// the end of the file. It is a `while`, for nothing counts the reads: each adds what it read.
fn read_all(file: &mut File, buf: &mut [u8]) -> io::Result<usize>
    ensures { AtFront result buf.new }
{
    let mut done = 0;
    while done < buf.len() {
        let n = file.read(&mut buf[done..])?;
        if n == 0 {
            break;
        }
        done += n;
    }
    Ok(done)
}

// Opens the named file of the current folder and reads it; a missing file is empty.
fn read_named(rt: &HostRuntime, name: &str, buf: &mut [u8]) -> io::Result<usize>
    ensures { AtFront result buf.new }
{
    match File::open(rt, name) {
        Ok(mut file) => read_all(&mut file, buf),
        Err(error) if error.kind() == ErrorKind::NotFound => Ok(0),
        Err(error) => Err(error),
    }
}

// How many bytes of the named file of the current folder were read; a missing file is empty. Where it cannot be read, the reason
// goes to standard error.
pub(crate) fn read_file(rt: &HostRuntime, name: &str, buf: &mut [u8]) -> io::Result<usize>
    ensures { AtFront result buf.new }
{
    read_named(rt, name, buf).inspect_err(|error| report(rt, name, error))
}

// Writes a line to standard error: what failed, a colon and the reason, without the number of the error that `io::Error` adds.
// Where that cannot be written either, nothing more can be said.
pub(crate) fn report(rt: &HostRuntime, what: &str, error: &io::Error) {
    let mut line = [0u8; 256];
    let mut rest = &mut line[..];
    let _ = write!(rest, "{error}");
    let room = rest.len();
    let said = &line[..256usize.saturating_sub(room)];
    let text = str::from_utf8(said).unwrap_or("");
    let reason = match text.split_once(" (os error ") {
        Some((reason, _)) => reason,
        None => text,
    };
    let _ = eprintln!(rt; "{what}: {reason}");
}
