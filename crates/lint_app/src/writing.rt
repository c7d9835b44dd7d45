//! Writes texts, and knows what a writer took where it fails.
ghost use Rattle.std.specs.Prelude.{◌≡◌, ◌≤◌, OnOk, length, take};
ghost use Rattle.std.specs.Io.KnownBytes.{Appends};
ghost use Rattle.lint_app.specs.Ended.{WritesPart};

use std::io::{self, ErrorKind, Write};

/// Writes a text.
///
/// # Errors
///
/// A write failed; the writer may have taken the beginning of the text.
pub fn write_text<W: Write>(output: &mut W, text: &str) -> io::Result<()>
    ensures whole { OnOk result (Appends (W.contents output.old) (W.contents output.new) text.now) }
    ensures part { WritesPart text.now (W.contents output.old) (W.contents output.new) }
{
    let (_, outcome) = send(output, text.as_bytes());
    outcome?;
    output.flush()
}

// Writes the bytes, and returns how many were taken. The turns are counted, so that the loop ends.
fn send<W: Write>(output: &mut W, bytes: &[u8]) -> (usize, io::Result<()>)
    ensures bound { result.0 ≤ length bytes.now }
    ensures taken { Appends (W.contents output.old) (W.contents output.new) (take result.0 bytes.now) }
    ensures all { OnOk result.1 (result.0 ≡ length bytes.now) }
{
    let mut sent = 0;
    'writes: for _ in 0..usize::MAX {
        if sent >= bytes.len() {
            return (sent, Ok(()));
        }
        match output.write(&bytes[sent..]) {
            Ok(0) => return (sent, Err(io::Error::from(ErrorKind::WriteZero))),
            Ok(n) => sent += n,
            Err(error) => {
                if error.kind() != ErrorKind::Interrupted {
                    return (sent, Err(error));
                }
            }
        }
    }
    (sent, Err(io::Error::from(ErrorKind::TimedOut)))
}
