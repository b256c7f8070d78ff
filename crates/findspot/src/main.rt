// Says where points lie in a plan: standard input is read to its end, and what `answers::answer` gives for it is written to standard output
// (document 01, "Trays to try"). What is read and written is proved of any reader and writer; that standard input and output are such, as far as
// the system goes, stands outside the proof.
#![tactic(auto)]

ghost use Rattle.std.specs.Prelude.{OnOk};
ghost use Rattle.std.specs.Io.KnownBytes.{Appends};
ghost use Rattle.answers.specs.Answers.{answered};

mod input;

use answers::{MAX_INPUT, answer};
use input::read_input;
use std::io;
use std::io::Write;
use std::process::ExitCode;

// Room for any answer.
const OUTPUT_ROOM: usize = 65536;

// Writes the answer to an input.
fn reply<W: Write>(input: &[u8], target: &mut W) -> io::Result<()>
    ensures { OnOk result (Appends (W.contents target.old) (W.contents target.new) (answered input.now)) }
{
    let mut output = [0u8; OUTPUT_ROOM];
    let Ok(count) = answer(input, &mut output) else {
        // No answer has more bytes than there is room for.
        return Ok(());
    };
    target.write_all(&output[..count])
}

// Says on standard error what failed.
fn fail(rt: &impl Eprint, name: &str, error: io::Error) -> ExitCode {
    let _ = eprintln!(rt; "findspot: {name}: {error}");
    ExitCode::FAILURE
}

fn main(rt: HostRuntime) -> ExitCode {
    // One byte more than an input may have, so that a longer one is seen to be too long.
    let mut input = [0u8; MAX_INPUT + 1];
    match read_input(&mut rt.stdin(), &mut input) {
        Ok(count) => match reply(&input[..count], &mut rt.stdout()) {
            Ok(()) => ExitCode::SUCCESS,
            Err(error) => fail(&rt, "standard output", error),
        },
        // A part of an input is not answered.
        Err(error) => fail(&rt, "standard input", error),
    }
}
