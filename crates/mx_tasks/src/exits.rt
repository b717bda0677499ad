//! How the program ends where it doesn't do its task.
ghost use Rattle.std.specs.Prelude.{◌≡◌, ◌⊎◌};
ghost use Rattle.std.specs.Io.KnownBytes.{Appends};
ghost use Rattle.std.specs.Process.{exit_status};
ghost use Rattle.mx_tasks.specs.Voices.{fault_line};

use crate::fault::TaskFault;
use crate::voice::Voice;
use std::io::Write;
use std::process::ExitCode;

/// Says a fault, and gives status 1.
pub fn fail_to<V: Voice>(voice: &mut V, fault: TaskFault) -> ExitCode
    ensures status { exit_status result ≡ 1 }
    ensures said { Appends (V.said voice.old) (V.said voice.new) (fault_line fault) }
{
    let text = fault.text();
    voice.say(format_args!("fault: {text}\n"));
    ExitCode::from(1)
}

/// Says why a command line is bad, and gives status 2.
pub fn refuse_to<V: Voice>(voice: &mut V, text: &str) -> ExitCode
    ensures status { exit_status result ≡ 2 }
    ensures said { Appends (V.said voice.old) (V.said voice.new) text.now }
{
    voice.say(text);
    ExitCode::from(2)
}

/// Writes a text that was asked for, and gives status 0. Where it can't be written, that fault is said, and the status is 1.
pub fn show_to<W: Write, V: Voice>(writer: &mut W, voice: &mut V, text: &str) -> ExitCode
    ensures status { (exit_status result ≡ 0) ⊎ (exit_status result ≡ 1) }
    ensures shown { exit_status result ≡ 0
        → Appends (W.contents writer.old) (W.contents writer.new) text.now
        × (voice.new ≡ voice.old) }
    ensures unshown { exit_status result ≡ 1
        → Appends (V.said voice.old) (V.said voice.new) (fault_line TaskFault.Write) }
{
    if writer.write_all(text.as_bytes()).is_err() {
        return fail_to(voice, TaskFault::Write);
    }
    ExitCode::SUCCESS
}

/// Says a fault on standard error, and gives status 1.
pub fn fail(rt: &impl Eprint, fault: TaskFault) -> ExitCode
    ensures { exit_status result ≡ 1 }
{
    let mut voice = rt;
    fail_to(&mut voice, fault)
}
