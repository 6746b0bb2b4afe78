//! The exit code of the program, from the words of its command line.

ghost use Rattle.std.specs.Prelude.{◌≡◌, ◌⊎◌, false, IfOk, IsErr, IsOk};
ghost use Rattle.std.specs.Process.{exit_status};
ghost use Rattle.planner.specs.Commands.{given, words_after_name, AreNoText, IsOutOfMemory, command_of};
ghost use Rattle.planner.specs.Endings.{HasConcluded};
ghost use Rattle.planner.specs.Inputs.{IsUnread, IsUnwritten};
ghost use Rattle.planner.specs.declared.statuses.TheConstants.{WORDS_REFUSED, WRITE_FAULT};
ghost use Rattle.planner.specs.declared.top_call.Done.{Done};

use crate::statuses::NO_MEMORY;
use crate::top_call::run;
use plan_model::{Memory, Sink, Source};
use plan_work::NoGate;
use std::alloc::{AllocGlobal, Global};
use std::env::Args;
use std::io;
use std::process::ExitCode;
use std::random::RandomSource;
use std::sync::Wait;
use std::thread::Threads;

/// Runs the program on the arguments that `env::args` gives, and returns the code that it ends with: the status of `run`.
///
/// Arguments that are no text, which `env::args` tells by an error of another kind than `OutOfMemory`, ask for no command: they
/// are refused with `WORDS_REFUSED`, or with `WRITE_FAULT` if the sink fails. If the program is out of memory for the words, the code is
/// `NO_MEMORY`, and nothing is read or written. The source has not given its end.
pub fn exit_code<
    R: Threads + Sync + Wait + RandomSource + AllocGlobal + Clone + Drop,
    S: Source,
    K: Sink,
>(rt: &R, alloc: Global, args: io::Result<Args>, source: &mut S, sink: &mut K) -> ExitCode
    requires { (S.state source.old).has_ended ≡ false }
    // out of memory for the words, and then nothing is read or written; or what `run` does for them
    ensures done { ((exit_status result ≡ NO_MEMORY) × IsUnread (S.state source.old) (S.state source.new)
        × IsUnwritten (K.state sink.old) (K.state sink.new))
        ⊎ ((done : Done) × (exit_status result ≡ done.status) × HasConcluded (command_of (words_after_name args))
        (S.state source.old) (S.state source.new) (K.state sink.old) (K.state sink.new) done) }
    ensures no_words { IsOutOfMemory args → exit_status result ≡ NO_MEMORY }
    // arguments that are no text are refused as words, whatever memory there is, unless the sink fails
    ensures no_text { AreNoText args → (exit_status result ≡ WORDS_REFUSED) ⊎ (exit_status result ≡ WRITE_FAULT) }
{
    match words_after_name(alloc, args) {
        Ok(words) => ExitCode::from(run(rt, alloc, &words, source, sink, &NoGate).status),
        Err(_) => ExitCode::from(NO_MEMORY),
    }
}

/// The words after the program's name: none if the arguments are no text.
///
/// # Errors
///
/// `Memory` if out of memory for the arguments or for the words.
pub fn words_after_name(alloc: Global, args: io::Result<Args>) -> Result<Vec<String>, Memory>
    ensures words { IfOk result (λ words. words.items ≡ given args) }
    ensures no_memory { IsOutOfMemory args → IsErr result }
    ensures no_text { AreNoText args → IsOk result }
{
    match args {
        Ok(args) => Ok(args.skip(1).collect(alloc)?),
        Err(error) if error.kind() == io::ErrorKind::OutOfMemory => Err(Memory),
        Err(_) => Ok(Vec::new(alloc)),
    }
}
