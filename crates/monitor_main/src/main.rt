//! The program: the command line, the current folder, standard output and standard error, handed to
//! `monitor`. The configuration is `monitor.toml`, the store `monitor.store`; each is opened at its
//! first use, and the store is held by a command that writes it.
#![tactic(auto)]

ghost use Rattle.std.specs.Prelude.{◌≡◌};
ghost use Rattle.std.specs.Process.{exit_status};
ghost use Rattle.status.specs.Status.{code_of};

use adapters::{
    FileStation, FolderSite, NamedFile, OutputSink, Reasons, StoreAccess, WordFault, words_of,
};
use monitor::monitor;
use outside::OpenGate;
use status::Status;
use status::fault_lines::tell_no_memory;
use std::io;
use std::io::Stderr;
use std::process::ExitCode;
use std::sync::Wait;
use std::thread::Threads;

fn main(rt: HostRuntime) -> ExitCode {
    exit_code(run(&rt, &rt))
}

// Does what the words behind the program's name say. Words that are no text are no command. The
// threads come from the runtime as `main` has it.
fn run<R: AllocGlobal + Threads + Wait + Sync>(threads: &R, rt: &HostRuntime) -> Status {
    match words_of(rt, rt.alloc()) {
        Ok(words) => run_words(threads, rt, words.as_slice()),
        Err(WordFault::NotText) => run_words(threads, rt, &[]),
        Err(WordFault::OutOfMemory) => {
            tell_no_memory(&mut store_of(rt, StoreAccess::Read));
            Status::OutOfMemory
        }
    }
}

fn run_words<R: AllocGlobal + Threads + Wait + Sync>(
    threads: &R,
    rt: &HostRuntime,
    words: &[String],
) -> Status {
    let mut config = NamedFile::new(rt, "monitor.toml", reasons_of(rt));
    let mut site = FolderSite::new(rt, reasons_of(rt));
    let mut station = store_of(rt, StoreAccess::of_words(words));
    let mut out = OutputSink::new(io::writer(rt), "standard output", reasons_of(rt));
    monitor(
        threads,
        words,
        &mut config,
        &mut site,
        &mut station,
        &mut out,
        &OpenGate,
    )
}

// The store, as a command uses it.
fn store_of<'a>(rt: &'a HostRuntime, access: StoreAccess) -> FileStation<'a, HostRuntime, Stderr> {
    FileStation::new(rt, "monitor.store", access, rt.stderr(), reasons_of(rt))
}

// Where the reasons of faults are told.
fn reasons_of(rt: &HostRuntime) -> Reasons<Stderr> {
    Reasons::new(rt.alloc(), rt.stderr())
}

// What the process ends with.
fn exit_code(status: Status) -> ExitCode
    ensures { exit_status result ≡ code_of status }
{
    ExitCode::from(status.code())
}
