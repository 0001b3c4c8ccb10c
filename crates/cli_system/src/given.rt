//! The words of the process and what it is given to read.
use cli_check::tell_check;
use cli_words::{Input, Job, Stop, Task, read_task};
use cli_would::tell_would;
use std::io::ErrorKind;
use std::{env, fs, io};

/// The process's arguments. The error is `NotText` where one isn't UTF-8, or that memory ran out.
pub fn words_of(rt: &HostRuntime) -> Result<Vec<String>, Stop> {
    match env::args(rt) {
        Ok(words) => Ok(words.collect(rt.alloc())?),
        Err(error) => match error.kind() {
            ErrorKind::OutOfMemory => Err(Stop::from(error)),
            _ => Err(Stop::NotText),
        },
    }
}

/// Judges the list on standard input as `tell_check` does, and answers the exit status.
pub fn check(rt: &HostRuntime) -> u8 {
    tell_check(
        rt.alloc(),
        &mut rt.reader(),
        &mut rt.stdout(),
        &mut rt.stderr(),
    )
}

/// Answers the question on standard input as `tell_would` does, and answers the exit status.
pub fn would(rt: &HostRuntime) -> u8 {
    tell_would(
        rt.alloc(),
        &mut rt.reader(),
        &mut rt.stdout(),
        &mut rt.stderr(),
    )
}

/// The task, with what the job names as its input. The error is that of `read_task`, or that of the
/// file that the job names.
pub fn task_for(rt: &HostRuntime, job: &Job<'_>) -> Result<Task, Stop> {
    match job.input() {
        Input::Nothing => read_task(rt.alloc(), job, &mut io::empty()),
        Input::Standard => read_task(rt.alloc(), job, &mut rt.reader()),
        Input::File(name) => read_task(rt.alloc(), job, &mut fs::open(rt, name)?),
    }
}
