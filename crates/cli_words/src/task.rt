//! The task of a job and of what is read for it.
ghost use Rattle.std.specs.Prelude.{◌≡◌};
ghost use Rattle.cli_outcome.specs.Reading.{TakesAtMost};
ghost use Rattle.cli_words.specs.Tasks.{task_of};
ghost use Rattle.cli_words.specs.Asked.{input_of};
ghost use Rattle.cli_words.specs.Reads.{IsTask, ReadsTask, most_of};

use crate::command::{Input, Job};
use crate::judging::{MOST_GROUP_BYTES, Task, judge};
use crate::stop::Stop;
use cli_outcome::{Fault, read_front};
use room_ace::MOST_BYTES;
use std::alloc::Global;
use std::io::Read;

/// The task of a job, or why it is refused. The reader has what the job's `input` names. Of an
/// input that is too long one byte more is read than it may have. Nothing is read where the job has
/// no input.
pub fn read_task<R: Read>(alloc: Global, job: &Job<'_>, reader: &mut R) -> Result<Task, Stop>
    ensures task { ReadsTask job.now (R.remaining reader.old) result }
    ensures few { TakesAtMost (most_of (input_of job.now)) (R.remaining reader.old)
        (R.remaining reader.new) }
{
    match read_front(alloc, reader, most_of(job)) {
        Ok(input) => task_in(alloc, job, input.as_slice()),
        Err(error) => Err(Stop::Failed(Fault::of_stream(&error))),
    }
}

// How many bytes show what the job's input is, or that it is too long.
fn most_of(job: &Job<'_>) -> usize
    ensures { result ≡ most_of (input_of job.now) }
{
    match job.input() {
        Input::Nothing => 0,
        Input::Standard => MOST_BYTES + 1,
        Input::File(_) => MOST_GROUP_BYTES + 1,
    }
}

// The task of a job and its input.
fn task_in(alloc: Global, job: &Job<'_>, input: &[u8]) -> Result<Task, Stop>
    ensures { IsTask (task_of job.now input.now) result }
{
    Ok(judge(alloc, job, input)?)
}
