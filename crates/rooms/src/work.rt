//! The subcommands that need the file of a room.
use cli_act::act_on;
use cli_outcome::ListenAddress;
use cli_serve::host_on;
use cli_system::{close, connect, make_file, take_away, task_for, test_room};
use cli_words::{Job, Stop, Task};
use sqlite_std_file::Start;

/// Reads what the job needs, validates it, and carries it out on the file. The error is why nothing
/// was done.
pub fn carry_out<S: Start>(
    rt: &HostRuntime,
    start: S,
    file: &str,
    job: &Job<'_>,
) -> Result<u8, Stop> {
    let task = task_for(rt, job)?;
    match task {
        Task::Init(_) => begin(rt, start, file, &task),
        Task::Migrate | Task::OnRoom(_) => {
            test_room(rt, file)?;
            work_on(rt, start, file, &task)
        }
    }
}

// Makes the file and the room in it. Where that fails, the file is removed again.
fn begin<S: Start>(rt: &HostRuntime, start: S, file: &str, task: &Task) -> Result<u8, Stop> {
    let log = make_file(rt, file)?;
    let status = work_on(rt, start, file, task);
    if !matches!(status, Ok(0)) {
        take_away(rt, file, log.as_str());
    }
    status
}

// Opens the file, and does the task on it. It alone holds the connection.
fn work_on<S: Start>(rt: &HostRuntime, start: S, file: &str, task: &Task) -> Result<u8, Stop> {
    let conn = connect(rt, file, start)?;
    let (conn, status) = act_on(rt, conn, task);
    close(conn);
    Ok(status)
}

/// Serves this number of connections at the address, and answers the exit status. The error is why
/// the file wasn't opened.
pub fn serve<S: Start>(
    rt: &HostRuntime,
    start: S,
    file: &str,
    address: ListenAddress<'_>,
    count: u32,
) -> Result<u8, Stop> {
    test_room(rt, file)?;
    let conn = connect(rt, file, start)?;
    let (conn, status) = host_on(rt, conn, address, count);
    close(conn);
    Ok(status)
}
