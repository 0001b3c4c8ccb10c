//! The words of the command line: which command they are, or what `clap` says of them. What the
//! command is asked to do, once its input is read too, and what is printed if the program ends
//! before that is done.
#![tactic(auto)]

mod command;
mod help;
mod ids;
mod judging;
mod line;
mod reading;
mod refusal;
mod stop;
mod task;
mod telling;

pub use command::{CliFault, Command, Input, Job};
pub use judging::{MOST_GROUP_BYTES, RoomTask, Task, judge};
pub use reading::read_command;
pub use refusal::TaskRefusal;
pub use stop::Stop;
pub use task::read_task;
pub use telling::tell_stop;
