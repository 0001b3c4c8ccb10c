//! What `--help` prints of each subcommand: more of what it does, the statuses, and an example.

// Of the input, the answers and the statuses of `check`.
pub(crate) const CHECK: &str = "\
The input has four lines of headers, and then the list:

caller: alice
groups: staff,sales
owners: root:staff
ask: r
list:
D::EVERYONE@:w
A:g:staff:r

A caller without a name is anonymous, and then has no groups. The letters after
ask: are those of a mask, and a line of the list is TYPE:FLAGS:WHO:MASK.

The answer is one line, with its status:

  0  granted
  1  denied bits LETTERS entry PLACE ENTRY, or: denied bits LETTERS no entry
  2  refused: why
  3  a fault, printed on standard error

Example: rooms check < input.txt";

// Of the lines, the answer and the statuses of `would`.
pub(crate) const WOULD: &str = "\
The question has a piece of a room, what is to change in it, and a list below
each object and below each set:

member staff bob
folder alice staff /
list:a
A:fd:OWNER@:rwanNxDtThHdcCoy
A:fdg:staff:rx
document alice staff /plan.txt
follows
set /plan.txt
list:p
A::OWNER@:rwanNxDtThHdcCoy

The lines come in this order: member GROUP USER, and as LABEL USER GROUP,GROUP;
folder OWNER GROUP PATH, or document, the root first; then changes, which are set
PATH, move PATH with to PATH below it, and folder+ or document+ for what comes. In
their place look PATH changes nothing. lists, at the end, asks for lists too.
follows stands for the list of an object without an entry of its own, and unread
for one that is not known.

The answer is a row path,kind,user,rights,remove,then,then_remove, and then a row
for each object and caller: what the caller may do before, and then. All rows of
the first object stand, and below it those that the folder's rows don't say.

  0  the rows
  2  refused: line N: why
  3  a fault, printed on standard error

Example: rooms would < question.txt";

pub(crate) const INIT: &str = "\
The room has its root alone, a folder of this owner and this group, without
members and records. The root's dacl is

list:a
A:fd:OWNER@:rwanNxDtThHdcCoy

so that the owner may do everything with it, and nobody else has any right
there. Its sacl is list:a without an entry. reset sets other lists.

  0  ready
  2  refused: A3 bad who, or: refused: file exists
  3  a fault, printed on standard error

Example: rooms init office.rooms alice staff";

pub(crate) const SERVE: &str = "\
It prints where it listens, as listening 127.0.0.1:8780, and ends after the last
connection. Users send requests over HTTP. With --socket it prints that path, as
listening office.socket. The socket's file is made there, and removed at the end;
where something is there already, that is a fault. Whoever can reach the port, or
may write to the socket's file, can ask in any user's name.

  0  it served them
  2  refused: why
  3  a fault, printed on standard error

Examples: rooms serve office.rooms --port 8781 --count 100
          rooms serve office.rooms --socket office.socket --count 100";

pub(crate) const GROUPS: &str = "\
The first row of the CSV file is group,user, and each further row a pair of two
names. These members replace all others.

Without CSV, --join puts a user into a group, and --leave takes one out. Both may
be given several times, and all is changed at once. Who leaves and joins the same
group is in it afterwards. Nothing is changed for who is in a group and joins it,
or isn't in it and leaves it.

  0  groups G, members M; of changes: joined J, left L, members M
  2  refused: row N: why, or another refusal
  3  a fault, printed on standard error

Examples: rooms groups office.rooms members.csv
          rooms groups office.rooms --join sales carol --leave sales bob";

pub(crate) const GROUPS_OUT: &str = "\
A row group,user, and then a row for each pair, in order of group and user.

  0  the rows
  2  refused: why
  3  a fault, printed on standard error

Example: rooms groups-out office.rooms";

pub(crate) const AUDIT: &str = "\
A row at,user,path,bits,granted,entry,kind, and then a row for each record, the
oldest first.

  0  the rows
  2  refused: why
  3  a fault, printed on standard error

Example: rooms audit office.rooms";

pub(crate) const DUMP: &str = "\
Each object with its owners and both lists, the root first and children by name,
and then the members.

  0  the lines
  2  refused: why
  3  a fault, printed on standard error

Example: rooms dump office.rooms";

pub(crate) const GET: &str = "\
Its bytes as they are, with nothing before or after them. No right is asked, and
no record is left. PATH is written as it is, without escapes.

  0  the bytes
  2  refused: N1 no-such at PATH, or another refusal
  3  a fault, printed on standard error

Example: rooms get office.rooms /letters/2026.txt > 2026.txt";

pub(crate) const REVIEW: &str = "\
A row path,kind,user,rights,remove, and then a row for each object and caller:
which rights this caller would be granted there, by their letters, and whether
the object may be removed. The callers are all users who are in a group, own
something or are named in a list; then *, which is any other name; then
ANONYMOUS@, a caller without a name. A row that repeats what the same caller may
do with the folder above is left out. PATH is written as it is, without escapes.

  0  the rows
  2  refused: N1 no-such at PATH, or another refusal
  3  a fault, printed on standard error

Example: rooms review office.rooms /letters --user bob";

pub(crate) const RESET: &str = "\
The list is read from standard input: the line list: with its flags, and then an
entry on each line. PATH is written as it is, without escapes.

  0  done
  2  refused: line N: why, refused: N1 no-such at PATH, or another refusal
  3  a fault, printed on standard error

Example: rooms reset office.rooms / dacl < list.txt";

pub(crate) const VERIFY: &str = "\
It tests lists, the root, parents, names, bytes and what is inherited.

  0  sound
  1  fault PATH why
  2  refused: why
  3  a fault, printed on standard error

Example: rooms verify office.rooms";

pub(crate) const MIGRATE: &str = "\
Schema 1 is upgraded to schema 2, if the rows are sound. With any answer other
than migrated the file is as it was. Schema 2 is new: it stores with each object
all entries that it inherits, where schema 1 left out those that its folder's
list passes down. The lists mean the same.

A file that the other subcommands refuse with schema 1 is old needs it. One that
init made has schema 2, and is refused here with schema 2 is new.

  0  migrated
  1  fault PATH why
  2  refused: why
  3  a fault, printed on standard error

Example: rooms migrate office.rooms";
