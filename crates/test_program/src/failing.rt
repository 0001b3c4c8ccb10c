//! Writers that fail.
use crate::scripts::{Ask, task_of};
use cli_act::act;
use sqlite::{Connection, MemStore};
use std::alloc::Global;
use std::io::{self, Error, ErrorKind, Write};
use std::test::Fail;

// Takes a number of bytes, and then no more.
#[derive(Drop)]
struct Short {
    left: usize,
}

impl Write for Short {
    fn write(&mut self, buf: &[u8]) -> io::Result<usize> {
        if self.left == 0 {
            return Err(Error::from(ErrorKind::BrokenPipe));
        }
        let count = self.left.min(buf.len());
        self.left -= count;
        Ok(count)
    }

    fn flush(&mut self) -> io::Result<()> {
        Ok(())
    }
}

fn init<O: Write, E: Write>(
    alloc: Global,
    conn: Connection<MemStore>,
    out: &mut O,
    err: &mut E,
) -> Result<u8, Fail> {
    if !conn.is_autocommit() {
        return Err(Fail::from("a transaction is open"));
    }
    match task_of(alloc, Ask::Init) {
        Ok(task) => Ok(act(alloc, conn, &task, out, err).1),
        Err(_) => Err(Fail::from("no task")),
    }
}

#[test]
fn output_that_fails_is_told(rt: HostRuntime) -> Result<(), Fail> {
    let alloc = rt.alloc();
    let mut err = Vec::new(alloc);
    let conn = Connection::open_in_memory(alloc)?;
    let status = init(alloc, conn, &mut Short { left: 3 }, &mut err)?;
    assert_eq!(&rt; status, 3);
    assert_eq!(&rt; err.as_slice(), b"fault: file\n".as_slice());
    Ok(())
}

#[test]
fn status_tells_alone_where_both_fail(rt: HostRuntime) -> Result<(), Fail> {
    let alloc = rt.alloc();
    let conn = Connection::open_in_memory(alloc)?;
    let status = init(alloc, conn, &mut Short { left: 0 }, &mut Short { left: 2 })?;
    assert_eq!(&rt; status, 3);
    Ok(())
}
