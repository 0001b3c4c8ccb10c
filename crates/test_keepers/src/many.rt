//! One call that changes what many objects inherit, over the tables of a database.
use crate::rooms::{ROOT, shows, tables_with};
use room_ace::{Entry, Which, read_entries};
use room_rows::{Keep, KeepFault};
use sqlite::{Connection, MemStore, Transaction};
use std::alloc::Global;
use std::test::Fail;
use store_tables::{Keeper, RecentLists};

// Documents of the numbers 2, 3, 4, 6, 7 and 9.
const DOCUMENTS: &str = "\
INSERT INTO nodes VALUES (2, 1, 'b', 0, 'root', 'staff', 0, 0, '', '', '', '');
INSERT INTO nodes VALUES (3, 1, 'c', 0, 'root', 'staff', 0, 0, '', '', '', '');
INSERT INTO nodes VALUES (4, 1, 'd', 0, 'root', 'staff', 0, 0, '', '', '', '');
INSERT INTO nodes VALUES (6, 1, 'f', 0, 'root', 'staff', 0, 0, '', '', '', '');
INSERT INTO nodes VALUES (7, 1, 'g', 0, 'root', 'staff', 0, 0, '', '', '', '');
INSERT INTO nodes VALUES (9, 1, 'i', 0, 'root', 'staff', 0, 0, '', '', '', '');
";

// The numbers of a call, and whether all of these objects are there.
const EXAMPLES: [(&str, bool); 9] = [
    ("", true),
    ("3", true),
    ("2 3 4", true),
    ("7 3 2 9 6", true),
    ("9 7 6 4 3 2", true),
    ("4 4 6", true),
    ("5", false),
    ("4 5 6", false),
    ("0", false),
];

fn numbers_of(alloc: Global, text: &str) -> Result<Vec<u64>, Fail> {
    let mut ids = Vec::new(alloc);
    for word in text.split(' ') {
        if !word.is_empty() {
            ids.push(word.parse::<u64>()?)?;
        }
    }
    Ok(ids)
}

// How much is written by a call with these numbers.
fn set_inside(
    alloc: Global,
    tx: &mut Transaction<'_, MemStore>,
    ids: &[u64],
    which: Which,
    entries: &[Entry],
) -> Result<u64, KeepFault> {
    let mut lists = RecentLists::new();
    let mut keeper = Keeper {
        alloc,
        tx,
        lists: &mut lists,
        failures: 0,
        writes: 0,
    };
    keeper.set_inh_all(ids, which, entries)?;
    Ok(keeper.writes)
}

fn set_on(
    alloc: Global,
    conn: &mut Connection<MemStore>,
    ids: &[u64],
    which: Which,
) -> Result<Result<u64, KeepFault>, Fail> {
    if !conn.is_autocommit() {
        return Err(Fail::new("a transaction is open"));
    }
    let entries = read_entries(alloc, b"A:I:bob:r\n")?.ok_or("no entries")?;
    let mut tx = conn.transaction();
    let answer = set_inside(alloc, &mut tx, ids, which, entries.as_slice());
    tx.commit()?;
    Ok(answer)
}

// Every row inherits the entry in this list if it is one of these, and nothing else.
fn shows_each(
    alloc: Global,
    conn: &mut Connection<MemStore>,
    ids: &[u64],
    which: Which,
) -> Result<(), Fail> {
    for id in [1u64, 2, 3, 4, 6, 7, 9] {
        let query = format!(in alloc;
            "SELECT dacl_inh || '-' || sacl_inh FROM nodes WHERE id = {id}"
        )?;
        let wanted = match which {
            Which::Dacl if ids.contains(&id) => "A:I:bob:r\n-",
            Which::Sacl if ids.contains(&id) => "-A:I:bob:r\n",
            _ => "-",
        };
        shows(conn, query.as_str(), wanted)?;
    }
    Ok(())
}

fn sets(alloc: Global, text: &str, all_there: bool, which: Which) -> Result<(), Fail> {
    let ids = numbers_of(alloc, text)?;
    let mut conn = tables_with(alloc, &[ROOT, DOCUMENTS])?;
    match set_on(alloc, &mut conn, ids.as_slice(), which)? {
        Ok(writes) if all_there && writes == ids.len() as u64 => {
            shows_each(alloc, &mut conn, ids.as_slice(), which)
        }
        Err(KeepFault::Store) if !all_there => Ok(()),
        _ => Err(Fail::new(text)),
    }
}

#[test]
fn many_objects_inherit(rt: HostRuntime) -> Result<(), Fail> {
    for (text, all_there) in &EXAMPLES {
        sets(rt.alloc(), *text, *all_there, Which::Dacl)?;
        sets(rt.alloc(), *text, *all_there, Which::Sacl)?;
    }
    Ok(())
}
