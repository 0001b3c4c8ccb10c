//! Statements on the tables of a room, and what all its rows are.

use crate::words::push_lines;
use sqlite::{Alter, Connection, Error, Row};
use std::alloc::Global;
use std::test::Fail;
use test_player::{push, push_all};

// All rows of each table, each as one text. Texts that are no UTF-8 may stand in them.
static ALL_ROWS: [&str; 5] = [
    "SELECT hex(id || ' ' || coalesce(parent, '-') || ' ' || name || ' ' || kind || ' ' || owner \
     || ' ' || grp || ' ' || dacl_flags || ' ' || sacl_flags || ' ' || dacl_own || ' ' || dacl_inh \
     || ' ' || sacl_own || ' ' || sacl_inh) FROM nodes ORDER BY id",
    "SELECT node || ' ' || hex(bytes) FROM bodies ORDER BY node",
    "SELECT hex(grp || ' ' || user) FROM members ORDER BY user, grp",
    "SELECT key || ' ' || value FROM meta ORDER BY key",
    "SELECT hex(seq || ' ' || at || ' ' || user || ' ' || path || ' ' || bits || ' ' || granted \
     || ' ' || entry) FROM audits ORDER BY seq",
];

/// Runs statements, and adds whether they were carried out.
pub(crate) fn change<S: Alter>(
    conn: &mut Connection<S>,
    statements: &str,
    told: &mut String,
) -> Result<(), Fail> {
    match changed(conn, statements) {
        Ok(()) => push(told, "done"),
        Err(_) => push(told, "refused"),
    }
}

fn changed<S: Alter>(conn: &mut Connection<S>, statements: &str) -> Result<(), Error> {
    conn.execute_batch(statements)
}

/// Adds the text in the only column of the first row that a query shows.
pub(crate) fn show<S: Alter>(
    conn: &mut Connection<S>,
    query: &str,
    told: &mut String,
) -> Result<(), Fail> {
    let text = shown(conn, query)?;
    push_lines(told, text.as_str())
}

fn shown<S: Alter>(conn: &mut Connection<S>, query: &str) -> Result<String, Error> {
    conn.query_row(query, &[])?.get(0)
}

/// All rows of all tables, those of a table that isn't there left out.
pub(crate) fn rows_of<S: Alter>(alloc: Global, conn: &mut Connection<S>) -> Result<String, Fail> {
    let mut text = String::new(alloc);
    push_all_rows(conn, &mut text)?;
    Ok(text)
}

/// Adds all rows of all tables, those of a table that isn't there left out.
pub(crate) fn push_all_rows<S: Alter>(
    conn: &mut Connection<S>,
    text: &mut String,
) -> Result<(), Fail> {
    'tables: for query in &ALL_ROWS {
        push_table(conn, *query, text)?;
    }
    Ok(())
}

fn push_table<S: Alter>(
    conn: &mut Connection<S>,
    query: &str,
    text: &mut String,
) -> Result<(), Fail> {
    match rows_shown(conn, query) {
        Ok(rows) => push_rows(text, rows.as_slice()),
        Err(Error::SqlInputError(_)) => push(text, "no such table\n"),
        Err(error) => Err(Fail::from(error)),
    }
}

fn rows_shown<S: Alter>(conn: &mut Connection<S>, query: &str) -> Result<Vec<Row>, Error> {
    conn.query_all(query, &[])
}

fn push_rows(text: &mut String, rows: &[Row]) -> Result<(), Fail> {
    'rows: for row in rows {
        let told = row.get::<String>(0)?;
        push_all(text, &[told.as_str(), "\n"])?;
    }
    push(text, "\n")
}
