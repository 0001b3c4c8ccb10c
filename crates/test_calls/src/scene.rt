//! A database that scripts are played on.

use crate::calling::{ask, call, operate};
use crate::opening::{Opened, adopt, create, migrate};
use crate::tables::{change, push_all_rows, rows_of, show};
use crate::words::cut;
use room_store::Store;
use sqlite::{Alter, Connection};
use std::alloc::Global;
use std::test::Fail;
use test_player::{agree, push};

/// The lists of a room in which all may pass and root may do anything.
pub const OPEN: &str = "\
operator Reset / dacl list:a / A::EVERYONE@:x / A:fd:root:ALL => done
";

/// A database with the store over it, if it was opened as a room; the moment of what is asked; and
/// the rows that were marked.
pub struct Scene<S: Alter> {
    opened: Opened<S>,
    moment: i64,
    mark: Option<String>,
}

impl<S: Alter + Drop> Drop for Scene<S> {
    fn drop(self) {
        let Scene {
            opened: _,
            moment: _,
            mark: _,
        } = self;
    }
}

impl<S: Alter + Drop> Scene<S> {
    /// The scene of this database, at the moment 1000.
    pub fn over(conn: Connection<S>) -> Scene<S> {
        Scene {
            opened: Opened::over(conn),
            moment: 1000,
            mark: None,
        }
    }

    /// Plays scripts one after the other.
    pub fn play_all(&mut self, alloc: Global, scripts: &[&str]) -> Result<(), Fail> {
        'scripts: for script in scripts {
            self.play(alloc, *script)?;
        }
        Ok(())
    }

    /// Plays a script. The first line that is answered otherwise than it says is the error.
    pub fn play(&mut self, alloc: Global, script: &str) -> Result<(), Fail> {
        'lines: for line in script.lines() {
            self.play_line(alloc, line)?;
        }
        Ok(())
    }

    fn play_line(&mut self, alloc: Global, line: &str) -> Result<(), Fail> {
        let (asked, wanted) = line.split_once(" => ").ok_or("no arrow")?;
        let told = self.answer_to(alloc, asked)?;
        agree(asked, told.as_str(), wanted)
    }

    /// What is answered to one line, which has no arrow.
    pub fn answer_to(&mut self, alloc: Global, asked: &str) -> Result<String, Fail> {
        let mut told = String::new(alloc);
        self.push_told(alloc, asked, &mut told)?;
        Ok(told)
    }

    fn push_told(&mut self, alloc: Global, asked: &str, told: &mut String) -> Result<(), Fail> {
        let (who, words) = cut(asked);
        match who {
            "store" => self.step(alloc, words, told),
            "operator" => operate(alloc, self.store(alloc)?, words, told),
            "sql" => change(self.conn()?, words, told),
            "rows" => show(self.conn()?, words, told),
            _ => {
                let moment = self.moment;
                ask(alloc, self.store(alloc)?, moment, asked, told)
            }
        }
    }

    // Takes the step of these words.
    fn step(&mut self, alloc: Global, words: &str, told: &mut String) -> Result<(), Fail> {
        let (verb, rest) = cut(words);
        match verb {
            "At" => {
                self.moment = rest.parse::<i64>()?;
                push(told, "done")
            }
            "Create" | "Adopt" | "Migrate" => self.open(alloc, verb, told),
            "Mark" => self.set_mark(alloc, told),
            "Same" => self.tell_same(alloc, told),
            _ => call(alloc, self.store(alloc)?, verb, rest, told),
        }
    }

    // Makes, opens or upgrades the room.
    fn open(&mut self, alloc: Global, verb: &str, told: &mut String) -> Result<(), Fail> {
        self.close();
        let conn = self.opened.conn.take().ok_or("no database")?;
        self.opened = match verb {
            "Create" => create(alloc, conn, told)?,
            "Adopt" => adopt(conn, told)?,
            _ => migrate(alloc, conn, told)?,
        };
        Ok(())
    }

    // Ends the store, so that the connection is there.
    fn close(&mut self) {
        if let Some(store) = self.opened.store.take() {
            self.opened.conn = Some(store.into_conn());
        }
    }

    /// The moment of what is asked.
    pub fn moment(&self) -> i64 {
        self.moment
    }

    /// The store. Where statements were run before, it is opened again.
    pub fn store(&mut self, alloc: Global) -> Result<&mut Store<S>, Fail> {
        if self.opened.store.is_none() {
            let mut told = String::new(alloc);
            self.open(alloc, "Adopt", &mut told)?;
        }
        Ok(self.opened.store.as_mut().ok_or("no store")?)
    }

    fn conn(&mut self) -> Result<&mut Connection<S>, Fail> {
        self.close();
        Ok(self.opened.conn.as_mut().ok_or("no database")?)
    }

    /// The connection.
    pub fn into_conn(mut self) -> Result<Connection<S>, Fail> {
        self.close();
        Ok(self.opened.conn.take().ok_or("no database")?)
    }

    /// All rows of all tables.
    pub fn rows(&mut self, alloc: Global) -> Result<String, Fail> {
        rows_of(alloc, self.conn()?)
    }

    // Adds what opening the database answers, the first fault of a room that was opened, and all
    // rows.
    fn push_state(&mut self, alloc: Global, told: &mut String) -> Result<(), Fail> {
        self.open(alloc, "Adopt", told)?;
        push(told, "\n")?;
        if self.opened.store.is_some() {
            operate(alloc, self.store(alloc)?, "Verify /", told)?;
        }
        push_all_rows(self.conn()?, told)
    }

    fn set_mark(&mut self, alloc: Global, told: &mut String) -> Result<(), Fail> {
        self.mark = Some(self.rows(alloc)?);
        push(told, "done")
    }

    // Adds whether all rows are those that were marked.
    fn tell_same(&mut self, alloc: Global, told: &mut String) -> Result<(), Fail> {
        let rows = self.rows(alloc)?;
        let is_same = self.is_marked(rows.as_str());
        drop(rows);
        push(told, if is_same { "yes" } else { "no" })
    }

    fn is_marked(&self, rows: &str) -> bool {
        match &self.mark {
            Some(mark) => mark.as_str() == rows,
            None => false,
        }
    }
}

/// What a database tells: what opening it as a room answers, the first fault of its rows, and all
/// rows.
pub(crate) fn told_by<S: Alter + Drop>(alloc: Global, conn: Connection<S>) -> Result<String, Fail> {
    let mut told = String::new(alloc);
    Scene::over(conn).push_state(alloc, &mut told)?;
    Ok(told)
}
