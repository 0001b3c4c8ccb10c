//! The store.
ghost use Rattle.std.specs.Prelude.{◌≡◌, [], OnOk, false};
ghost use Rattle.std.specs.Option.{option_copied};
ghost use Rattle.sqlite.specs.Held.{state};
ghost use Rattle.sqlite.specs.State.{HasCleanDisk};
ghost use Rattle.room_dump.specs.Fetching.{IsFetched};
ghost use Rattle.room_judge.specs.Closed.{Performs};
ghost use Rattle.room_judge.specs.Judged.{Resets};
ghost use Rattle.room_machine.specs.Desk.{Closes};
ghost use Rattle.room_machine.specs.Run.{Event, event_of, unanswered};
ghost use Rattle.room_store.specs.Asks.{Asks};
ghost use Rattle.room_store.specs.Crash.{Lasts, Outlasts};
ghost use Rattle.room_store.specs.Failing.{FailsByDb};
ghost use Rattle.room_store.specs.Kept.{Stores};
ghost use Rattle.room_store.specs.Leads.{Leads};
ghost use Rattle.room_store.specs.Premise.{StorePremise};
ghost use Rattle.room_store.specs.Ran.{Looked, Ran};
ghost use Rattle.room_store.specs.Reviews.{IsReviewOf};
ghost use Rattle.room_store.specs.Tests.{IsTested};
ghost use Rattle.store_admin.specs.Dump.{IsDump};
ghost use Rattle.store_request.specs.Inside.{HasDamage};
ghost use Rattle.store_tables.specs.Carries.{HasDamagedRow, NoTables};
ghost use Rattle.store_tables.specs.Meaning.{rows_of};
ghost use Rattle.store_admin.specs.Changing.{ChangesMembers, changed};
ghost use Rattle.store_admin.specs.Operating.{
  AreMembers,
  AreRecords,
  ChangesPairsAlone,
  HasUnreadRecord,
  ReplacesMembers,
};

use crate::asking::test_shut;
use crate::laws::what_is_committed_lasts;
use crate::reviewing::review_all;
use crate::verifying::{Tested, verify_inside};
use room_ace::{Name, SentList, Which};
use room_dump::Fetched;
use room_inherit::laws::sound_is_no_fault;
use room_machine::{Reply, Request};
use room_remember::{Memory, known_of};
use room_review::{Reviewed, Scope};
use room_rows::{AuditRow, Path};
use sqlite::{Alter, Connection};
use std::alloc::Global;
use std::marker::Model;
use store_admin::{Changed, all_members, all_records, change_members, dump_all, put_members};
use store_request::{RequestBy, end_look, perform_inside, reset_inside};
use store_tables::RecentLists;
use store_transaction::{StoreFault, begin, fetch_inside, finish, give_up, if_open};

/// A room in the tables of a connection. Each call is one transaction. A contract sees the
/// connection, and the count of faults.
pub struct Store<S: Alter> {
    // with no transaction open
    pub(crate) conn: Connection<S>,
    // what requests that only read remembered of its rows
    memory: Option<Memory>,
    // the lists that requests read recently
    lists: RecentLists,
    // how often the store has answered a fault as a desk
    pub(crate) faults: u64,
}

impl<S: Alter> Model for Store<S> {
    ghost use Rattle.std.specs.Prelude.{◌≡◌, IfSome, false};
    ghost use Rattle.sqlite.specs.Held.{state};
    ghost use Rattle.room_store.specs.Remembers.{Remembers};
    ghost use Rattle.room_store.specs.View.{StoreView, view_code};

    ghost Value = { StoreView S };

    ghost coded = { view_code S.code };

    ghost view = { λ s. record { conn = s.conn; faults = s.faults } };

    ghost invariant = { λ s. (s.conn.in_transaction ≡ false)
        × IfSome s.memory (Remembers (state S.Store s.conn)) };
}

impl<S: Alter + Drop> Drop for Store<S> {
    fn drop(self) {
        let Store {
            conn: _,
            memory: _,
            lists: _,
            faults: _,
        } = self;
    }
}

impl<S: Alter> Store<S> {
    // A store over these tables, which has had no fault.
    pub(crate) fn over(conn: Connection<S>) -> Store<S>
        requires { conn.in_transaction ≡ false }
        ensures conn { result.conn ≡ conn }
        ensures faults { result.faults ≡ 0 }
    {
        Store {
            conn,
            memory: None,
            lists: RecentLists::new(),
            faults: 0,
        }
    }

    /// Carries out one request of a caller, who is anonymous without a name, at a moment in seconds
    /// from 1970-01-01 00:00 UTC. From sound rows it is one step of the room machine on what the
    /// tables mean. From any rows, damaged ones too, it is judged by the lists that they store. A
    /// fault leaves the tables, and `Damaged` comes only for a damaged row, so never on sound rows.
    pub fn run(
        &mut self,
        alloc: Global,
        caller: Option<&Name>,
        moment: i64,
        request: &Request,
    ) -> Result<Reply, StoreFault>
        ensures ran { Ran (state S.Store self.old.conn) (state S.Store self.new.conn) result
            HasDamage (Performs (option_copied caller.entry) moment request.now) }
        ensures closed { HasCleanDisk (state S.Store self.new.conn)
            → Closes (Stores (state S.Store self.old.conn)) (option_copied caller.entry) moment
            request.now result (Stores (state S.Store self.new.conn)) }
        ensures leads { Leads (state S.Store self.old.conn) (event_of result
            (Event.Asked (option_copied caller.entry) moment request.now))
            (state S.Store self.new.conn) }
        ensures outlasts { Outlasts (state S.Store self.old.conn)
            (unanswered result (Event.Asked (option_copied caller.entry) moment request.now))
            (event_of result (Event.Asked (option_copied caller.entry) moment request.now))
            (state S.Store self.new.conn) }
        ensures faults { self.new.faults ≡ self.old.faults }
    {
        let mut memory = known_of(alloc, self.memory.take());
        let mut tx = begin(&mut self.conn);
        let asked = RequestBy { caller, request };
        let (done, only_read) = perform_inside(
            alloc,
            &mut tx,
            &mut self.lists,
            &mut memory,
            &asked,
            moment,
        );
        if only_read {
            let looked = give_up(tx, done);
            let (reply, kept) = end_look(&mut self.conn, looked, memory);
            self.memory = kept;
            return reply;
        }
        memory.forget();
        let done = if_open(&mut tx, done);
        let reply = finish(tx, done);
        self.memory = Some(memory);
        reply
    }

    /// Sets one of an object's lists as the request does, but asks no rights and leaves no record.
    /// The reply is `Done`, or a refusal: no such object, a document on the way, or an entry that
    /// isn't valid. Its faults are those of `run`.
    pub fn reset(
        &mut self,
        alloc: Global,
        path: &Path,
        which: Which,
        sent: &SentList,
    ) -> Result<Reply, StoreFault>
        ensures ran { Ran (state S.Store self.old.conn) (state S.Store self.new.conn) result
            HasDamage (Resets path.now which sent.now) }
        ensures leads { Leads (state S.Store self.old.conn) (event_of result
            (Event.WasReset path.now which sent.now)) (state S.Store self.new.conn) }
        ensures outlasts { Outlasts (state S.Store self.old.conn)
            (unanswered result (Event.WasReset path.now which sent.now))
            (event_of result (Event.WasReset path.now which sent.now))
            (state S.Store self.new.conn) }
        ensures faults { self.new.faults ≡ self.old.faults }
    {
        self.memory = None;
        let mut tx = begin(&mut self.conn);
        let done = reset_inside(alloc, &mut tx, path, which, sent);
        let done = if_open(&mut tx, done);
        finish(tx, done)
    }

    /// Whether the rows are sound, or the first fault of seven tests; and whether a record can get
    /// a number. Nothing changes. The error is never `Damaged`: a row that can't be read is a fault
    /// in the report.
    pub fn verify(&mut self, alloc: Global) -> Result<Tested, StoreFault>
        ensures looked { Looked (state S.Store self.old.conn) (state S.Store self.new.conn) result
            NoTables IsTested }
        ensures leads { Leads (state S.Store self.old.conn) [] (state S.Store self.new.conn) }
        ensures outlasts { Outlasts (state S.Store self.old.conn) [] []
            (state S.Store self.new.conn) }
        ensures faults { self.new.faults ≡ self.old.faults }
    {
        self.memory = None;
        let mut tx = begin(&mut self.conn);
        let done = verify_inside(alloc, &mut tx);
        // a keeper doesn't tell whether the connection was open
        let done = if_open(&mut tx, done);
        give_up(tx, done)
    }

    /// Replaces the pairs of group and user by these, each once. It is the operator's step of the
    /// room machine. Rows that were no pairs are removed, and no other table is changed. The error
    /// is never `Damaged`.
    pub fn replace_members(
        &mut self,
        alloc: Global,
        pairs: &[(Name, Name)],
    ) -> Result<(), StoreFault>
        ensures ran { Ran (state S.Store self.old.conn) (state S.Store self.new.conn) result
            (λ _. ⊥) (ReplacesMembers pairs.now) }
        ensures alone { StorePremise (state S.Store self.old.conn) (state S.Store self.new.conn)
            → OnOk result (ChangesPairsAlone (state S.Store self.old.conn).now
            (state S.Store self.new.conn).now) }
        ensures leads { Leads (state S.Store self.old.conn) (event_of result
            (λ _. Event.Replaced pairs.now)) (state S.Store self.new.conn) }
        ensures outlasts { Outlasts (state S.Store self.old.conn)
            (unanswered result (λ _. Event.Replaced pairs.now))
            (event_of result (λ _. Event.Replaced pairs.now)) (state S.Store self.new.conn) }
        ensures faults { self.new.faults ≡ self.old.faults }
    {
        sound_is_no_fault();
        self.memory = None;
        let mut tx = begin(&mut self.conn);
        let done = put_members(alloc, &mut tx, pairs);
        let done = if_open(&mut tx, done);
        finish(tx, done)
    }

    /// Takes out the pairs of group and user that leave, and puts in those that join: the
    /// operator's step of the room machine, with the pairs that the same transaction has read. A
    /// pair that does both is there afterwards. One that leaves and isn't there, or joins and is
    /// there, changes nothing. Rows that were no pairs are removed, and no other table is changed.
    /// The error is never `Damaged`.
    pub fn change_members(
        &mut self,
        alloc: Global,
        joins: &[(Name, Name)],
        leaves: &[(Name, Name)],
    ) -> Result<Changed, StoreFault>
        ensures ran { Ran (state S.Store self.old.conn) (state S.Store self.new.conn) result
            (λ _. ⊥) (ChangesMembers joins.now leaves.now) }
        ensures alone { StorePremise (state S.Store self.old.conn) (state S.Store self.new.conn)
            → OnOk result (ChangesPairsAlone (state S.Store self.old.conn).now
            (state S.Store self.new.conn).now) }
        ensures leads { Leads (state S.Store self.old.conn) (event_of result (λ _. Event.Replaced
            (changed joins.now leaves.now (rows_of (state S.Store self.old.conn).now).read.members)))
            (state S.Store self.new.conn) }
        ensures outlasts { Outlasts (state S.Store self.old.conn)
            (unanswered result (λ _. Event.Replaced (changed joins.now leaves.now
            (rows_of (state S.Store self.old.conn).now).read.members)))
            (event_of result (λ _. Event.Replaced (changed joins.now leaves.now
            (rows_of (state S.Store self.old.conn).now).read.members)))
            (state S.Store self.new.conn) }
        ensures faults { self.new.faults ≡ self.old.faults }
    {
        sound_is_no_fault();
        self.memory = None;
        let mut tx = begin(&mut self.conn);
        let done = change_members(alloc, &mut tx, joins, leaves);
        let done = if_open(&mut tx, done);
        finish(tx, done)
    }

    /// The pairs, in order of group and then of user, each once. A row whose group or user is no
    /// name is left out. Nothing changes, and `Damaged` never comes. The error is `Db` only where
    /// the database failed.
    pub fn members(&mut self, alloc: Global) -> Result<Vec<(Name, Name)>, StoreFault>
        ensures looked { Looked (state S.Store self.old.conn) (state S.Store self.new.conn) result
            NoTables (λ db pairs. AreMembers db pairs.items) }
        ensures fails { FailsByDb (state S.Store self.old.conn) (state S.Store self.new.conn)
            result }
        ensures leads { Leads (state S.Store self.old.conn) [] (state S.Store self.new.conn) }
        ensures outlasts { Outlasts (state S.Store self.old.conn) [] []
            (state S.Store self.new.conn) }
        ensures faults { self.new.faults ≡ self.old.faults }
    {
        self.memory = None;
        let mut tx = begin(&mut self.conn);
        let done = all_members(alloc, &mut tx);
        give_up(tx, done)
    }

    /// The records, in the order in which they were added. Nothing changes. Where a row of records
    /// can't be read, the error is `Damaged`, unless memory runs out or the database fails.
    pub fn audits(&mut self, alloc: Global) -> Result<Vec<AuditRow>, StoreFault>
        ensures looked { Looked (state S.Store self.old.conn) (state S.Store self.new.conn) result
            HasUnreadRecord (λ db records. AreRecords db records.items) }
        ensures fails { FailsByDb (state S.Store self.old.conn) (state S.Store self.new.conn)
            result }
        ensures leads { Leads (state S.Store self.old.conn) [] (state S.Store self.new.conn) }
        ensures outlasts { Outlasts (state S.Store self.old.conn) [] []
            (state S.Store self.new.conn) }
        ensures faults { self.new.faults ≡ self.old.faults }
    {
        self.memory = None;
        let mut tx = begin(&mut self.conn);
        let done = all_records(alloc, &mut tx);
        give_up(tx, done)
    }

    /// The room as text: the lines of all objects, the root first and after an object its children
    /// with all that is below them, in order of name; then a line `member GROUP USER` for each
    /// pair, in order of group and then of user. Both are read from the same rows. Nothing changes.
    /// The error is `Damaged` only for a damaged row, so never on sound rows.
    pub fn dump(&mut self, alloc: Global) -> Result<String, StoreFault>
        ensures looked { Looked (state S.Store self.old.conn) (state S.Store self.new.conn) result
            HasDamagedRow IsDump }
        ensures leads { Leads (state S.Store self.old.conn) [] (state S.Store self.new.conn) }
        ensures outlasts { Outlasts (state S.Store self.old.conn) [] []
            (state S.Store self.new.conn) }
        ensures faults { self.new.faults ≡ self.old.faults }
    {
        self.memory = None;
        let mut tx = begin(&mut self.conn);
        let done = dump_all(alloc, &mut tx);
        give_up(tx, done)
    }

    /// The bytes of the document at a path, or why there are none: no such object, a document on
    /// the way, or a folder. No rights are asked. Nothing changes, and no record is left. The error
    /// is `Damaged` only for a damaged row, so never on sound rows.
    pub fn document(&mut self, alloc: Global, path: &Path) -> Result<Fetched, StoreFault>
        ensures looked { Looked (state S.Store self.old.conn) (state S.Store self.new.conn) result
            HasDamagedRow (λ db fetched. IsFetched path.now (rows_of db) fetched) }
        ensures leads { Leads (state S.Store self.old.conn) [] (state S.Store self.new.conn) }
        ensures outlasts { Outlasts (state S.Store self.old.conn) [] []
            (state S.Store self.new.conn) }
        ensures faults { self.new.faults ≡ self.old.faults }
    {
        self.memory = None;
        let mut tx = begin(&mut self.conn);
        let done = fetch_inside(alloc, &mut tx, path);
        // a keeper doesn't tell whether the connection was open
        let done = if_open(&mut tx, done);
        give_up(tx, done)
    }

    /// Who may do what with the object at a path and with all below it, by the lists and the pairs
    /// that the tables hold, as a table; or a refusal: no such object, or a document on the way.
    /// Both are read from the same rows. Nothing changes. The error is `Damaged` only for a damaged
    /// row, so never on sound rows.
    pub fn review(&mut self, alloc: Global, question: &Scope) -> Result<Reviewed, StoreFault>
        ensures looked { Looked (state S.Store self.old.conn) (state S.Store self.new.conn) result
            HasDamagedRow (IsReviewOf question.now) }
        ensures leads { Leads (state S.Store self.old.conn) [] (state S.Store self.new.conn) }
        ensures outlasts { Outlasts (state S.Store self.old.conn) [] []
            (state S.Store self.new.conn) }
        ensures faults { self.new.faults ≡ self.old.faults }
    {
        self.memory = None;
        let mut tx = begin(&mut self.conn);
        let done = review_all(alloc, &mut tx, question);
        // a keeper doesn't tell whether the connection was open
        let done = if_open(&mut tx, done);
        give_up(tx, done)
    }

    // Whether a fault of the disk has shut the connection. What is remembered stays: nothing is
    // read, and the rows are as they were.
    pub(crate) fn is_shut(&mut self) -> Result<bool, StoreFault>
        ensures asks { Asks (state S.Store self.old.conn) (state S.Store self.new.conn) result }
        ensures faults { self.new.faults ≡ self.old.faults }
    {
        test_shut(&mut self.conn)
    }

    /// The connection, with the tables as they are, and with no transaction open.
    pub fn into_conn(self) -> Connection<S>
        ensures same { result ≡ self.conn }
        ensures ended { result.in_transaction ≡ false }
        ensures lasts { Lasts (state S.Store result) }
    {
        let Store {
            conn,
            memory: _,
            lists: _,
            faults: _,
        } = self;
        what_is_committed_lasts(&conn);
        conn
    }
}
