//! Whether the tables are exactly those of a room.
ghost use Rattle.std.specs.Prelude.{◌≡◌, ◌↔◌, ◌+◌, ◌<◌, [], ◌∷◌, None, Some, IsTrue, drop, true};
ghost use Rattle.sqlite_value.specs.Keys.{plain};
ghost use Rattle.store_tables.specs.Tables.{audits, bodies, column_of, counters, members, meta};
ghost use Rattle.store_tables.specs.Tables.{nodes, room_schema};
ghost use Rattle.store_schema.specs.Recognizing.{HasNoMore, automatic_of, key_indexes};
ghost use Rattle.store_schema.specs.Recognizing.{list_columns, loose_column, owner_columns};
ghost use Rattle.store_schema.specs.Recognizing.{ruling_columns, to_nodes};

use sqlite_items::Items;
use sqlite_schema::schema::{Action, Column, Index, Kind, Reference, Schema, Table};
use sqlite_value::keys::{Collation, Order};
use sqlite_value::value::Value;

/// Whether there are exactly the tables and indexes that a room is made with, each in its place,
/// and no view and no trigger.
#[tactic(auto, using(crate::proofs::Recognized::same_indexes))]
pub(crate) fn is_room(schema: &Schema) -> bool
    ensures { IsTrue result ↔ (schema.now ≡ room_schema) }
{
    are_tables(schema.tables.as_slice())
        && are_indexes(schema.indexes.as_slice())
        && schema.views.is_empty()
}

fn are_tables(tables: &[Table]) -> bool
    ensures { IsTrue result ↔ (tables.now ≡ room_schema.tables) }
{
    match tables {
        [nodes, bodies, members, rest @ ..] => {
            is_nodes(nodes) && is_bodies(bodies) && is_members(members) && are_last(rest)
        }
        _ => false,
    }
}

fn are_last(tables: &[Table]) -> bool
    ensures { IsTrue result ↔ (tables.now ≡ drop 3 room_schema.tables) }
{
    match tables {
        [meta, audits, counters] => is_meta(meta) && is_audits(audits) && is_counters(counters),
        _ => false,
    }
}

// ---- each table

fn is_nodes(table: &Table) -> bool
    ensures { IsTrue result ↔ (table.now ≡ nodes) }
{
    is_at(table, b"nodes", 0, false)
        && are_object_columns(table.columns.as_slice())
        && is_numbered(table)
        && is_key(table.uniques.as_slice(), [2, 3].as_slice())
        && is_plain(table.orders.as_slice())
        && refers_to_nodes(
            table.references.as_slice(),
            2,
            Action::Restrict,
            Action::Restrict,
        )
        && has_no_more(table)
}

fn is_bodies(table: &Table) -> bool
    ensures { IsTrue result ↔ (table.now ≡ record bodies { tree = 2 }) }
{
    is_at(table, b"bodies", 2, false)
        && are_two(
            table.columns.as_slice(),
            b"node",
            Kind::Integer,
            b"bytes",
            Kind::Blob,
        )
        && is_numbered(table)
        && has_no_key(table)
        && refers_to_nodes(
            table.references.as_slice(),
            0,
            Action::Cascade,
            Action::NoAction,
        )
        && has_no_more(table)
}

fn is_members(table: &Table) -> bool
    ensures { IsTrue result ↔ (table.now ≡ record members { tree = 3 }) }
{
    is_at(table, b"members", 3, false)
        && are_two(
            table.columns.as_slice(),
            b"grp",
            Kind::Text,
            b"user",
            Kind::Text,
        )
        && is_keyed_by(table, [2, 1].as_slice())
        && table.references.is_empty()
        && has_no_more(table)
}

fn is_meta(table: &Table) -> bool
    ensures { IsTrue result ↔ (table.now ≡ record meta { tree = 5 }) }
{
    is_at(table, b"meta", 5, false)
        && are_two(
            table.columns.as_slice(),
            b"key",
            Kind::Text,
            b"value",
            Kind::Integer,
        )
        && is_keyed_by(table, [1].as_slice())
        && table.references.is_empty()
        && has_no_more(table)
}

fn is_audits(table: &Table) -> bool
    ensures { IsTrue result ↔ (table.now ≡ record audits { tree = 7 }) }
{
    is_at(table, b"audits", 7, true)
        && are_record_columns(table.columns.as_slice())
        && is_numbered(table)
        && has_no_key(table)
        && table.references.is_empty()
        && has_no_more(table)
}

// The one that the library makes to count for AUTOINCREMENT.
fn is_counters(table: &Table) -> bool
    ensures { IsTrue result ↔ (table.now ≡ record counters { tree = 8 }) }
{
    is_at(table, b"sqlite_sequence", 8, false)
        && are_counter_columns(table.columns.as_slice())
        && table.key.is_none()
        && table.primary.is_empty()
        && has_no_key(table)
        && table.references.is_empty()
        && has_no_more(table)
}

// ---- columns

// A column of a STRICT table, without a default.
fn is_column(column: &Column, name: &[u8], kind: Kind, not_null: bool) -> bool
    ensures { IsTrue result ↔ (column.now ≡ column_of name.now kind not_null) }
{
    column.name.as_slice() == name
        && column.kind == kind
        && column.is_strict
        && column.not_null == not_null
        && matches!(column.default, Value::Null)
        && column.collation == Collation::Binary
}

// A column without a type.
fn is_loose(column: &Column, name: &[u8]) -> bool
    ensures { IsTrue result ↔ (column.now ≡ loose_column name.now) }
{
    column.name.as_slice() == name
        && column.kind == Kind::Any
        && !column.is_strict
        && !column.not_null
        && matches!(column.default, Value::Null)
        && column.collation == Collation::Binary
}

fn are_two(
    columns: &[Column],
    first: &[u8],
    first_kind: Kind,
    second: &[u8],
    second_kind: Kind,
) -> bool
    ensures { IsTrue result ↔ (columns.now
        ≡ column_of first.now first_kind true ∷ column_of second.now second_kind true ∷ []) }
{
    match columns {
        [one, other] => {
            is_column(one, first, first_kind, true) && is_column(other, second, second_kind, true)
        }
        _ => false,
    }
}

fn are_object_columns(columns: &[Column]) -> bool
    ensures { IsTrue result ↔ (columns.now ≡ nodes.columns) }
{
    match columns {
        [id, parent, name, kind, rest @ ..] => {
            is_column(id, b"id", Kind::Integer, true)
                && is_column(parent, b"parent", Kind::Integer, false)
                && is_column(name, b"name", Kind::Text, true)
                && is_column(kind, b"kind", Kind::Integer, true)
                && are_owner_columns(rest)
        }
        _ => false,
    }
}

fn are_owner_columns(columns: &[Column]) -> bool
    ensures { IsTrue result ↔ (columns.now ≡ owner_columns) }
{
    match columns {
        [owner, group, dacl_flags, sacl_flags, rest @ ..] => {
            is_column(owner, b"owner", Kind::Text, true)
                && is_column(group, b"grp", Kind::Text, true)
                && is_column(dacl_flags, b"dacl_flags", Kind::Integer, true)
                && is_column(sacl_flags, b"sacl_flags", Kind::Integer, true)
                && are_list_columns(rest)
        }
        _ => false,
    }
}

fn are_list_columns(columns: &[Column]) -> bool
    ensures { IsTrue result ↔ (columns.now ≡ list_columns) }
{
    match columns {
        [dacl_own, dacl_inh, rest @ ..] => {
            is_column(dacl_own, b"dacl_own", Kind::Text, true)
                && is_column(dacl_inh, b"dacl_inh", Kind::Text, true)
                && are_two(rest, b"sacl_own", Kind::Text, b"sacl_inh", Kind::Text)
        }
        _ => false,
    }
}

fn are_record_columns(columns: &[Column]) -> bool
    ensures { IsTrue result ↔ (columns.now ≡ audits.columns) }
{
    match columns {
        [seq, at, user, path, rest @ ..] => {
            is_column(seq, b"seq", Kind::Integer, true)
                && is_column(at, b"at", Kind::Integer, true)
                && is_column(user, b"user", Kind::Text, true)
                && is_column(path, b"path", Kind::Text, true)
                && are_ruling_columns(rest)
        }
        _ => false,
    }
}

fn are_ruling_columns(columns: &[Column]) -> bool
    ensures { IsTrue result ↔ (columns.now ≡ ruling_columns) }
{
    match columns {
        [bits, granted, entry] => {
            is_column(bits, b"bits", Kind::Integer, true)
                && is_column(granted, b"granted", Kind::Integer, true)
                && is_column(entry, b"entry", Kind::Integer, true)
        }
        _ => false,
    }
}

fn are_counter_columns(columns: &[Column]) -> bool
    ensures { IsTrue result ↔ (columns.now ≡ counters.columns) }
{
    match columns {
        [name, seq] => is_loose(name, b"name") && is_loose(seq, b"seq"),
        _ => false,
    }
}

// ---- the rest of a table

// Its name, its place, and whether its numbers are counted.
fn is_at(table: &Table, name: &[u8], tree: u32, is_counted: bool) -> bool
    ensures { IsTrue result ↔ ((table.now.name ≡ name.now) × (table.now.tree ≡ tree)
        × (table.now.is_counted ≡ is_counted)) }
{
    table.name.as_slice() == name && table.tree == tree && table.is_counted == is_counted
}

// No test of rows, and no default that is computed.
fn has_no_more(table: &Table) -> bool
    ensures { IsTrue result ↔ HasNoMore table.now }
{
    table.checks.roots.is_empty()
        && table.computed.is_empty()
        && table.stamps.places.is_empty()
        && table.stamps.terms.roots.is_empty()
        && table.stamps.formats.is_empty()
}

// The first column is the number of a row.
fn is_numbered(table: &Table) -> bool
    ensures { IsTrue result ↔ ((table.now.key ≡ Some 0) × (table.now.primary ≡ 0 ∷ [])) }
{
    table.key == Some(0) && table.primary.as_slice() == [0].as_slice()
}

// The rows have no number of their own, and no other key than this one.
fn is_keyed_by(table: &Table, places: &[usize]) -> bool
    ensures { IsTrue result ↔ ((table.now.key ≡ None) × (table.now.primary ≡ places.now)
        × (table.now.uniques ≡ places.now ∷ []) × (table.now.orders ≡ plain ∷ [])) }
{
    table.key.is_none()
        && table.primary.as_slice() == places
        && is_key(table.uniques.as_slice(), places)
        && is_plain(table.orders.as_slice())
}

fn has_no_key(table: &Table) -> bool
    ensures { IsTrue result ↔ ((table.now.uniques ≡ []) × (table.now.orders ≡ [])) }
{
    table.uniques.is_empty() && table.orders.is_empty()
}

fn is_key(uniques: &[Items<usize>], places: &[usize]) -> bool
    ensures { IsTrue result ↔ (uniques.now ≡ places.now ∷ []) }
{
    match uniques {
        [key] => are_places(key, places),
        _ => false,
    }
}

fn are_places(key: &Items<usize>, places: &[usize]) -> bool
    ensures { IsTrue result ↔ (key.now ≡ places.now) }
{
    key.as_slice() == places
}

// Each column ascends by its bytes.
const PLAIN: Order = Order { digits: 0 };

fn is_plain(orders: &[Order]) -> bool
    ensures { IsTrue result ↔ (orders.now ≡ plain ∷ []) }
{
    match orders {
        [order] => *order == PLAIN,
        _ => false,
    }
}

// One foreign key, which refers to the objects.
fn refers_to_nodes(all: &[Reference], place: usize, on_delete: Action, on_update: Action) -> bool
    ensures { IsTrue result ↔ (all.now ≡ to_nodes place on_delete on_update ∷ []) }
{
    match all {
        [one] => is_to_nodes(one, place, on_delete, on_update),
        _ => false,
    }
}

fn is_to_nodes(one: &Reference, place: usize, on_delete: Action, on_update: Action) -> bool
    ensures { IsTrue result ↔ (one.now ≡ to_nodes place on_delete on_update) }
{
    one.columns.as_slice() == [place].as_slice()
        && one.parent.as_slice() == b"nodes".as_slice()
        && one.parent_columns.is_empty()
        && one.on_delete == on_delete
        && one.on_update == on_update
        && !one.is_deferred
}

// ---- indexes

fn are_indexes(indexes: &[Index]) -> bool
    ensures { IsTrue result ↔ (indexes.now ≡ key_indexes) }
{
    match indexes {
        [nodes, members, meta] => {
            is_automatic(nodes, 0, b"sqlite_autoindex_nodes_1", [2, 3].as_slice())
                && is_automatic(members, 3, b"sqlite_autoindex_members_1", [2, 1].as_slice())
                && is_automatic(meta, 5, b"sqlite_autoindex_meta_1", [1].as_slice())
        }
        _ => false,
    }
}

// The index of the only key of the table in this place.
fn is_automatic(index: &Index, table: u16, name: &[u8], places: &[usize]) -> bool
    ensures { IsTrue result ↔ (index.now ≡ automatic_of table name.now places.now) }
{
    let table = u32::from(table);
    index.name.as_slice() == name
        && index.tree == table + 1
        && index.table == table
        && are_places(&index.columns, places)
        && index.order == PLAIN
        && index.is_unique
}
