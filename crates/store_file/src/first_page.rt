//! What the first bytes of a file tell, before it is opened as a database.
ghost use Rattle.std.specs.Prelude.{◌≡◌, ◌↔◌, IsTrue};
ghost use Rattle.store_file.specs.FirstPage.{Stands, begins_database, names_tables};

use memchr::memmem;

/// How many bytes of a file are looked at: its first page, if its pages have this size.
pub const FIRST_PAGE: u64 = 4_096;

// What each database of SQLite begins with.
static BEGINNING: &[u8] = b"SQLite format 3\0";

/// Whether a file that begins with these bytes is a database of SQLite.
pub fn is_database(page: &[u8]) -> bool
    ensures { IsTrue result ↔ begins_database page.now }
{
    memmem::find(page, BEGINNING) == Some(0)
}

/// Whether the names of a room's tables stand on this page. On the first page of a room they always
/// do, since its schema does; another database may have them there too.
pub fn may_be_room(page: &[u8]) -> bool
    ensures { IsTrue result ↔ names_tables page.now }
{
    has(page, b"nodes") && has(page, b"bodies") && has(page, b"members") && has(page, b"audits")
}

fn has(page: &[u8], name: &[u8]) -> bool
    ensures { IsTrue result ↔ Stands name.now page.now }
{
    memmem::find(page, name).is_some()
}
