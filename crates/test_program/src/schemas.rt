//! Files of other schemas.
use crate::scripts::{Ask, after, plays, tells};
use std::test::Fail;

// What makes the schema another one.
const MISSING: &str = "DELETE FROM meta";

const ZERO: &str = "UPDATE meta SET value = 0 WHERE key = 'rooms'";

const ONE: &str = "UPDATE meta SET value = 1 WHERE key = 'rooms'";

const TWO: &str = "UPDATE meta SET value = 2 WHERE key = 'rooms'";

const THREE: &str = "UPDATE meta SET value = 3 WHERE key = 'rooms'";

// A linked document `/f` that stores an inherited entry.
const KEPT: &str = "INSERT INTO nodes VALUES (2, 1, 'f', 0, 'root', 'staff', 1, 1, '', \
     'A:I:bob:r\n', '', ''); INSERT INTO bodies VALUES (2, x'6869');";

#[test]
fn adopt_by_meta(rt: HostRuntime) -> Result<(), Fail> {
    plays(
        rt.alloc(),
        &[
            tells(Ask::Verify, "refused: not a rooms file\n", 2),
            tells(Ask::Init, "ready\n", 0),
            after(ZERO, Ask::Verify, "refused: schema 0 is old\n", 2),
            after(ONE, Ask::GroupsOut, "refused: schema 1 is old\n", 2),
            after(TWO, Ask::Verify, "sound\n", 0),
            after(THREE, Ask::Audit, "refused: schema 3 is new\n", 2),
            after(MISSING, Ask::Verify, "refused: not a rooms file\n", 2),
        ],
    )
}

#[test]
fn migrate_raises_schema_1_alone(rt: HostRuntime) -> Result<(), Fail> {
    plays(
        rt.alloc(),
        &[
            tells(Ask::Init, "ready\n", 0),
            tells(Ask::Migrate, "refused: schema 2 is new\n", 2),
            after(ZERO, Ask::Migrate, "refused: schema 0 is old\n", 2),
            after(ONE, Ask::Migrate, "migrated\n", 0),
            tells(Ask::Verify, "sound\n", 0),
            tells(Ask::Migrate, "refused: schema 2 is new\n", 2),
            after(MISSING, Ask::Migrate, "refused: not a rooms file\n", 2),
        ],
    )
}

#[test]
fn migrate_unsound(rt: HostRuntime) -> Result<(), Fail> {
    let fault = "fault /f V3 broken-law\n";
    plays(
        rt.alloc(),
        &[
            tells(Ask::Init, "ready\n", 0),
            after(ONE, Ask::Verify, "refused: schema 1 is old\n", 2),
            after(KEPT, Ask::Migrate, fault, 1),
            after(TWO, Ask::Verify, fault, 1),
        ],
    )
}
