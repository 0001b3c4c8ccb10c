//! Rooms that are made, printed and changed by an operator.
use crate::scripts::{Ask, after, fails, plays, tells};
use room_ace::Which;
use std::test::Fail;

const EMPTY_ROOM: &str = "\
folder root staff /
dacl
list:a
A:fd:OWNER@:rwanNxDtThHdcCoy
sacl
list:a
";

const SET_ROOM: &str = "\
folder root staff /
dacl
list:a
A:fd:OWNER@:rwanNxDtThHdcCoy
sacl
list:p
U:F:EVERYONE@:r
member sales alice
member sales bob
";

// A document `/f`, with what it inherits from the root.
const DOCUMENT: &str = "INSERT INTO nodes VALUES (2, 1, 'f', 0, 'root', 'staff', 0, 0, '', \
     'A:I:OWNER@:rwanNxDtThHdcCoy\n', '', ''); INSERT INTO bodies VALUES (2, x'6869');";

const REVIEWED: &str = "\
path,kind,user,rights,remove
/,folder,root,rwanNxDtThHdcCoy,no
/,folder,*,,no
/,folder,ANONYMOUS@,,no
";

const GROUPS: &[u8] = b"\xEF\xBB\xBFgroup,user\r\nsales,alice\r\nsales,bob\r\nsales,alice\r\n";

const BAD_GROUPS: &[u8] = b"group,user\nsales,alice\nops,bad name\n";

const TWO_GROUPS: &[u8] = b"group,user\nsales,bob\nops,bob\nsales,alice\n";

const NO_CHANGE: &str = "refused: either CSV, or --join and --leave\n";

// A folder `/f`, with what it inherits from the root, of the number before the last.
const BELOW_THE_LAST: &str = "INSERT INTO nodes VALUES (9223372036854775806, 1, 'f', 1, 'root', \
     'staff', 1, 1, '', 'A:fdI:OWNER@:rwanNxDtThHdcCoy\n', '', '')";

#[test]
fn dump_empty_room(rt: HostRuntime) -> Result<(), Fail> {
    plays(
        rt.alloc(),
        &[
            tells(Ask::Init, "ready\n", 0),
            tells(Ask::Dump, EMPTY_ROOM, 0),
            tells(Ask::Verify, "sound\n", 0),
            tells(Ask::GroupsOut, "group,user\n", 0),
            tells(Ask::Audit, "at,user,path,bits,granted,entry,kind\n", 0),
            fails("", Ask::Init, "fault: database\n"),
            tells(Ask::Dump, EMPTY_ROOM, 0),
        ],
    )
}

#[test]
fn import_groups(rt: HostRuntime) -> Result<(), Fail> {
    let members = "group,user\nsales,alice\nsales,bob\n";
    plays(
        rt.alloc(),
        &[
            tells(Ask::Init, "ready\n", 0),
            tells(Ask::Groups(GROUPS), "groups 1, members 2\n", 0),
            tells(Ask::Groups(GROUPS), "groups 1, members 2\n", 0),
            tells(Ask::GroupsOut, members, 0),
            tells(Ask::Groups(BAD_GROUPS), "refused: row 3: C3 bad name\n", 2),
            tells(Ask::GroupsOut, members, 0),
            tells(Ask::Groups(TWO_GROUPS), "groups 2, members 3\n", 0),
        ],
    )
}

#[test]
fn some_join_and_others_leave(rt: HostRuntime) -> Result<(), Fail> {
    let change = Ask::Change(&["ops", "dan", "sales", "eve"], &["sales", "bob"]);
    let members = "group,user\nops,bob\nops,dan\nsales,alice\nsales,eve\n";
    plays(
        rt.alloc(),
        &[
            tells(Ask::Init, "ready\n", 0),
            tells(Ask::Groups(TWO_GROUPS), "groups 2, members 3\n", 0),
            tells(change, "joined 2, left 1, members 4\n", 0),
            tells(Ask::GroupsOut, members, 0),
            tells(change, "joined 0, left 0, members 4\n", 0),
            tells(
                Ask::Change(&["ops"], &[]),
                "refused: C2 not two fields\n",
                2,
            ),
            tells(Ask::Change(&["ops", ""], &[]), "refused: C3 bad name\n", 2),
            tells(Ask::Change(&[], &[]), NO_CHANGE, 2),
            tells(Ask::GroupsOut, members, 0),
        ],
    )
}

#[test]
fn a_room_without_numbers_is_named(rt: HostRuntime) -> Result<(), Fail> {
    plays(
        rt.alloc(),
        &[
            tells(Ask::Init, "ready\n", 0),
            after(BELOW_THE_LAST, Ask::Verify, "sound\n", 0),
            after(
                "UPDATE nodes SET id = 9223372036854775807 WHERE name = 'f'",
                Ask::Verify,
                "fault ? V8 no-numbers\n",
                1,
            ),
        ],
    )
}

#[test]
fn reset_no_such_and_bad_entry(rt: HostRuntime) -> Result<(), Fail> {
    let no_such = Ask::Reset("/q", Which::Dacl, b"list:\n");
    let bad_entry = Ask::Reset("/", Which::Dacl, b"list:\nA:i:bob:r\n");
    let below = Ask::Reset("/f/x", Which::Dacl, b"list:\n");
    plays(
        rt.alloc(),
        &[
            tells(Ask::Init, "ready\n", 0),
            tells(no_such, "refused: N1 no-such at /q\n", 2),
            tells(bad_entry, "refused: entry 1: A11 i without f or d\n", 2),
            tells(Ask::Dump, EMPTY_ROOM, 0),
            after(DOCUMENT, below, "refused: N2 not-folder at /f\n", 2),
        ],
    )
}

#[test]
fn reset_is_refused_before_the_room_is_opened(rt: HostRuntime) -> Result<(), Fail> {
    let bad_path = Ask::Reset("q", Which::Dacl, b"list:\n");
    let bad_list = Ask::Reset("/", Which::Sacl, b"A::bob:r\n");
    plays(
        rt.alloc(),
        &[
            tells(bad_path, "refused: P1 bad object name\n", 2),
            tells(bad_list, "refused: line 1: A6 no list line\n", 2),
        ],
    )
}

#[test]
fn a_document_is_printed_or_refused(rt: HostRuntime) -> Result<(), Fail> {
    let document = Ask::Get("/f");
    let below = Ask::Get("/f/x/y");
    plays(
        rt.alloc(),
        &[
            tells(Ask::Get("f"), "refused: P1 bad object name\n", 2),
            tells(Ask::Init, "ready\n", 0),
            tells(document, "refused: N1 no-such at /f\n", 2),
            after(DOCUMENT, document, "hi", 0),
            tells(below, "refused: N2 not-folder at /f\n", 2),
            tells(Ask::Get("/"), "refused: N3 wrong-kind at /\n", 2),
            tells(Ask::Audit, "at,user,path,bits,granted,entry,kind\n", 0),
            after("UPDATE bodies SET bytes = x''", document, "", 0),
            fails("DELETE FROM bodies", document, "fault: database\n"),
            fails("DELETE FROM nodes", Ask::Get("/"), "fault: database\n"),
        ],
    )
}

#[test]
fn review_is_printed_or_refused(rt: HostRuntime) -> Result<(), Fail> {
    let bad_name = Ask::Review("q", Some("bad name"));
    let bad_path = Ask::Review("q", Some("bob"));
    let below = Ask::Review("/f/x", None);
    plays(
        rt.alloc(),
        &[
            tells(bad_name, "refused: A3 bad who\n", 2),
            tells(bad_path, "refused: P1 bad object name\n", 2),
            tells(Ask::Init, "ready\n", 0),
            tells(Ask::Review("/", None), REVIEWED, 0),
            tells(Ask::Review("/q", None), "refused: N1 no-such at /q\n", 2),
            after(DOCUMENT, below, "refused: N2 not-folder at /f\n", 2),
        ],
    )
}

#[test]
fn reset_sets_the_list(rt: HostRuntime) -> Result<(), Fail> {
    let list = Ask::Reset("/", Which::Sacl, b"list:p\nU:F:EVERYONE@:r\n");
    plays(
        rt.alloc(),
        &[
            tells(Ask::Init, "ready\n", 0),
            tells(Ask::Groups(GROUPS), "groups 1, members 2\n", 0),
            tells(list, "done\n", 0),
            tells(Ask::Dump, SET_ROOM, 0),
        ],
    )
}

#[test]
fn verify_missing_body(rt: HostRuntime) -> Result<(), Fail> {
    plays(
        rt.alloc(),
        &[
            tells(Ask::Init, "ready\n", 0),
            after(DOCUMENT, Ask::Verify, "sound\n", 0),
            after(
                "DELETE FROM bodies",
                Ask::Verify,
                "fault /f V7 bad-body\n",
                1,
            ),
            fails("", Ask::Dump, "fault: database\n"),
        ],
    )
}

#[test]
fn damaged_rows_and_missing_tables_are_faults(rt: HostRuntime) -> Result<(), Fail> {
    let bad_record = "INSERT INTO audits VALUES (3, 9, 'bob', '/', 2048, 1, 1)";
    plays(
        rt.alloc(),
        &[
            tells(Ask::Init, "ready\n", 0),
            fails(bad_record, Ask::Audit, "fault: database\n"),
            fails("DROP TABLE members", Ask::GroupsOut, "fault: database\n"),
        ],
    )
}
