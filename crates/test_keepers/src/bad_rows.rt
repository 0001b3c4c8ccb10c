//! Rows that can't be read, and what is answered then.
use crate::rooms::{ROOT, plays, refuses, tables_with};
use std::test::Fail;

// A row, and a script that is played with it beside the root.
static UNREAD: [(&str, &str); 11] = [
    (
        "INSERT INTO nodes VALUES (2, 1, 'k', 2, 'root', 'staff', 0, 0, '', '', '', '');
INSERT INTO bodies VALUES (2, x'6869');",
        "\
keeper Root => 1 in 0 folder '' of root:staff, list:a / A::EVERYONE@:x / A:fd:root:r, list:a
keeper Ids => ids 1 2
keeper Node 2 => fault Damaged 2
keeper Child 1 k => fault Damaged 2
keeper Children 1 => fault Damaged 2
keeper Listing 1 => fault Damaged 2
keeper HasChildren 1 => yes
keeper Body 2 => bytes hi
keeper SetHeld 2 dacl list:a => done
keeper SetInh 2 dacl list: / A:I:bob:r => done
keeper SetOwners 2 alice:staff => done
keeper SetPlace 2 1 d => done
keeper Node 2 => fault Damaged 2
keeper Add 1 d document => fault Store
",
    ),
    (
        "INSERT INTO nodes VALUES (2, 1, 'k', 0, 'root', 'staff', 4, 0, '', '', '', '');",
        "\
keeper Node 2 => fault Damaged 2
keeper Children 1 => fault Damaged 2
keeper Listing 1 => names document:k
keeper Body 2 => none
keeper SetBody 2 hi => fault Store
",
    ),
    (
        "INSERT INTO nodes VALUES (2, 1, 'k', 0, 'root', 'staff', 0, -1, '', '', '', '');",
        "keeper Node 2 => fault Damaged 2\n",
    ),
    (
        "INSERT INTO nodes VALUES (2, 1, CAST(x'FF' AS TEXT), 0, 'root', 'staff', 0, 0, '', '', '', \
         '');",
        "\
keeper Node 2 => fault Damaged 2
keeper Children 1 => fault Damaged 2
keeper Listing 1 => fault Damaged 2
",
    ),
    (
        "INSERT INTO nodes VALUES (2, 1, 'k', 0, 'a b', 'staff', 0, 0, '', '', '', '');",
        "keeper Node 2 => fault Damaged 2\nkeeper Listing 1 => names document:k\n",
    ),
    (
        "INSERT INTO nodes VALUES (2, 1, 'k', 0, 'root', '', 0, 0, '', '', '', '');",
        "keeper Node 2 => fault Damaged 2\n",
    ),
    (
        "INSERT INTO nodes VALUES (2, 1, 'k', 0, 'root', 'staff', 0, 0, 'A::bob:r
A::ali', '', '', '');",
        "keeper Node 2 => fault Damaged 2\n",
    ),
    (
        "INSERT INTO nodes VALUES (-1, NULL, '', 1, 'root', 'staff', 0, 0, '', '', '', '');
INSERT INTO nodes VALUES (2, -1, 'k', 0, 'root', 'staff', 0, 0, '', '', '', '');",
        "\
keeper Root => 1 in 0 folder '' of root:staff, list:a / A::EVERYONE@:x / A:fd:root:r, list:a
keeper Ids => ids 1 2
keeper Node 2 => fault Damaged 2
",
    ),
    (
        "INSERT INTO nodes VALUES (2, 1, 'f', 1, 'root', 'staff', 0, 0, '', '', '', '');
INSERT INTO nodes VALUES (0, 2, 'k', 0, 'root', 'staff', 0, 0, '', '', '', '');
INSERT INTO bodies VALUES (0, x'6869');",
        "\
keeper Ids => ids 1 2
keeper Child 2 k => none
keeper Children 2 => children
keeper Listing 2 => names
keeper HasChildren 2 => no
keeper Remove 2 => fault Store
keeper Add 2 k document => fault Store
",
    ),
    (
        "INSERT INTO members VALUES ('staff', 'alice');
INSERT INTO members VALUES ('', 'alice');
INSERT INTO members VALUES ('a b', 'alice');
INSERT INTO members VALUES (CAST(x'FF' AS TEXT), 'alice');
INSERT INTO members VALUES ('sales', 'alice');",
        "keeper Groups alice => groups sales staff\n",
    ),
    (
        "INSERT INTO nodes VALUES (2, NULL, 'k', 0, 'root', 'staff', 0, 0, '', '', '', '');",
        "\
keeper Root => 1 in 0 folder '' of root:staff, list:a / A::EVERYONE@:x / A:fd:root:r, list:a
keeper Node 2 => 2 in 0 document 'k' of root:staff, list:, list:
",
    ),
];

#[test]
fn bad_rows_beside_the_root(rt: HostRuntime) -> Result<(), Fail> {
    for (row, script) in &UNREAD {
        plays(rt.alloc(), &[ROOT, *row], &[*script])?;
    }
    Ok(())
}

// Rooms whose root is missing, or can't be read.
const ROOTLESS: [(&str, &str); 2] = [
    (
        "INSERT INTO members VALUES ('staff', 'alice');",
        "keeper Root => fault NoRoot\nkeeper Ids => ids\n",
    ),
    (
        "INSERT INTO nodes VALUES (3, NULL, '', 5, 'root', 'staff', 0, 0, '', '', '', '');",
        "keeper Root => fault Damaged 3\nkeeper Ids => ids 3\n",
    ),
];

#[test]
fn bad_roots(rt: HostRuntime) -> Result<(), Fail> {
    for (row, script) in &ROOTLESS {
        plays(rt.alloc(), &[*row], &[*script])?;
    }
    Ok(())
}

// Rows that the tables refuse: bytes without an object, and a second child of one name.
const KEPT_OUT: [&str; 2] = [
    "INSERT INTO bodies VALUES (2, x'6869');",
    "INSERT INTO nodes VALUES (2, 1, 'k', 0, 'root', 'staff', 0, 0, '', '', '', '');
INSERT INTO nodes VALUES (3, 1, 'k', 0, 'root', 'staff', 0, 0, '', '', '', '');",
];

#[test]
fn tables_keep_rows_out(rt: HostRuntime) -> Result<(), Fail> {
    for rows in &KEPT_OUT {
        let mut conn = tables_with(rt.alloc(), &[ROOT])?;
        refuses(&mut conn, *rows)?;
    }
    Ok(())
}
