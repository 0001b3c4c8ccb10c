//! Each call of the keeper over tables.
use crate::rooms::{ROOT, plays};
use std::test::Fail;

// Two groups of alice.
const GROUPS: &str = "\
INSERT INTO members VALUES ('staff', 'alice');
INSERT INTO members VALUES ('sales', 'alice');
INSERT INTO members VALUES ('sales', 'carol');
";

// Four objects are added.
const ADDED: &str = "\
keeper Add 1 b folder => 2
keeper Add 1 a document => 3
keeper Add 2 f document => 4
keeper Add 1 B folder => 5
";

// What is read then. A folder has no bytes, and names are in order of their bytes.
const FOUR: &str = "\
keeper Root => 1 in 0 folder '' of root:staff, list:a / A::EVERYONE@:x / A:fd:root:r, list:a
keeper Ids => ids 1 2 3 4 5
keeper Node 0 => fault Store
keeper Node 1 => 1 in 0 folder '' of root:staff, list:a / A::EVERYONE@:x / A:fd:root:r, list:a
keeper Node 2 => 2 in 1 folder 'b' of root:staff, list:a, list:a
keeper Node 4 => 4 in 2 document 'f' of root:staff, list:a, list:a
keeper Node 6 => none
keeper Node 9223372036854775808 => fault Store
keeper Children 1 => children 5:folder:B 3:document:a 2:folder:b
keeper Children 2 => children 4:document:f
keeper Children 4 => children
keeper Children 6 => children
keeper Listing 1 => names folder:B document:a folder:b
keeper Listing 2 => names document:f
keeper Listing 3 => names
keeper Listing 6 => names
keeper HasChildren 1 => yes
keeper HasChildren 2 => yes
keeper HasChildren 3 => no
keeper HasChildren 6 => no
keeper Body 1 => none
keeper Body 3 => bytes hi
keeper Body 4 => bytes hi
keeper Body 6 => none
keeper Child 1 a => 3 in 1 document 'a' of root:staff, list:a, list:a
keeper Child 1 A => none
keeper Child 2 d => none
keeper Child 6 a => none
keeper Groups alice => groups sales staff
keeper Groups bob => groups
";

// The objects are changed by each call that writes. The number of one that was removed is used
// again where it was the greatest.
const CHANGES: &str = "\
keeper SetHeld 2 dacl list:a / D::bob:w => done
keeper SetInh 2 dacl list: / A:I:bob:r => done
keeper SetInh 2 sacl list: / U:SFI:carol:w => done
keeper SetOwners 2 alice:staff => done
keeper SetPlace 4 1 d => done
keeper SetBody 4 other => done
keeper Remove 5 => done
keeper Note 7 => done
keeper Add 2 d document => 5
";

// What is read then.
const CHANGED: &str = "\
keeper Ids => ids 1 2 3 4 5
keeper Node 2 => 2 in 1 folder 'b' of alice:staff, list:a / D::bob:w / A:I:bob:r, list:a / U:SFI:carol:w
keeper Node 4 => 4 in 1 document 'd' of root:staff, list:a, list:a
keeper Node 5 => 5 in 2 document 'd' of root:staff, list:a, list:a
keeper Children 1 => children 3:document:a 2:folder:b 4:document:d
keeper Children 2 => children 5:document:d
keeper Listing 1 => names document:a folder:b document:d
keeper HasChildren 4 => no
keeper Body 3 => bytes hi
keeper Body 4 => bytes other
keeper Body 5 => bytes hi
keeper Child 2 f => none
keeper Child 2 d => 5 in 2 document 'd' of root:staff, list:a, list:a
";

// Bytes go with their object, and what isn't met is a failure.
const REFUSED: &str = "\
keeper Remove 4 => done
keeper Body 4 => none
keeper Remove 2 => fault Store
keeper Remove 9 => fault Store
keeper SetBody 2 more => fault Store
keeper SetOwners 9 alice:staff => fault Store
keeper SetPlace 3 1 b => fault Store
keeper Add 1 b document => fault Store
keeper Ids => ids 1 2 3 5
";

#[test]
fn tables_read_and_write(rt: HostRuntime) -> Result<(), Fail> {
    plays(
        rt.alloc(),
        &[ROOT, GROUPS],
        &[ADDED, FOUR, CHANGES, CHANGED, REFUSED],
    )
}
