//! Keepers in memory whose calls fail, and those that hand all calls on.
use room_rows::KeepFault;
use std::alloc::Global;
use std::test::Fail;
use test_player::{Plan, faults_along, play_failing};

// Two groups of alice, one of them joined twice.
const GROUPS: &str = "\
room Join staff alice => done
room Join sales alice => done
room Join sales alice => done
";

// Four objects are added.
const ADDED: &str = "\
keeper Add 1 b folder => 2
keeper Add 1 a document => 3
keeper Add 2 f document => 4
keeper Add 1 B folder => 5
";

// What is read then. A folder has no bytes, and names are in order.
const FOUR: &str = "\
keeper Root => 1 in 0 folder '' of root:staff, list:a / A::EVERYONE@:x / A:fd:root:ALL, list:a
keeper Ids => ids 1 2 3 4 5
keeper Node 0 => none
keeper Node 1 => 1 in 0 folder '' of root:staff, list:a / A::EVERYONE@:x / A:fd:root:ALL, list:a
keeper Node 2 => 2 in 1 folder 'b' of root:staff, list:a, list:a
keeper Node 3 => 3 in 1 document 'a' of root:staff, list:a, list:a
keeper Node 4 => 4 in 2 document 'f' of root:staff, list:a, list:a
keeper Node 5 => 5 in 1 folder 'B' of root:staff, list:a, list:a
keeper Node 6 => none
keeper Children 1 => children 5:folder:B 3:document:a 2:folder:b
keeper Children 2 => children 4:document:f
keeper Children 3 => children
keeper Children 4 => children
keeper Children 5 => children
keeper Children 6 => children
keeper Listing 1 => names folder:B document:a folder:b
keeper Listing 2 => names document:f
keeper Listing 3 => names
keeper Listing 5 => names
keeper Listing 6 => names
keeper HasChildren 1 => yes
keeper HasChildren 2 => yes
keeper HasChildren 3 => no
keeper HasChildren 5 => no
keeper HasChildren 6 => no
keeper Body 1 => none
keeper Body 2 => none
keeper Body 3 => bytes hi
keeper Body 4 => bytes hi
keeper Body 5 => none
keeper Body 6 => none
keeper Child 1 a => 3 in 1 document 'a' of root:staff, list:a, list:a
keeper Child 1 q => none
keeper Child 2 d => none
keeper Child 6 a => none
keeper Groups alice => groups sales staff
keeper Groups bob => groups
";

// The four objects are changed by each call that writes. The new number is one more than the
// greatest in use.
const CHANGES: &str = "\
keeper SetHeld 2 dacl list:a / D::bob:w => done
keeper SetInh 2 dacl list: / A:I:bob:r => done
keeper SetOwners 2 alice:staff => done
keeper SetPlace 4 1 d => done
keeper SetBody 4 other => done
keeper Remove 5 => done
keeper Note 7 => done
keeper Add 2 d document => 5
";

// What is read then.
const CHANGED: &str = "\
keeper Root => 1 in 0 folder '' of root:staff, list:a / A::EVERYONE@:x / A:fd:root:ALL, list:a
keeper Ids => ids 1 2 3 4 5
keeper Node 1 => 1 in 0 folder '' of root:staff, list:a / A::EVERYONE@:x / A:fd:root:ALL, list:a
keeper Node 2 => 2 in 1 folder 'b' of alice:staff, list:a / D::bob:w / A:I:bob:r, list:a
keeper Node 3 => 3 in 1 document 'a' of root:staff, list:a, list:a
keeper Node 4 => 4 in 1 document 'd' of root:staff, list:a, list:a
keeper Node 5 => 5 in 2 document 'd' of root:staff, list:a, list:a
keeper Node 6 => none
keeper Children 1 => children 3:document:a 2:folder:b 4:document:d
keeper Children 2 => children 5:document:d
keeper Children 3 => children
keeper Children 4 => children
keeper Children 5 => children
keeper Children 6 => children
keeper Listing 1 => names document:a folder:b document:d
keeper Listing 2 => names document:d
keeper Listing 5 => names
keeper HasChildren 1 => yes
keeper HasChildren 2 => yes
keeper HasChildren 4 => no
keeper Body 1 => none
keeper Body 2 => none
keeper Body 3 => bytes hi
keeper Body 4 => bytes other
keeper Body 5 => bytes hi
keeper Body 6 => none
keeper Child 1 a => 3 in 1 document 'a' of root:staff, list:a, list:a
keeper Child 1 q => none
keeper Child 2 d => 5 in 2 document 'd' of root:staff, list:a, list:a
keeper Child 6 a => none
keeper Groups alice => groups sales staff
keeper Groups bob => groups
";

const NOTED: &str = "\
room Records => 7 alice /a r yes 1 audit
";

// A keeper that hands on more calls than are made.
const HANDING: Plan = Plan {
    passing: 1000,
    alone: false,
};

#[test]
fn failing_keepers_read_and_write(rt: HostRuntime) -> Result<(), Fail> {
    play_failing(
        rt.alloc(),
        &[GROUPS],
        HANDING,
        &[ADDED, FOUR, CHANGES, CHANGED],
        &[CHANGED, NOTED],
    )
}

// Each call that reads and each that writes.
const EACH: &str = "\
keeper Root => any
keeper Ids => any
keeper Node 2 => any
keeper Child 1 a => any
keeper Children 1 => any
keeper Listing 1 => any
keeper HasChildren 1 => any
keeper Body 4 => any
keeper Groups alice => any
keeper SetHeld 2 dacl list:a / D::bob:w => any
keeper SetInh 2 dacl list: / A:I:bob:r => any
keeper SetOwners 2 alice:staff => any
keeper SetPlace 4 1 d => any
keeper SetBody 4 other => any
keeper Remove 5 => any
keeper Note 7 => any
keeper Add 2 d document => any
";

// The calls that fail by a plan, out of the seventeen: those from the first of these places on and
// before the second.
fn expect_faults(alloc: Global, plan: Plan, first: usize, end: usize) -> Result<(), Fail> {
    let faults = faults_along(alloc, &[GROUPS, ADDED], plan, EACH)?;
    for (place, failed) in faults.iter().enumerate() {
        let fails = first <= place && place < end;
        if *failed != fails {
            return Err(Fail::new(format_args!("at {place} of {first}")));
        }
    }
    Ok(())
}

#[test]
fn failing_keepers_from_each_call_on(rt: HostRuntime) -> Result<(), Fail> {
    for first in 0..18 {
        let plan = Plan {
            passing: first as u64,
            alone: false,
        };
        expect_faults(rt.alloc(), plan, first, 17)?;
    }
    Ok(())
}

#[test]
fn failing_keepers_once_at_each_call(rt: HostRuntime) -> Result<(), Fail> {
    for first in 0..18 {
        let plan = Plan {
            passing: first as u64,
            alone: true,
        };
        expect_faults(rt.alloc(), plan, first, first + 1)?;
    }
    Ok(())
}

// A keeper whose calls all fail.
const FAILING: Plan = Plan {
    passing: 0,
    alone: false,
};

const REFUSED: &str = "\
keeper Ids => fault Store
keeper Listing 1 => fault Store
keeper HasChildren 1 => fault Store
keeper SetHeld 2 dacl list:a / D::bob:w => fault Store
keeper SetInh 2 dacl list: / A:I:bob:r => fault Store
keeper SetOwners 2 alice:staff => fault Store
keeper SetPlace 4 1 d => fault Store
keeper SetBody 4 other => fault Store
keeper Remove 5 => fault Store
keeper Note 7 => fault Store
keeper Add 2 d document => fault Store
";

#[test]
fn failing_keepers_ask_nothing_more(rt: HostRuntime) -> Result<(), Fail> {
    play_failing(
        rt.alloc(),
        &[GROUPS, ADDED],
        FAILING,
        &[REFUSED],
        &[FOUR, "room Records => none"],
    )
}

#[test]
fn keep_fault_texts(rt: HostRuntime) -> Result<(), Fail> {
    for (fault, text) in [
        (KeepFault::Memory, "out of memory"),
        (KeepFault::Store, "the store failed"),
        (KeepFault::NoRoot, "no object is a root"),
        (KeepFault::Damaged { id: 7 }, "row 7 is damaged"),
    ] {
        assert_eq!(rt; format!(in rt.alloc(); "{fault}")?.as_str(), text);
    }
    Ok(())
}
