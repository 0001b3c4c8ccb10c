//! What the text of a room is.
use room_dump::dump;
use room_rows::{Keep, KeepFault};
use std::alloc::Global;
use std::test::Fail;
use test_player::{Room, agree, empty_keep};

const EMPTY: &str = "\
folder root staff /
dacl
list:a
A:fd:OWNER@:rwanNxDtThHdcCoy
sacl
list:a
";

const TWO: &str = "\
root MakeFolder /a => made
root Put /a/f hi => made
";

const TWO_TOLD: &str = "\
folder root staff /
dacl
list:a
A:fd:OWNER@:rwanNxDtThHdcCoy
sacl
list:a
folder root staff /a
dacl
list:a
A:fdI:OWNER@:rwanNxDtThHdcCoy
sacl
list:a
document root staff 2 /a/f
dacl
list:a
A:I:OWNER@:rwanNxDtThHdcCoy
sacl
list:a
";

// The objects are made in another order than they are told in.
const OWNED: &str = "\
root MakeFolder /c => made
root Put /c/f hi => made
root Put /b hello => made
root SetOwners /b alice:sales => done
operator Reset /b dacl list:p / A::alice:r => done
";

const OWNED_TOLD: &str = "\
folder root staff /
dacl
list:a
A:fd:OWNER@:rwanNxDtThHdcCoy
sacl
list:a
document alice sales 5 /b
dacl
list:p
A::alice:r
sacl
list:a
folder root staff /c
dacl
list:a
A:fdI:OWNER@:rwanNxDtThHdcCoy
sacl
list:a
document root staff 2 /c/f
dacl
list:a
A:I:OWNER@:rwanNxDtThHdcCoy
sacl
list:a
";

// Whether this is the text of a room as it is made, after a script.
fn tells(alloc: Global, script: &str, wanted: &str) -> Result<(), Fail> {
    let mut room = Room::new(empty_keep(alloc)?);
    room.play(alloc, script)?;
    let mut keep = room.into_keep();
    let told = text_of(alloc, &mut keep);
    agrees(told, wanted)
}

// The text, without what the contract says of it.
fn text_of<K: Keep>(alloc: Global, keep: &mut K) -> Result<String, KeepFault> {
    dump(alloc, keep)
}

fn agrees(told: Result<String, KeepFault>, wanted: &str) -> Result<(), Fail> {
    match told {
        Ok(text) => agree("dump", text.as_str(), wanted),
        Err(fault) => Err(Fail::from(fault)),
    }
}

// The examples by their names, each with a script and the text of its room.
static EXAMPLES: [(&str, &str, &str); 3] = [
    ("dump_empty_room", "", EMPTY),
    ("dump_two_objects", TWO, TWO_TOLD),
    ("dump_in_order_of_name", OWNED, OWNED_TOLD),
];

#[test]
fn examples_of_dumps(rt: HostRuntime) -> Result<(), Fail> {
    for (name, script, wanted) in &EXAMPLES {
        let answer = tells(rt.alloc(), *script, *wanted);
        if answer.is_err() {
            let _ = rt.eprintln(*name);
        }
        answer?;
    }
    Ok(())
}
