//! Worked examples: lists in text, one caller, and the verdict.
use room_ace::{Caller, Entries, Mask, Names, Owners, read_entry, read_mask, read_name};
use room_eval::{DeleteVerdict, Ruling, Verdict, decide, events, may_delete, ruling};
use std::alloc::Global;
use std::test::Fail;

// Entries of these lines.
fn entries_of(alloc: Global, lines: &[&str]) -> Result<Entries, Fail> {
    let mut entries = Entries::new(alloc);
    for line in lines {
        entries.push(read_entry(alloc, line)?)?;
    }
    Ok(entries)
}

// The user alice, who is in no group.
fn alice(alloc: Global) -> Result<Caller, Fail> {
    Ok(Caller {
        user: Some(read_name(alloc, "alice")?),
        groups: Names::new(alloc),
    })
}

fn owners(alloc: Global) -> Result<Owners, Fail> {
    Ok(Owners {
        owner: read_name(alloc, "root")?,
        group: read_name(alloc, "staff")?,
    })
}

// A word, the letters of the bits, and the place if there is one.
fn told(alloc: Global, word: &str, bits: Mask, place: Option<usize>) -> Result<String, Fail> {
    let mut text = String::from_str(alloc, word)?;
    bits.push_letters(&mut text)?;
    match place {
        None => Ok(text),
        Some(place) => Ok(format!(in alloc; "{text} {place}")?),
    }
}

// Whether alice may delete an object with the first list under a parent with the second.
fn verdict(target: &Entries, parent: &Entries, owners: &Owners, caller: &Caller) -> DeleteVerdict {
    may_delete(target.as_slice(), owners, parent.as_slice(), owners, caller)
}

fn verdict_on(alloc: Global, target: &Entries, parent: &Entries) -> Result<DeleteVerdict, Fail> {
    let owners = owners(alloc)?;
    let caller = alice(alloc)?;
    Ok(verdict(target, parent, &owners, &caller))
}

fn verdict_of(alloc: Global, target: &[&str], parent: &[&str]) -> Result<DeleteVerdict, Fail> {
    let target = entries_of(alloc, target)?;
    let parent = entries_of(alloc, parent)?;
    verdict_on(alloc, &target, &parent)
}

// The verdict for alice who deletes an object with the first list under a parent with the second.
fn deleting(alloc: Global, target: &[&str], parent: &[&str]) -> Result<String, Fail> {
    match verdict_of(alloc, target, parent)? {
        DeleteVerdict::Granted { by_add: false } => Ok(String::from_str(alloc, "granted")?),
        DeleteVerdict::Granted { by_add: true } => Ok(String::from_str(alloc, "granted by w")?),
        DeleteVerdict::AtTarget { place } => told(alloc, "target ", Mask::delete(), Some(place)),
        DeleteVerdict::AtParent { bits, place } => told(alloc, "parent ", bits, place),
    }
}

#[test]
fn ruling_parent_allows(rt: HostRuntime) -> Result<(), Fail> {
    let answer = deleting(rt.alloc(), &["D::alice:d"], &["A::alice:Dx"])?;
    assert_eq!(rt; answer.as_str(), "granted");
    Ok(())
}

#[test]
fn ruling_by_add(rt: HostRuntime) -> Result<(), Fail> {
    let answer = deleting(rt.alloc(), &[], &["A::alice:wx"])?;
    assert_eq!(rt; answer.as_str(), "granted by w");
    Ok(())
}

#[test]
fn ruling_nothing_grants(rt: HostRuntime) -> Result<(), Fail> {
    let answer = deleting(rt.alloc(), &[], &[])?;
    assert_eq!(rt; answer.as_str(), "parent w");
    Ok(())
}

#[test]
fn ruling_target_denies(rt: HostRuntime) -> Result<(), Fail> {
    let answer = deleting(rt.alloc(), &["D::alice:d"], &["A::alice:wx"])?;
    assert_eq!(rt; answer.as_str(), "target d 1");
    Ok(())
}

#[test]
fn ruling_parent_denies_child(rt: HostRuntime) -> Result<(), Fail> {
    let answer = deleting(rt.alloc(), &[], &["D::alice:D", "A::alice:w"])?;
    assert_eq!(rt; answer.as_str(), "parent D 1");
    Ok(())
}

#[test]
fn ruling_least_place(rt: HostRuntime) -> Result<(), Fail> {
    let parent = ["D::bob:w", "D::EVERYONE@:w", "D::alice:w"];
    let answer = deleting(rt.alloc(), &[], &parent)?;
    assert_eq!(rt; answer.as_str(), "parent w 2");
    Ok(())
}

const SACL: [&str; 3] = ["U:S:alice:rw", "U:F:alice:w", "U:SF:EVERYONE@:"];

// The places of the entries that call for a record, in a function without a contract.
fn places(
    alloc: Global,
    sacl: &Entries,
    caller: &Caller,
    asked: Mask,
    granted: bool,
) -> Result<Vec<usize>, Fail> {
    let owners = owners(alloc)?;
    Ok(events(alloc, sacl.as_slice(), caller, &owners, asked, granted)?)
}

// The places where alice asks these letters.
fn places_for(alloc: Global, letters: &str, granted: bool) -> Result<Vec<usize>, Fail> {
    let sacl = entries_of(alloc, &SACL)?;
    let caller = alice(alloc)?;
    places(alloc, &sacl, &caller, read_mask(letters)?, granted)
}

#[test]
fn events_by_outcome(rt: HostRuntime) -> Result<(), Fail> {
    let read = places_for(rt.alloc(), "r", true)?;
    assert_eq!(rt; read.as_slice(), [1].as_slice());
    let both = places_for(rt.alloc(), "rw", false)?;
    assert_eq!(rt; both.as_slice(), [2].as_slice());
    let none = places_for(rt.alloc(), "", true)?;
    assert!(rt; none.is_empty());
    Ok(())
}

const DACL: [&str; 3] = ["D::bob:rw", "A::alice:r", "A::EVERYONE@:w"];

// Whether alice is granted reading and writing by the list, and by which entry writing.
fn ruled(dacl: &Entries, caller: &Caller, owners: &Owners) -> (bool, Option<usize>) {
    let asked = Mask::read_data().union(Mask::write_data());
    let granted = matches!(
        decide(dacl.as_slice(), caller, owners, asked),
        Verdict::Granted
    );
    match ruling(dacl.as_slice(), caller, owners, Mask::write_data()) {
        Ruling::Allowed(place) => (granted, Some(place)),
        _ => (granted, None),
    }
}

#[test]
fn what_is_allowed_is_granted(rt: HostRuntime) -> Result<(), Fail> {
    let dacl = entries_of(rt.alloc(), &DACL)?;
    let owners = owners(rt.alloc())?;
    let caller = alice(rt.alloc())?;
    assert_eq!(rt; ruled(&dacl, &caller, &owners), (true, Some(3)));
    Ok(())
}
