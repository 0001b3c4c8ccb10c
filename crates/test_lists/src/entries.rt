//! Worked examples: the text of entries, what may stand in a list, and copies.
use room_ace::{
    Caller, Entries, Entry, EntryFlags, EntryKind, Failure, ListFault, ListFlags, Mask, Names,
    ObjKind, Owners, SentList, Which, Who, matches, print_entry, print_list, read_entry, read_name,
    valid,
};
use std::alloc::{AllocError, Global};
use std::test::Fail;

// The fault of the text of an entry, as it is printed.
fn fault_in(alloc: Global, text: &str) -> &'static str {
    match read_entry(alloc, text) {
        Ok(_) => "read",
        Err(Failure::OutOfMemory) => "out of memory",
        Err(Failure::Fault(fault)) => fault.as_str(),
    }
}

// The answer to the entry in a dacl.
fn judged(alloc: Global, text: &str, kind: ObjKind) -> Result<&'static str, Fail> {
    match valid(&read_entry(alloc, text)?, Which::Dacl, kind) {
        Ok(()) => Ok("valid"),
        Err(fault) => Ok(fault.as_str()),
    }
}

#[test]
fn entry_fault_order(rt: HostRuntime) {
    for (text, want) in [
        ("A::a:b:r", "A5 not four parts"),
        ("X:q:*:Z", "A1 bad type"),
        ("A:q:*:Z", "A2 bad flag"),
        ("A::*:Z", "A3 bad who"),
        ("A::bob:Z", "A4 bad mask letter"),
    ] {
        assert_eq!(rt; fault_in(rt.alloc(), text), want, "at {text}");
    }
}

#[test]
fn alarm_and_special_names_read(rt: HostRuntime) -> Result<(), Fail> {
    let alarm = read_entry(rt.alloc(), "L:F:bob:r")?;
    assert_eq!(rt; alarm.kind(), EntryKind::Alarm);
    assert!(rt; alarm.flags().failed_access);
    assert!(rt; matches!(alarm.who(), Who::User(name) if name.as_str() == "bob"));
    let allow = read_entry(rt.alloc(), "A::ANONYMOUS@:r")?;
    assert_eq!(rt; allow.kind(), EntryKind::Allow);
    assert!(rt; matches!(allow.who(), Who::Anonymous));
    Ok(())
}

#[test]
fn mask_letters_sorted(rt: HostRuntime) -> Result<(), Fail> {
    let entry = read_entry(rt.alloc(), "A::alice:yCcr")?;
    let text = print_entry(rt.alloc(), &entry)?;
    assert_eq!(rt; text.as_str(), "A::alice:rcCy");
    Ok(())
}

// Adds the letters of each bit of the mask.
fn push_singles(alloc: Global, letters: &mut String, mask: Mask) -> Result<(), Fail> {
    for bit in mask.singles(alloc)?.as_slice() {
        bit.push_letters(letters)?;
        letters.push(' ')?;
    }
    Ok(())
}

fn singles_text(alloc: Global, mask: Mask) -> Result<String, Fail> {
    let mut letters = String::new(alloc);
    push_singles(alloc, &mut letters, mask)?;
    Ok(letters)
}

#[test]
fn mask_taken_apart(rt: HostRuntime) -> Result<(), Fail> {
    let mask = Mask::write_owner()
        .union(Mask::read_data())
        .union(Mask::execute());
    assert_eq!(rt; singles_text(rt.alloc(), mask)?.as_str(), "r x o ");
    assert_eq!(rt; singles_text(rt.alloc(), Mask::empty())?.as_str(), "");
    Ok(())
}

#[test]
fn valid_on_folder(rt: HostRuntime) -> Result<(), Fail> {
    for (text, want) in [
        ("U:S:bob:r", "A9 type not of this attribute"),
        ("A:Si:bob:r", "A10 S or F on A or D"),
        ("A:i:bob:r", "A11 i without f or d"),
        ("A:n:bob:", "valid"),
    ] {
        assert_eq!(rt;
            judged(rt.alloc(), text, ObjKind::Folder)?,
            want,
            "at {text}"
        );
    }
    Ok(())
}

#[test]
fn valid_on_document(rt: HostRuntime) -> Result<(), Fail> {
    let answer = judged(rt.alloc(), "A:n:bob:r", ObjKind::Document)?;
    assert_eq!(rt; answer, "A12 inheritance flag on a document");
    Ok(())
}

// This many own entries.
fn own_entries(alloc: Global, count: usize) -> Result<Entries, Fail> {
    let mut entries = Entries::new(alloc);
    for _ in 0..count {
        entries.push(read_entry(alloc, "A::bob:r")?)?;
    }
    Ok(entries)
}

#[test]
fn sent_list_of_65_own(rt: HostRuntime) -> Result<(), Fail> {
    let entries = own_entries(rt.alloc(), 65)?;
    let flags = ListFlags {
        auto: false,
        protect: false,
    };
    assert_eq!(rt;
        SentList::new(flags, entries).err(),
        Some(ListFault::TooManyOwn)
    );
    Ok(())
}

// The text of a list of an entry and of what it passes down, out of a copy.
fn copied_list(alloc: Global, own: &Entry) -> Result<String, Fail> {
    let inherited = own.with_flags(EntryFlags {
        inherited: true,
        ..own.flags()
    })?;
    let mut entries = Entries::new(alloc);
    entries.push(own.clone()?)?;
    entries.push(inherited)?;
    printed_copy(alloc, &entries)
}

fn printed_copy(alloc: Global, entries: &Entries) -> Result<String, Fail> {
    let copy = entries.copy()?;
    let flags = ListFlags {
        auto: true,
        protect: true,
    };
    Ok(print_list(alloc, flags, copy.as_slice())?)
}

#[test]
fn copies_hold_the_same(rt: HostRuntime) -> Result<(), Fail> {
    let own = read_entry(rt.alloc(), "A:fd:GROUP@:rw")?;
    let text = copied_list(rt.alloc(), &own)?;
    assert_eq!(rt; text.as_str(), "list:ap\nA:fd:GROUP@:rw\nA:fdI:GROUP@:rw\n");
    Ok(())
}

// A caller with the name of the owner, in the owning group.
fn caller_of(alloc: Global, owners: &Owners) -> Result<Caller, AllocError> {
    let mut groups = Names::new(alloc);
    groups.push(owners.group.copy()?)?;
    Ok(Caller {
        user: Some(owners.owner.copy()?),
        groups,
    })
}

// Whether the entry speaks of a caller that is made of a copy of the owners.
fn matches_copies(alloc: Global, entry: &Entry, owners: &Owners) -> Result<bool, Fail> {
    let held = owners.copy()?;
    let caller = caller_of(alloc, &held)?;
    Ok(matches(entry, &caller, owners))
}

fn alice_and_sales(alloc: Global) -> Result<Owners, Fail> {
    let owner = read_name(alloc, "alice")?;
    Ok(Owners {
        owner,
        group: read_name(alloc, "sales@example.org")?,
    })
}

#[test]
fn copied_callers_match(rt: HostRuntime) -> Result<(), Fail> {
    let own = read_entry(rt.alloc(), "A:fd:GROUP@:rw")?;
    let owners = alice_and_sales(rt.alloc())?;
    assert!(rt; matches_copies(rt.alloc(), &own, &owners)?);
    Ok(())
}

fn names_of(alloc: Global, texts: &[&str]) -> Result<Names, Fail> {
    let mut names = Names::new(alloc);
    for text in texts {
        names.push(read_name(alloc, text)?)?;
    }
    Ok(names)
}

// Whether the names have the sought one, before and after they are sorted.
fn is_found(alloc: Global, names: &mut Names, sought: &str) -> Result<(bool, bool), Fail> {
    let name = read_name(alloc, sought)?;
    let unsorted = names.contains(&name);
    names.sort();
    Ok((unsorted, names.contains(&name)))
}

#[test]
fn names_are_found_in_any_order(rt: HostRuntime) -> Result<(), Fail> {
    for texts in [["audit", "sales", "staff"], ["staff", "audit", "sales"]] {
        let mut names = names_of(rt.alloc(), &texts)?;
        assert_eq!(rt; is_found(rt.alloc(), &mut names, "sales")?, (true, true));
        assert_eq!(rt; is_found(rt.alloc(), &mut names, "sale")?, (false, false));
    }
    Ok(())
}
