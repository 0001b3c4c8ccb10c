//! Requests at a desk, and requests carried out in turn.
use room_desk::{Asked, Desk, DeskFault, Reply, perform_all};
use std::alloc::Global;
use std::test::Fail;
use test_memory::MemDesk;
use test_player::{Plan, agree, failing, open_keep, play, push_reply, spoken_in};
use test_tree::{Keep, KeepFault};

const SCRIPT: &str = "\
root MakeFolder /a => made
alice MakeFolder /b => denied at / bits a no-place no-entry
root Put /a/f hi => made
- Read /a/f => denied at /a bits x no-place no-entry
root Append /a/f ! => done
root Remove /a => refused at /a N5
root Read /a/f => bytes hi!
";

// What a desk answers, without what the contract says of it.
fn run<D: Desk>(alloc: Global, desk: &mut D, asked: &Asked) -> Result<Reply, DeskFault> {
    desk.run(alloc, asked.user.as_ref(), asked.moment, &asked.request)
}

// The text of a desk's answer to one line.
fn told_by<D: Desk>(alloc: Global, desk: &mut D, asked: &str) -> Result<String, Fail> {
    let asked = asked_in(alloc, asked)?;
    let answer = run(alloc, desk, &asked);
    drop(asked);
    reply_text(alloc, &answer?)
}

fn reply_text(alloc: Global, reply: &Reply) -> Result<String, Fail> {
    let mut told = String::new(alloc);
    push_reply(alloc, &mut told, reply)?;
    Ok(told)
}

fn ask_line<D: Desk>(alloc: Global, desk: &mut D, line: &str) -> Result<(), Fail> {
    let (asked, wanted) = line.split_once(" => ").ok_or("no arrow")?;
    let told = told_by(alloc, desk, asked)?;
    agree(asked, told.as_str(), wanted)
}

// Asks a desk what the lines of a script ask.
fn ask<D: Desk>(alloc: Global, desk: &mut D, script: &str) -> Result<(), Fail> {
    'lines: for line in script.lines() {
        ask_line(alloc, desk, line)?;
    }
    Ok(())
}

// What a desk in memory keeps is lent, and given back.
#[test]
fn desk_lends_what_it_keeps(rt: HostRuntime) -> Result<(), Fail> {
    let alloc = rt.alloc();
    let mut desk = MemDesk::new(open_keep(alloc)?);
    ask(alloc, &mut desk, SCRIPT)?;
    let records = desk.keep().notes().len();
    let mut keep = desk.into_keep();
    assert_eq!(rt; records, 0);
    play(alloc, &mut keep, 1000, "root Read /a/f => bytes hi!")
}

// What a line asks, at the moment 1000.
fn asked_in(alloc: Global, asked: &str) -> Result<Asked, Fail> {
    let spoken = spoken_in(alloc, asked)?;
    Ok(Asked {
        user: spoken.caller,
        moment: 1000,
        request: spoken.request,
    })
}

fn push_asked(alloc: Global, all: &mut Vec<Asked>, line: &str) -> Result<(), Fail> {
    let (asked, _) = line.split_once(" => ").ok_or("no arrow")?;
    Ok(all.push(asked_in(alloc, asked)?)?)
}

// All that the lines of the script ask.
fn all_asked(alloc: Global) -> Result<Vec<Asked>, Fail> {
    let mut all = Vec::new(alloc);
    'lines: for line in SCRIPT.lines() {
        push_asked(alloc, &mut all, line)?;
    }
    Ok(all)
}

// The replies, without what the contract says of them.
fn performed<K: Keep>(alloc: Global, keep: &mut K) -> Result<Result<Vec<Reply>, KeepFault>, Fail> {
    let all = all_asked(alloc)?;
    Ok(perform_all(alloc, keep, all.as_slice()))
}

// The reply is the one that the line says.
fn expect_reply(alloc: Global, reply: &Reply, line: &str) -> Result<(), Fail> {
    let (asked, wanted) = line.split_once(" => ").ok_or("no arrow")?;
    let told = reply_text(alloc, reply)?;
    agree(asked, told.as_str(), wanted)
}

// The replies are those that the lines of the script say.
fn expect_replies(alloc: Global, replies: &[Reply]) -> Result<(), Fail> {
    if replies.len() != SCRIPT.lines().count() {
        return Err(Fail::new("not a reply for each line"));
    }
    'lines: for (reply, line) in replies.iter().zip(SCRIPT.lines()) {
        expect_reply(alloc, reply, line)?;
    }
    Ok(())
}

#[test]
fn requests_in_turn(rt: HostRuntime) -> Result<(), Fail> {
    let alloc = rt.alloc();
    let mut keep = open_keep(alloc)?;
    let replies = performed(alloc, &mut keep)??;
    expect_replies(alloc, replies.as_slice())
}

// The first fault ends all, and is the answer.
#[test]
fn fault_ends_requests(rt: HostRuntime) -> Result<(), Fail> {
    let alloc = rt.alloc();
    let plan = Plan {
        passing: 6,
        alone: true,
    };
    let mut keep = failing(open_keep(alloc)?, plan);
    match performed(alloc, &mut keep)? {
        Err(KeepFault::Store) => Ok(()),
        _ => Err(Fail::new("no fault")),
    }
}
