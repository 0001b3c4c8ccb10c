//! A question as far as it is read.
ghost use Rattle.std.specs.Prelude.{◌≡◌, ◌+◌, ◌==◌, Ok, length, nat_le};
ghost use Rattle.room_entry.specs.Gives.{Gives};
ghost use Rattle.room_question.specs.declared.limits.TheConstants.{MOST_PARTS};
ghost use Rattle.room_question.specs.Reading.{
  added,
  may_follow,
  none,
  nothing_asked,
  nothing_said,
  parts,
  with_said,
};
ghost use Rattle.room_question.specs.declared.saying.Said.TheVariants.{Pair, Caller, Stands, Changes};
ghost use Rattle.room_question.specs.declared.saying.Said.TheVariants.{Looks, Lists};

use crate::fault::{QuestionFault, QuestionWhy, fault_at};
use crate::limits::{MOST_MEMBERS, MOST_PARTS, MOST_SUPPOSED};
use crate::question::{Change, Look, Object, Question, Supposed};
use crate::saying::Said;
use crate::seen::Seen;
use room_ace::{Failure, Items, Name};
use std::alloc::Global;
use std::marker::Model;

/// A question as far as it is read. A contract sees the question.
#[derive(Drop)]
pub(crate) struct Draft {
    question: Question,
    seen: Seen,
}

impl Model for Draft {
    ghost use Rattle.room_question.specs.Seen.{HasSeen};
    ghost use Rattle.room_question.specs.declared.question.Question.{Question as Whole};

    ghost Value = { Whole };

    ghost view = { λ d. d.question };

    ghost invariant = { λ d. HasSeen d.seen d.question.objects };
}

impl Draft {
    /// Nothing.
    pub(crate) fn new(alloc: Global) -> Draft
        ensures { result ≡ nothing_said }
    {
        Draft {
            question: Question {
                members: Items::new(alloc),
                supposed: Items::new(alloc),
                objects: Items::new(alloc),
                changes: Items::new(alloc),
                looks: Items::new(alloc),
                lists: false,
            },
            seen: Seen::new(alloc),
        }
    }

    /// The question.
    pub(crate) fn into_question(self) -> Question
        ensures { result ≡ self }
    {
        let Draft { question, seen: _ } = self;
        question
    }

    /// Whether no object is there.
    pub(crate) fn has_no_object(&self) -> bool
        ensures { result ≡ none self.now.objects }
    {
        self.question.objects.is_empty()
    }

    /// The question with what one line more says.
    pub(crate) fn with(
        self,
        alloc: Global,
        line: usize,
        said: Said,
    ) -> Result<Draft, Failure<QuestionFault>>
        ensures { Gives result (with_said line self said) }
    {
        if !self.may_follow(&said) {
            return Err(fault_at(line, QuestionWhy::NoSuchLine));
        }
        match said {
            Said::Pair(group, user) => self.with_pair(line, group, user),
            Said::Caller(supposed) => self.with_supposed(line, supposed),
            Said::Stands(object) => self.with_object(alloc, line, object),
            Said::Changes(change) => self.with_change(line, change),
            Said::Looks(look) => self.with_look(line, look),
            Said::Lists => self.with_lists(line),
        }
    }

    // Whether such a line may stand here.
    fn may_follow(&self, said: &Said) -> bool
        ensures { result ≡ may_follow self.now said.now }
    {
        let so_far = &self.question;
        match said {
            Said::Pair(_, _) => {
                so_far.supposed.is_empty() && so_far.objects.is_empty() && self.asks_nothing()
            }
            Said::Caller(_) => so_far.objects.is_empty() && self.asks_nothing(),
            Said::Stands(_) => self.asks_nothing(),
            Said::Changes(_) => so_far.looks.is_empty() && !so_far.lists,
            Said::Looks(_) => so_far.changes.is_empty() && !so_far.lists,
            Said::Lists => !so_far.lists,
        }
    }

    // Whether nothing is changed or looked at.
    fn asks_nothing(&self) -> bool
        ensures { result ≡ nothing_asked self.now }
    {
        self.question.changes.is_empty() && self.question.looks.is_empty() && !self.question.lists
    }

    // Whether there are as many objects, changes and looks as there may be.
    fn is_full(&self) -> bool
        ensures { result ≡ nat_le MOST_PARTS (parts self.now) }
    {
        let objects = self.question.objects.len();
        let changes = self.question.changes.len();
        let looks = self.question.looks.len();
        objects >= MOST_PARTS
            || changes >= MOST_PARTS
            || looks >= MOST_PARTS
            || objects + changes + looks >= MOST_PARTS
    }

    fn with_pair(
        self,
        line: usize,
        group: Name,
        user: Name,
    ) -> Result<Draft, Failure<QuestionFault>>
        ensures { Gives result (added line self (Pair group user)) }
    {
        let Draft { mut question, seen } = self;
        if question.members.len() >= MOST_MEMBERS {
            return Err(fault_at(line, QuestionWhy::TooMuch));
        }
        question.members.push((group, user))?;
        Ok(Draft { question, seen })
    }

    fn with_supposed(self, line: usize, supposed: Supposed) -> Result<Draft, Failure<QuestionFault>>
        ensures { Gives result (added line self (Caller supposed)) }
    {
        let Draft { mut question, seen } = self;
        if question.supposed.len() >= MOST_SUPPOSED {
            return Err(fault_at(line, QuestionWhy::TooMuch));
        }
        question.supposed.push(supposed)?;
        Ok(Draft { question, seen })
    }

    fn with_object(
        self,
        alloc: Global,
        line: usize,
        object: Object,
    ) -> Result<Draft, Failure<QuestionFault>>
        ensures { Gives result (added line self (Stands object)) }
    {
        if let Some(why) = self.seen.place_fault(alloc, &object)? {
            return Err(fault_at(line, why));
        }
        if self.is_full() {
            return Err(fault_at(line, QuestionWhy::TooMuch));
        }
        let Draft { mut question, seen } = self;
        let seen = seen.with(alloc, &object)?;
        question.objects.push(object)?;
        Ok(Draft { question, seen })
    }

    fn with_change(self, line: usize, change: Change) -> Result<Draft, Failure<QuestionFault>>
        ensures { Gives result (added line self (Changes change)) }
    {
        if self.has_no_object() {
            return Err(fault_at(line, QuestionWhy::NoFolder));
        }
        if self.is_full() {
            return Err(fault_at(line, QuestionWhy::TooMuch));
        }
        let Draft { mut question, seen } = self;
        question.changes.push(change)?;
        Ok(Draft { question, seen })
    }

    fn with_look(self, line: usize, look: Look) -> Result<Draft, Failure<QuestionFault>>
        ensures { Gives result (added line self (Looks look)) }
    {
        if self.has_no_object() {
            return Err(fault_at(line, QuestionWhy::NoFolder));
        }
        if self.is_full() {
            return Err(fault_at(line, QuestionWhy::TooMuch));
        }
        let Draft { mut question, seen } = self;
        question.looks.push(look)?;
        Ok(Draft { question, seen })
    }

    fn with_lists(self, line: usize) -> Result<Draft, Failure<QuestionFault>>
        ensures { Gives result (added line self Lists) }
    {
        if self.has_no_object() {
            return Err(fault_at(line, QuestionWhy::NoFolder));
        }
        let Draft { mut question, seen } = self;
        question.lists = true;
        Ok(Draft { question, seen })
    }
}
