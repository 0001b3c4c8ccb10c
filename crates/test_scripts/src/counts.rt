//! How many scripts passed.

use std::fmt::Display;
use std::process::ExitCode;
use std::test::Fail;

/// How many scripts passed, and how many failed: one for each thing over which one was played.
#[derive(Clone, Copy)]
pub struct Counts {
    passed: u64,
    failed: u64,
}

impl Counts {
    /// Nothing was played.
    pub fn none() -> Counts {
        Counts {
            passed: 0,
            failed: 0,
        }
    }

    /// One more passed.
    pub fn pass(&mut self) {
        self.passed = self.passed.saturating_add(1);
    }

    /// One more failed.
    pub fn fail(&mut self) {
        self.failed = self.failed.saturating_add(1);
    }

    /// One more failed, for this reason.
    pub fn refuse<D: Display + Drop>(&mut self, rt: &HostRuntime, why: D) -> Result<(), Fail> {
        self.fail();
        Ok(rt.eprintln(why)?)
    }

    /// Tells the counts, and answers the status.
    pub fn tell(&self, rt: &HostRuntime) -> Result<ExitCode, Fail> {
        let (passed, failed) = (self.passed, self.failed);
        println!(rt; "{passed} passed, {failed} failed")?;
        Ok(if failed == 0 {
            ExitCode::SUCCESS
        } else {
            ExitCode::FAILURE
        })
    }
}
