//! What is left to do when the files are read.

ghost use Rattle.std.specs.Prelude.{◌≡◌, [], List, Option, Some, None, IfOk, IfSome, if◌then◌else◌};
ghost use Rattle.flick_check.specs.Checked as checked;
ghost use Rattle.flick_check.specs.Checked.{YesIsSent};
ghost use Rattle.flick_lines.specs.Sent.{Sending};
ghost use Rattle.stub_codes.specs.Stubs.{IsCoded};
ghost use Rattle.flick_top.specs.Answer.{Answering};
ghost use Rattle.flick_top.specs.Dispatch.{AreAnswered};
ghost use Rattle.flick_top.specs.Task.{answering_task, checking_task, engine_of, report_task, task_in, writing_task};
ghost use Rattle.flick_top.specs.Turn.{CanReply, IsReady};

use crate::job::Job;
use crate::report::Report;
use crate::status::Status;
use flick_check::{a_yes_is_sent, has_refusal};
use flick_engine::Engine;
use kit_base::{NoMemory, Octets};
use std::alloc::Global;

/// What is left to do when the files are read: to write a text, and then, perhaps, to answer the items of the input.
#[derive(Drop)]
pub struct Prepared {
    /// What is written first.
    pub text: Octets,
    /// How the work ends where no answer is a refusal.
    pub status: Status,
    /// What answers the items of the input, where they are answered.
    pub feed: Option<Job>,
    /// The engine of work that answers no items, where one was made.
    pub idle: Option<Engine>,
}

impl Prepared {
    /// To say this, and no more, over an engine where there is one.
    pub fn of_report(
        alloc: Global,
        report: Report,
        engine: Option<Engine>,
    ) -> Result<Prepared, NoMemory>
        ensures value { IfOk result (λ p. task_in p [] ≡ report_task report engine) }
        ensures ready { IfOk result IsReady }
    {
        Ok(Prepared {
            text: report.octets(alloc)?,
            status: report.status(),
            feed: None,
            idle: engine,
        })
    }

    /// To answer items, after a text.
    pub fn of_job(text: Octets, job: Job) -> Prepared
        requires replies { CanReply job }
        ensures value { task_in result [] ≡ answering_task text job }
        ensures ready { IsReady result }
    {
        Prepared {
            text,
            status: Status::Done,
            feed: Some(job),
            idle: None,
        }
    }

    /// To write a text, and no more.
    pub fn of_text(text: Octets, engine: Option<Engine>) -> Prepared
        ensures value { (before : List Sending) → task_in result before ≡ writing_task text before engine }
        ensures alone { task_in result [] ≡ writing_task text [] engine }
        ensures ready { IsReady result }
    {
        Prepared {
            text,
            status: Status::Done,
            feed: None,
            idle: engine,
        }
    }

    /// To write answers, and no more, over an engine.
    pub fn of_answers(answers: Octets, engine: Engine) -> Prepared
        ensures value { task_in result [] ≡ checking_task answers engine }
        ensures ready { IsReady result }
    {
        let status = answers_status(answers.as_slice());
        Prepared {
            text: answers,
            status,
            feed: None,
            idle: Some(engine),
        }
    }

    /// Each item has an answer. It does nothing.
    pub fn items_are_answered(&self)
        ensures { (f : Answering) × AreAnswered self.now.feed f }
    {
        match &self.feed {
            Some(job) => job.items_are_answered(),
            None => {}
        }
    }

    /// Each code of the engine, where there is one, is that of its operation. It does nothing.
    pub fn codes_match_operations(&self)
        ensures { IfSome (engine_of self.now) IsCoded }
    {
        match &self.feed {
            Some(job) => job.codes_match_operations(),
            None => codes_of_idle(&self.idle),
        }
    }

    /// What a yes promises of stubs, where no items are answered and there is an engine. It looks at each node once.
    pub fn yes_is_sent(&self)
        ensures { self.now.feed ≡ None → IfSome (engine_of self.now) YesIsSent }
    {
        match &self.feed {
            Some(_) => {}
            None => yes_of_idle(&self.idle),
        }
    }

    /// The engine, where there is one.
    pub fn into_engine(self) -> Option<Engine>
        ensures { result ≡ engine_of self }
    {
        let Prepared { feed, idle, .. } = self;
        match feed {
            Some(job) => Some(job.into_engine()),
            None => idle,
        }
    }
}

/// Each code of an engine, where there is one, is that of its operation. It does nothing.
fn codes_of_idle(idle: &Option<Engine>)
    ensures { IfSome idle.now IsCoded }
{
    match idle {
        Some(engine) => engine.codes_match_operations(),
        None => {}
    }
}

/// What a yes promises of stubs over an engine, where there is one. It looks at each node once.
fn yes_of_idle(idle: &Option<Engine>)
    ensures { IfSome idle.now YesIsSent }
{
    match idle {
        Some(engine) => a_yes_is_sent(engine),
        None => {}
    }
}

/// How the work ends where these answers are written.
fn answers_status(answers: &[u8]) -> Status
    ensures { result ≡ (if checked.has_refusal answers.now then Status.Refused else Status.Done) }
{
    if has_refusal(answers) {
        Status::Refused
    } else {
        Status::Done
    }
}
