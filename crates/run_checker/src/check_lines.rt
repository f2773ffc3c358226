ghost use Rattle.std.specs.Prelude.{◌≡◌};
ghost use Rattle.edge_io.specs.Taking.{Takes};
ghost use Rattle.texts.specs.Shapes.{all_numbers};
ghost use Rattle.std.specs.Option.{option_map};
ghost use Rattle.run_checker.specs.Items.{run_item, faulty_item};
ghost use Rattle.run_checker.specs.Checking.{unread, planned, step, step_by, base_step};
ghost use Rattle.run_checker.specs.Checking.{level_step};
ghost use Rattle.run_checker.specs.SaidLines.{item_seen};
ghost use Rattle.run_checker.specs.Bodies.{stage_of};
ghost use Rattle.run_checker.specs.Phases.{head_seen, planned_seen, Enters};

use crate::Verdict;
use crate::bodies::Body;
use crate::id_lists::read_ids;
use crate::planned::Planned;
use crate::said_lines::{CertificateLine, read_said};
use crate::versions::Version;
use edge_io::{LineReader, TakeError, Words};
use plan_numbers::{Plan, PremiseError};
use std::alloc::Global;
use std::marker::Model;
use std::mem;
use sync_types::{FaultSet, NoMemory};

/// How much of the head of a certificate was read.
#[derive(Drop)]
pub enum Head {
    /// No line of it.
    Unread,
    /// Its first line, which says its version.
    Begun(Version),
    /// Its base line, and as many lines of levels as the plan has levels.
    Planned(Planned),
}

/// How far a certificate was read.
pub enum Phase {
    /// Its head, or lines of that.
    Head(Head),
    /// Its head, and lines after it.
    Inside(Body),
}

// Written out, so that code that drops one has a single call.
impl Drop for Phase {
    fn drop(self) {
        match self {
            Phase::Head(head) => drop(head),
            Phase::Inside(body) => drop(body),
        }
    }
}

/// Reads the lines of a certificate.
pub struct CheckLines {
    alloc: Global,
    phase: Phase,
}

// Written out, so that code that drops one has a single call.
impl Drop for CheckLines {
    fn drop(self) {
        let CheckLines { alloc, phase } = self;
        drop(alloc);
        drop(phase);
    }
}

impl Model for CheckLines {
    ghost use Rattle.run_checker.specs.Checking.{Stage};
    ghost use Rattle.run_checker.specs.Phases.{phase_seen};

    ghost Value = { Stage };

    ghost view = { λ l. phase_seen l.phase };
}

/// What stands after the first line.
fn behind_run(version: u64) -> Result<Phase, TakeError<()>>
    ensures { Enters (step unread (run_item version)) result }
{
    if version < 1 || version > 3 {
        return Err(TakeError::Refused(()));
    }
    let number = version as u32;
    Ok(Phase::Head(Head::Begun(Version { number })))
}

/// What stands after the base line.
fn behind_base(alloc: Global, version: Version, base: u64) -> Result<Phase, TakeError<()>>
    ensures { Enters (base_step version.number base) result }
{
    let plan_version = if version.number == 3 { 2 } else { 1 };
    match Plan::base_of(alloc, plan_version, base) {
        Ok(plan) => Ok(Phase::Head(Head::Planned(Planned { version, plan }))),
        Err(PremiseError::Refused(_)) => Err(TakeError::Refused(())),
        Err(PremiseError::NoMemory) => Err(TakeError::NoMemory),
    }
}

/// What stands after the line of a level.
fn behind_level(
    planned: Planned,
    blocks: u64,
    faults: u64,
    modulus: u64,
    spares: Option<u64>,
) -> Result<Phase, TakeError<()>>
    ensures { Enters (level_step planned.version.number planned.plan blocks faults modulus spares)
        result }
{
    let Planned { version, mut plan } = planned;
    if spares.is_some() != (version.number == 3) {
        return Err(TakeError::Refused(()));
    }
    match plan.push_with(blocks, faults, modulus, spares.unwrap_or(0)) {
        Ok(()) => Ok(Phase::Head(Head::Planned(Planned { version, plan }))),
        Err(_) => Err(TakeError::Refused(())),
    }
}

/// What stands after the line of the nodes that are faulty at first.
fn behind_faulty(alloc: Global, planned: &Planned, words: Words<'_>) -> Result<Phase, TakeError<()>>
    ensures { Enters (step_by (planned_seen planned.now) (option_map faulty_item
        (all_numbers words.entry))) result }
{
    let plan = &planned.plan;
    let mut faulty = FaultSet::new(alloc, plan.nodes()).map_err(|_| TakeError::NoMemory)?;
    if !read_ids(words, plan.faults(), &mut faulty) {
        return Err(TakeError::Refused(()));
    }
    match Body::new(alloc, planned.version.number, plan, faulty) {
        Ok(body) => Ok(Phase::Inside(body)),
        Err(NoMemory) => Err(TakeError::NoMemory),
    }
}

/// What stands after a line, if the head was not read before it.
fn behind_head(alloc: Global, head: Head, said: CertificateLine<'_>) -> Result<Phase, TakeError<()>>
    ensures { Enters (step_by (head_seen head) (item_seen said.entry)) result }
{
    match (head, said) {
        (Head::Unread, CertificateLine::Run(version)) => behind_run(version),
        (Head::Begun(version), CertificateLine::Base(base)) => behind_base(alloc, version, base),
        (Head::Planned(planned), CertificateLine::Level(blocks, faults, modulus, spares)) => {
            behind_level(planned, blocks, faults, modulus, spares)
        }
        (Head::Planned(planned), CertificateLine::Faulty(words)) => behind_faulty(
            alloc, &planned, words,
        ),
        _ => Err(TakeError::Refused(())),
    }
}

/// Takes a line after the head.
fn take_inside(body: &mut Body, said: CertificateLine<'_>) -> Result<Option<Verdict>, TakeError<()>>
    ensures { Takes (step_by (stage_of body.old) (item_seen said.entry))
        (stage_of body.new) result }
{
    match said {
        CertificateLine::Row(t, words) => body.take_row(t, words),
        CertificateLine::Lie(sender, receiver, digits) => body.take_lie(sender, receiver, digits),
        CertificateLine::Start(v, digits) => body.take_start(v, digits),
        CertificateLine::Era(t, words) => body.take_era(t, words),
        CertificateLine::End => body.take_end(),
        _ => Err(TakeError::Refused(())),
    }
}

impl CheckLines {
    ghost use Rattle.run_checker.specs.Checking.{unread};
    ghost use Rattle.run_checker.specs.NextLies.{TakesNext};

    /// A reader of a text of which nothing was read.
    pub fn new(alloc: Global) -> CheckLines
        ensures { result ≡ unread }
    {
        CheckLines {
            alloc,
            phase: Phase::Head(Head::Unread),
        }
    }

    /// How long a line that says what is told next is.
    pub fn next_size(&self) -> usize {
        match &self.phase {
            Phase::Inside(body) => body.next_size(),
            _ => 0,
        }
    }

    /// Takes a line that says what is told next, whose text is known but for its digits. Else
    /// nothing changes.
    pub fn take_next(&mut self, line: &[u8]) -> bool
        ensures { TakesNext line.now self.old self.new result }
    {
        match &mut self.phase {
            Phase::Inside(body) => body.take_next(line),
            _ => false,
        }
    }

    /// Takes what a line says.
    fn take_said(&mut self, said: CertificateLine<'_>) -> Result<Option<Verdict>, TakeError<()>>
        ensures { Takes (step_by self.old (item_seen said.entry)) self.new result }
    {
        match &mut self.phase {
            Phase::Inside(body) => take_inside(body, said),
            Phase::Head(head) => {
                let head = mem::replace(head, Head::Unread);
                self.phase = behind_head(self.alloc, head, said)?;
                Ok(None)
            }
        }
    }
}

impl LineReader for CheckLines {
    type Value = Verdict;

    type Rule = ();

    ghost use Rattle.run_checker.specs.Checking.{line_step};

    ghost step = { line_step };

    fn take(&mut self, line: &[u8]) -> Result<Option<Verdict>, TakeError<()>> {
        match read_said(line) {
            Some(said) => self.take_said(said),
            None => Err(TakeError::Refused(())),
        }
    }
}
