ghost use Rattle.std.specs.Prelude.{◌≡◌};
ghost use Rattle.counterlab_c.specs.Codes.{premise_number, halving_premise_number, answer_of};
ghost use Rattle.counterlab_c.specs.Codes.{numbers_of};

use halving_plan::HalvingPremise;
use halving_texts::LinePremise;
use machines::Machine;
use node_calls::{AnyMachine, CallError};
use sync_types::Premise;

/// What a call answers. The codes are those by which the program `counterlab` ends for the like.
///
/// | code | when | detail | value |
/// |---|---|---|---|
/// | 0 | it was answered | 0 | the answer |
/// | 1 | the plan is refused | the premise, 1 to 8 | its line, from 1 |
/// | 3 | there is no such node | 1 | 0 |
/// | 3 | the state has another length | 2 | 0 |
/// | 8 | there are more than 1,000,000 packets | 0 | 0 |
/// | 9 | the bytes end inside a packet | the sender whose cell is cut | the packet, from 0 |
/// | 10 | memory was refused | 0 | 0 |
#[repr(C)]
#[derive(Clone, Copy, Debug, PartialEq, Eq)]
pub struct Answer {
    pub code: u32,
    pub detail: u32,
    pub value: u64,
}

/// The numbers of a plan.
#[repr(C)]
#[derive(Clone, Copy, Debug, PartialEq, Eq)]
pub struct PlanNumbers {
    /// How many nodes there are, from 1 to 256.
    pub nodes: u32,
    /// How many of them may be faulty.
    pub faults: u32,
    /// By what the outputs count.
    pub modulus: u64,
    /// After how many rounds they do so.
    pub bound: u64,
}

/// The numbers of a counter.
pub(crate) fn numbers_of(counter: &AnyMachine) -> PlanNumbers
    ensures { result ≡ numbers_of counter.now }
{
    PlanNumbers {
        nodes: counter.nodes(),
        faults: counter.faults(),
        modulus: counter.modulus(),
        bound: counter.bound(),
    }
}

/// The number of a premise, in the order in which they are tested.
fn premise_number(premise: Premise) -> u32
    ensures { result ≡ premise_number premise }
{
    match premise {
        Premise::Form => 1,
        Premise::Limit => 2,
        Premise::Blocks => 3,
        Premise::Modulus => 4,
        Premise::Quorum => 5,
        Premise::Share => 6,
        Premise::Multiple => 7,
    }
}

/// The number of a premise of a halving plan: the same for the same name.
fn halving_premise_number(premise: LinePremise) -> u32
    ensures { result ≡ halving_premise_number premise }
{
    match premise {
        LinePremise::Form => 1,
        LinePremise::Plan(HalvingPremise::Limit) => 2,
        LinePremise::Plan(HalvingPremise::Modulus) => 4,
        LinePremise::Plan(HalvingPremise::Quorum) => 5,
        LinePremise::Plan(HalvingPremise::Single) => 8,
    }
}

/// A number that is answered, or an error.
pub(crate) fn answer_of(outcome: Result<u64, CallError>) -> Answer
    ensures { result ≡ answer_of outcome }
{
    let (code, detail, value) = match outcome {
        Ok(number) => (0, 0, number),
        Err(CallError::Refused(refusal)) => (1, premise_number(refusal.premise), refusal.line),
        Err(CallError::HalvingRefused(refusal)) => {
            (1, halving_premise_number(refusal.premise), refusal.line)
        }
        Err(CallError::Node) => (3, 1, 0),
        Err(CallError::Length) => (3, 2, 0),
        Err(CallError::Cut { packet, sender }) => (9, sender, packet),
        Err(CallError::TooLong) => (8, 0, 0),
        Err(CallError::NoMemory) => (10, 0, 0),
    };
    Answer {
        code,
        detail,
        value,
    }
}
