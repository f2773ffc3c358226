//! Cases: inputs, and what is to be answered to them.

use crate::calling::Program;
use crate::drawn_parts::Kind;
use crate::drawn_plans::AnyPlan;
use crate::drawn_scripts::Length;
use crate::draws::Draws;
use reference::constructions::{Construction, Shape};
use reference::runs::Played;
use reference::script_texts::write_script;
use reference::texts::Text;
use reference::writing::answer;
use std::alloc::AllocError;

/// A word of a program, an input, the bytes that are to be answered, and the exit code.
pub struct Case {
    pub program: Program,
    pub word: &'static str,
    pub input: Vec<u8>,
    pub wanted: Vec<u8>,
    pub code: u8,
}

// Written out, so that code that drops one has a single call.
impl Drop for Case {
    fn drop(self) {
        let Case {
            program: _,
            word: _,
            input,
            wanted,
            code: _,
        } = self;
        drop(input);
        drop(wanted);
    }
}

/// For about how many rounds eras go on after the bound whose lines are to be of some slots.
fn behind_of<C: Construction>(plan: &C, kind: Kind, behind: u64) -> u64 {
    let numbers = plan.numbers();
    match kind {
        Kind::Rows | Kind::Slots => behind,
        Kind::Agreement | Kind::Firing | Kind::Log => numbers.entry().wrapping_mul(4),
    }
}

/// What a word answers that plays a script with eras of a length, which is drawn, over a plan of a
/// program.
fn played<C: Construction>(
    draws: &mut Draws,
    program: Program,
    plan: &C,
    kind: Kind,
    length: Length,
) -> Result<Case, AllocError> {
    let part = draws.part(kind, &plan.numbers())?;
    let shape = Shape::of(draws.alloc, plan, part.layer())?;
    let behind = behind_of(plan, kind, length.behind);
    let script = draws.script(&shape, Length { behind, ..length })?;
    let mut input = String::new(draws.alloc);
    let mut out = Text::behind(&mut input);
    plan.write(&mut out);
    part.write(&mut out);
    write_script(&mut out, &script);
    out.end()?;
    let played = Played {
        plan,
        shape: &shape,
        script: &script,
        part: &part,
    };
    Ok(Case {
        program,
        word: kind.word(),
        input: input.into_bytes(),
        wanted: answer(draws.alloc, &played)?.into_bytes(),
        code: 0,
    })
}

/// What a word answers that plays a drawn script with eras of a length over a plan.
pub fn played_on(
    draws: &mut Draws,
    plan: &AnyPlan,
    kind: Kind,
    length: Length,
) -> Result<Case, AllocError> {
    match plan {
        AnyPlan::Boosting(plan) => played(draws, Program::Counterlab, plan, kind, length),
        AnyPlan::Halving(plan) => {
            let mut plan = *plan;
            let unit = kind.unit(&plan.numbers());
            if unit > 1 {
                plan.modulus = unit.wrapping_mul(draws.between(1, 4));
            }
            played(draws, Program::Halvinglab, &plan, kind, length)
        }
    }
}
