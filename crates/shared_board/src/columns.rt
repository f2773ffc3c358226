ghost use Rattle.std.specs.Prelude.{◌≡◌, ◌<◌, ◌≤◌, ◌+◌, length, map, replicate};
ghost use Rattle.std.specs.Prelude.{unwrap_or, All, IfOk};
ghost use Rattle.sync_types.specs.declared.states.Reg.{Reg};
ghost use Rattle.sync_types.specs.States.{zero_register};
ghost use Rattle.shared_board.specs.Boards.{numbers_of, registers_of, outputs_of, AreFilled};

use state_codec::Packed;
use std::alloc::Global;
use sync_types::{NoMemory, Reg};

/// So many columns of zeros.
pub(crate) fn zero_outputs(
    alloc: Global,
    columns: usize,
    nodes: usize,
) -> Result<Vec<Vec<u64>>, NoMemory>
    ensures { IfOk result (λ cs. map (λ c. c.items) cs.items
        ≡ replicate columns (replicate nodes 0)) }
{
    let mut outputs = Vec::with_capacity(alloc, columns)?;
    for _ in 0..columns {
        let column = vec![in alloc; 0; nodes]?;
        outputs.push(column).unwrap();
    }
    Ok(outputs)
}

/// So many columns of zero registers.
pub(crate) fn zero_registers(
    alloc: Global,
    columns: usize,
    nodes: usize,
) -> Result<Vec<Vec<Reg>>, NoMemory>
    ensures { IfOk result (λ cs. map (λ c. c.items) cs.items
        ≡ replicate columns (replicate nodes zero_register)) }
{
    let zero = Reg {
        a: Some(0),
        d: false,
    };
    let mut registers = Vec::with_capacity(alloc, columns)?;
    for _ in 0..columns {
        let column = vec![in alloc; zero; nodes]?;
        registers.push(column).unwrap();
    }
    Ok(registers)
}

/// Puts the numbers of a configuration's states into a column.
fn fill_numbers(config: &Packed, numbers: &mut Vec<u64>)
    requires { length numbers.old.items ≡ length config.now.current }
    ensures { numbers.new.items ≡ numbers_of config.now.current }
{
    for v in 0..config.nodes() {
        numbers[v as usize] = config.x(v);
    }
}

/// Puts the registers of a level into a column, and what they show into another.
fn fill_level(config: &Packed, level: usize, registers: &mut Vec<Reg>, outputs: &mut Vec<u64>)
    requires level { level < config.now.shape.depth }
    requires registers { length registers.old.items ≡ length config.now.current }
    requires outputs { length outputs.old.items ≡ length config.now.current }
    ensures registers { registers.new.items ≡ registers_of level config.now.current }
    ensures outputs { outputs.new.items ≡ outputs_of level config.now.current }
{
    for v in 0..config.nodes() {
        let register = config.reg(v, level);
        registers[v as usize] = register;
        outputs[v as usize] = register.a.unwrap_or(0);
    }
}

/// Puts the numbers into the first column of outputs, and the registers of each level into its
/// column; what they show is in the next column of outputs.
pub(crate) fn fill(config: &Packed, registers: &mut Vec<Vec<Reg>>, outputs: &mut Vec<Vec<u64>>)
    requires deep { length registers.old.items ≤ config.now.shape.depth }
    requires many { length outputs.old.items ≡ length registers.old.items + 1 }
    requires registers { All (λ c. length c.items ≡ length config.now.current) registers.old.items }
    requires outputs { All (λ c. length c.items ≡ length config.now.current) outputs.old.items }
    ensures deep { length registers.new.items ≡ length registers.old.items }
    ensures many { length outputs.new.items ≡ length outputs.old.items }
    ensures filled { AreFilled config.now.current (map (λ c. c.items) registers.new.items)
        (map (λ c. c.items) outputs.new.items) (length registers.old.items) }
{
    fill_numbers(config, &mut outputs[0]);
    for l in 0..registers.len() {
        fill_level(config, l, &mut registers[l], &mut outputs[l + 1]);
    }
}
