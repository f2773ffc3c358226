//! Reads how many registers of a layer stand after those of the plan, and of how many values.

ghost use Rattle.std.specs.Prelude.{◌≡◌, IfOk, IfSome};
ghost use Rattle.states.specs.Values.{
  values_said,
  with_one_more,
  is_of_values,
  no_layer,
  layer_behind,
  IsLayer,
};

use edge_io::{Lines, Words, is_skipped, numbers_after};
use thiserror::Error;

/// How many registers a layer has at most.
const MOST_REGISTERS: usize = 2;

/// How many values a register of a layer has at least.
const LEAST_VALUES: u64 = 2;

/// How many values a register of a layer has at most.
const MOST_VALUES: u64 = 65536;

/// The registers of a layer: how many, 0 to 2, and how many values each of them has, 2 to 65536.
#[derive(Clone, Copy, Debug, PartialEq, Eq)]
pub struct Layer {
    pub registers: usize,
    pub values: u64,
}

/// The line of this number begins with the word `values`, and says no register.
#[derive(Clone, Copy, Debug, PartialEq, Eq, Error)]
#[error("line {line} says no register of a layer")]
pub struct NotValues {
    pub line: u64,
}

/// Whether a line begins with the word `values`.
fn is_of_values(line: &[u8]) -> bool
    ensures { result ≡ is_of_values line.now }
{
    match Words::new(line).next() {
        Some(word) => word == b"values".as_slice(),
        None => false,
    }
}

/// How many values a line `values V` says, 2 to 65536. None comes exactly if it is no such line.
fn values_of(line: &[u8]) -> Option<u64>
    ensures { result ≡ values_said line.now }
{
    let numbers = numbers_after::<1>(line, b"values")?;
    let values = numbers[0];
    if values > MOST_VALUES || values < LEAST_VALUES {
        return None;
    }
    Some(values)
}

/// A layer with one register more, as a line says. None comes if there are two, if the line is not
/// `values V`, and if an earlier one says another V.
fn with_one_more(layer: Layer, line: &[u8]) -> Option<Layer>
    requires { IsLayer layer }
    ensures value { result ≡ with_one_more layer line.now }
    ensures range { IfSome result IsLayer }
{
    let values = values_of(line)?;
    if layer.registers == MOST_REGISTERS {
        return None;
    }
    if layer.registers > 0 && layer.values != values {
        return None;
    }
    Some(Layer {
        registers: layer.registers + 1,
        values,
    })
}

/// The layer that the lines `values V` at the beginning of these lines say. Each of them says a
/// register; skipped lines may stand among them. The error comes exactly if one of them says none,
/// and names the first such line.
pub fn read_layer(lines: Lines<'_>) -> Result<Layer, NotValues>
    ensures value { result ≡ layer_behind no_layer lines.entry }
    ensures range { IfOk result IsLayer }
{
    let mut layer = Layer {
        registers: 0,
        values: LEAST_VALUES,
    };
    for (number, line) in lines {
        if !is_skipped(line) {
            if !is_of_values(line) {
                return Ok(layer);
            }
            match with_one_more(layer, line) {
                Some(more) => layer = more,
                None => return Err(NotValues { line: number }),
            }
        }
    }
    Ok(layer)
}
