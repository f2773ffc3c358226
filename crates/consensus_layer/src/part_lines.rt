//! What the parts that say layers have in common.

ghost use Rattle.std.specs.Prelude.{◌≡◌, ◌≤◌, nat_lt, IfOk};
ghost use Rattle.std.specs.List.{list_all};
ghost use Rattle.consensus_layer.specs.PartLines.{head_tested, number_within};

use edge_io::numbers_after;
use sync_types::Rule;

/// Sees that a line is the first one of a part, and that the modulus fits the layer, which `fits`
/// says.
pub fn head_tested(head: &[u8], fits: bool, line: &[u8]) -> Result<(), Rule>
    ensures { result ≡ head_tested head.now fits line.now }
{
    if line != head {
        return Err(Rule::Form);
    }
    if !fits {
        return Err(Rule::Slot);
    }
    Ok(())
}

/// The number of a line that is a key and one number, from the least to the most.
pub fn number_within(key: &[u8], least: u64, most: u64, line: &[u8]) -> Result<u64, Rule>
    ensures exact { result ≡ number_within key.now least most line.now }
    ensures few { IfOk result (λ n. n ≤ most) }
{
    let Some(numbers) = numbers_after::<1>(line, key) else {
        return Err(Rule::Form);
    };
    let number = numbers[0];
    if number > most {
        return Err(Rule::Limit);
    }
    if number < least {
        return Err(Rule::Range);
    }
    Ok(number)
}

/// Whether each number is below a limit.
pub fn are_below(limit: u64, numbers: &[u64]) -> bool
    ensures { result ≡ list_all (λ a. nat_lt a limit) numbers.now }
{
    numbers.iter().all(|number| *number < limit)
}
