//! What a call prints with its promise. The function does nothing: its clause is the law.

ghost use Rattle.promises.specs.Printed.{PromisesArePrinted};

use crate::certificate_laws::{check_is_exact, records_are_checked};
use crate::find_promises::least_is_found;
use crate::laws::{accepted_stabilise, promise_is_kept};
use crate::layer_promises::{decisions_are_kept, entries_are_kept, fires_are_kept, holds_are_kept};
use crate::plan_promises::texts_are_kept;

/// A call that ends well, over a source that tells its bytes, has read a value from them and
/// written the text of this value, of which the word's promise is kept.
pub fn promises_are_printed()
    ensures { PromisesArePrinted }
{
    accepted_stabilise();
    promise_is_kept();
    check_is_exact();
    records_are_checked();
    holds_are_kept();
    decisions_are_kept();
    fires_are_kept();
    entries_are_kept();
    least_is_found();
    texts_are_kept();
}
