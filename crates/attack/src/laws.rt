//! The law of what is written. The function does nothing: its clause is the law.

ghost use Rattle.attack.specs.ReadBack.{WrittenIsRead};

use halving_texts::halving_texts_read_back;
use plan_reader::plan_texts_read_back;

/// The text of an accepted plan, with a text after it that is read as a script for the plan's
/// machine, is read as this plan and this script.
pub fn written_is_read()
    ensures { WrittenIsRead }
{
    plan_texts_read_back();
    halving_texts_read_back();
}
