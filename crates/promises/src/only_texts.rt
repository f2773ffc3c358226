//! That inputs with a part between plan and script have texts. The function does nothing: its
//! clause is the law.

ghost use Rattle.promises.specs.OnlyTexts.{OnlyTextsAreRead};

use crate::plan_promises::texts_are_read;
use adversary_script::laws::read_scripts_have_texts;

/// There are no other inputs of a plan, a part and a script than the texts of such: what any input
/// is read as, the text of that is read as.
pub fn only_texts_are_read()
    ensures { OnlyTextsAreRead }
{
    texts_are_read();
    read_scripts_have_texts();
}
