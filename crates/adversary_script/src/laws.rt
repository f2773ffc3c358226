//! The laws of scripts. Each function is empty: its clauses are the laws.

ghost use Rattle.adversary_script.specs.LieLaws.{FittedIsSame, CopyIsSame};
ghost use Rattle.adversary_script.specs.ScriptLaws.{ScriptTextIsRead, ScriptTextIsWhole};
ghost use Rattle.adversary_script.specs.ScriptLaws.{ReadIsWritable};

/// The text of each script that a text can say is read as this script, at the beginning of any
/// text, and alone.
pub fn script_texts_read_back()
    ensures front { ScriptTextIsRead }
    ensures whole { ScriptTextIsWhole }
{}

/// A text can say every script that is read. So what is read of any text is read of its own text
/// too.
pub fn read_scripts_have_texts()
    ensures { ReadIsWritable }
{}

/// A lie that copies a node with the sender's fields says the state of that node, since a state in
/// range of the sender's fields is left as it is.
pub fn copies_are_said()
    ensures fitted { FittedIsSame }
    ensures copied { CopyIsSame }
{}
