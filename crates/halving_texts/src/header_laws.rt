//! The law of header texts. The function is empty: its clause is the law.

ghost use Rattle.halving_texts.specs.HeaderTexts.{HalvingHeaderTextIsRead};

/// There is a header for each accepted plan, each node of it and each state of that node: its text
/// is read as that header, at the beginning of any text.
pub fn header_texts_read_back()
    ensures { HalvingHeaderTextIsRead }
{}
