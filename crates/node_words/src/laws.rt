//! The laws of headers. The functions are empty: their clauses are the laws.

ghost use Rattle.node_words.specs.HeaderLaws.{HeadersAreOfPlans};
ghost use Rattle.node_words.specs.HeaderTexts.{HeaderTextIsRead};

/// A header that is read, of all lines or of those that are ended, has an accepted plan, the id of
/// a node of it, and a state of that node.
pub fn headers_are_of_plans()
    ensures { HeadersAreOfPlans }
{}

/// There is a header for each accepted plan, each node of it and each state of that node: its text
/// is read as that header, at the beginning of any text.
pub fn header_texts_read_back()
    ensures { HeaderTextIsRead }
{}
