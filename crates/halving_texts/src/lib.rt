//! The texts of a halving plan: its part of an input, its table, and the header of one of its nodes.
//!
//! A halving part is the line `halving 1`, the line `group N F C` with how many nodes there are, how
//! many may be faulty, and the modulus that they count by, and the line `end`. Empty lines and
//! lines that begin with `#` are skipped. It is read at the beginning of an input, as the whole of
//! an input, or line by line, as from a feed; and it is written. The first line that fails is
//! refused, with the first premise that it fails. No memory is taken.
//!
//! A table has the plan's numbers, and those of each of its groups and nodes: the lines
//! `table halving 1`, `plan nodes N faults F modulus C`, and `bound T levels L bits W bytes Y`,
//! where W and Y are those of the node whose states take most. Then comes for each group, a group
//! before its halves and the left half before the right one, the line `group V nodes N faults F
//! modulus C share K left A right B kings G H spares S`: its first node, its numbers, the right
//! half's share of the left half's period, how many instructions the kings of the left and of the
//! right half have, how many kings these are, and how many of its nodes are in no half; or, for a
//! node alone, `group V nodes 1 faults 0 modulus C`. Then comes for each node the line `node V bytes
//! B output I W`: how many bytes its states have, from which of their bits on its output stands, and
//! in how many. The last line is `end`, and each ends with a newline. A table is read back, and
//! refused at its first line that is not as it has to be.
//!
//! A header is a halving part, and then the part of a node with its id and state. [`HalvingNodes`] are
//! the nodes that read a header and packets; [`node_laws`] has what calls of them promise if they
//! are given one another's cells.
#![tactic(auto)]

mod buffers;
mod differences;
pub mod header_laws;
mod laws;
pub mod node_laws;
mod node_refusals;
mod nodes;
mod premises;
mod readers;
mod reading;
mod refusals;
mod shapes;
mod stages;
mod table_laws;
mod table_reading;
mod table_writing;
mod taking;
mod writing;

pub use laws::{accepted_texts_are_rewritten, halving_texts_read_back};
pub use node_refusals::put_refusal;
pub use nodes::HalvingNodes;
pub use premises::LinePremise;
pub use readers::{HalvingHeader, read_halving_header};
pub use reading::{read_halving, read_whole_halving};
pub use refusals::{HalvingError, HalvingRefusal};
pub use shapes::shape_of;
pub use stages::HalvingLines;
pub use table_laws::tables_read_back;
pub use table_reading::{TableError, read_table};
pub use table_writing::write_table;
pub use writing::write_halving;
