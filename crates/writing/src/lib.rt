// The finished sheet as text: the lines E, P, G and T, each written into the unwritten rest of the output. Not by Display: `write!` may
// fail, and promises its text only where it does not, while these cannot fail; marking's lines are written in the same way. Each writes at
// the front of what it is lent and answers how much: a struct of the output and how far it is written would be lent in place of one slice,
// and each contract would have to say that what stands before is as it was.
#![tactic(auto)]

pub mod each; // each.rt: texts by number, one after the other
pub mod blocks; // blocks.rt: the lines of each letter, one after the other
pub mod fields; // fields.rt: a number behind its comma
pub mod finished; // finished.rt: the whole sheet
pub mod lines; // lines.rt: one line
pub mod words; // words.rt: a word as it stands
