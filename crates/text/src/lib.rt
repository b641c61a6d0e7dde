// The command text: its lines, the command of each, and the lines of the answers.
//
// Document 01, "The command program". specs/ says what the lines of a text are, how a command is written and how it is read, and what is printed for an
// input (`Answers.lift`); proofs/ShownCommands.antt shows that the commands read are exactly the lines of the four forms. `reader::line_at` reads the
// line at a place, `answer::answer_line` answers it over the lent memory, and `program::run` answers a whole input: its output is `lift` of it, and
// proofs/RuledOutput.antt shows (`lift-ruled`) that this is what the rules say, with document 01's listing.
#![tactic(auto)]

pub mod decimal; // decimal.rt: a plain decimal at a place of a text
pub mod lines; // lines.rt: where a line ends
pub mod command; // command.rt: what a line asks for
pub mod reader; // reader.rt: the text and a place in it, held together
pub mod writing; // writing.rt: bytes, decimals and lines put into a text
pub mod printing; // printing.rt: the line of each answer
pub mod answer; // answer.rt: one line answered over the lent memory
pub mod program; // program.rt: an input's whole output
