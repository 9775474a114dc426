// The text of certificates: reading it, and writing it.
//
// Line 1 is the heading `verdict blocks clauses`. Line 2 has the verdict, `true` or `false`, and how many blocks and
// clauses the formula has. Line 3 is the heading `level set reply`, and each further line is an entry: its level; its
// clauses, ascending and joined by commas, or `-` for none; and its reply, a binary digit for each variable of the level's
// block, or `-` where no reply is owed. Lines, fields and numbers are those of a formula's text.
#![tactic(auto)]

mod bits;
mod entry_line;
mod entry_text;
mod heading;
pub mod listing;
pub mod read;
mod reply_field;
mod set_field;
pub mod write;
mod writer;
