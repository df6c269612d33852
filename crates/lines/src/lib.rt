// What the program prints and what it takes for the sentence: the line of an answer, and the text in the sentence's file.
#![tactic(auto)]

pub mod line;
pub mod text;
