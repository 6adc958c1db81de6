// The cases of the reader: a module for each number of a refusal, and some for the whole.
mod base;
mod cut;
mod first;
mod kept;
mod limits;
mod nodes;
mod order;
mod properties;
mod steps;
mod support;
mod texts;
mod unended;
mod variables;
mod whole;
mod written;
