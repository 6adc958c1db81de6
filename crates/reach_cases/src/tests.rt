// A module for each kind of case.
mod bound;
mod plain;
mod support;
