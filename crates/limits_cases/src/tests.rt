// A module for each kind of case.
mod keys;
mod known;
mod large;
mod support;
