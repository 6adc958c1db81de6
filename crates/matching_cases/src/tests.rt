// A module for each kind of case.
mod large;
mod small;
mod support;
mod tables;
mod trials;
