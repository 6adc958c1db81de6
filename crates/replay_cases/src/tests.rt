// A module for each subject, and what all of them read files by.
mod cut;
mod faults;
mod kinds;
mod limits;
mod support;
