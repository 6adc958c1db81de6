// A module for each subject, and the script that those of the notebooks are written in.
mod agreement;
mod derivable;
mod keys;
mod limits;
mod lists;
mod script;
mod shared;
mod tables;
