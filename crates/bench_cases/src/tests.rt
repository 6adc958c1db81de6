// A module for each subject, the script that its cases are written in, and the sheets that more than one of them plays.
mod feeding;
mod files;
mod limits;
mod moving;
mod rows;
mod script;
mod sheets;
mod writing;
