// What all cases are written with, and a module for each subject.
mod messages;
mod order;
mod shapes;
mod support;
