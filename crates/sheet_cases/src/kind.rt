// The numbers that stand for kinds in a sheet file. No enum: some of the cases have kinds that there are not.

// kinds of nodes
pub const NAME: u16 = 1;

pub const VARIABLE: u16 = 2;

pub const PAIR: u16 = 3;

pub const SEAL: u16 = 4;

pub const ENV: u16 = 5;

// kinds of steps; the first two are also the directions of an action
pub const INPUT: u16 = 1;

pub const OUTPUT: u16 = 2;

pub const OPEN: u16 = 3;

pub const SPLIT: u16 = 4;

pub const SAME: u16 = 5;

// the direction where there is no earlier action
pub const NONE: u16 = 0;
