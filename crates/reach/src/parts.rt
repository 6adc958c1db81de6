// What taking apart has reached so far.
use crate::numbers::Numbers;
use terms::VarSet;

#[derive(Drop)]
pub struct Parts {
    // the nodes that are reached
    pub(crate) marks: Numbers,
    // the local names, the seals and the variables among them
    pub(crate) names: Numbers,
    pub(crate) seals: Numbers,
    pub(crate) variables: VarSet,
    // the variables whose value opens what it is the key of: that is told of each binding as marks are, so no key is walked
    pub(crate) opening: VarSet,
}
