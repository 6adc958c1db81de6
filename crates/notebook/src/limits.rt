// What a notebook can hold. The words for these numbers that contracts cite are in specs/Limits.antt.
ghost use Rattle.notebook.specs.Limits.{LimitsAre};

pub const MOST_NODES: usize = 768;

pub const MOST_NOTES: usize = 128;

pub const LOCAL_NAMES: u16 = 64;

pub const ENV_NAMES: u16 = 256;

// The limits are these numbers and no others. It has no code: contracts name the limits by words that stand for the constants
// here, so the numbers themselves are promised once, by this.
pub fn limits_stand()
    ensures { LimitsAre }
{}
