// Why a bench turns a call down, and by which number. Each enum has its own call for that: a cast is of one enum.
ghost use Rattle.std.specs.Prelude.{◌≡◌};
ghost use Rattle.playing.specs.Faults.{write_fault_number, step_fault_number};

#[derive(Clone, Copy, Debug, PartialEq, Eq)]
pub enum WriteFault {
    // a variable, a name that there is not, a place that is not written, or a key that is no name
    Unlawful = 30,
    // every place is written
    Full = 31,
}

impl WriteFault {
    pub fn number(self) -> u16
        ensures { result ≡ write_fault_number self }
    {
        self as u16
    }
}

#[derive(Clone, Copy, Debug, PartialEq, Eq)]
pub enum StepFault {
    NoStrand = 32,
    // no step is left
    Finished = 33,
    // a feed where the next step is no input, or a move where it is one
    WrongCall = 34,
    NotWritten = 35,
    NotDerivable = 36,
    // the next step cannot be taken
    Stuck = 37,
}

impl StepFault {
    pub fn number(self) -> u16
        ensures { result ≡ step_fault_number self }
    {
        self as u16
    }
}
