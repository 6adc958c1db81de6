// Why a notebook turns a call down, and by which number. Each enum has its own call for that: a cast is of one enum.
ghost use Rattle.std.specs.Prelude.{◌≡◌};
ghost use Rattle.notebook.specs.Calls.{put_fault_number, note_fault_number};

#[derive(Clone, Copy, Debug, PartialEq, Eq)]
pub enum PutFault {
    // a variable, a name above its limit, or a reference to a place that is not held
    Unlawful = 60,
    // no more nodes
    Full = 61,
}

impl PutFault {
    pub fn number(self) -> u16
        ensures { result ≡ put_fault_number self }
    {
        self as u16
    }
}

#[derive(Clone, Copy, Debug, PartialEq, Eq)]
pub enum NoteFault {
    // a place that is not held
    NotHeld = 62,
    // no more notes
    Full = 63,
}

impl NoteFault {
    pub fn number(self) -> u16
        ensures { result ≡ note_fault_number self }
    {
        self as u16
    }
}
