// The record reader: a place in lent bytes. That it has one is a rule of the project; the bytes that are left would do.
ghost use Rattle.std.specs.Prelude.{◌≡◌, ◌≤◌, length};

mod reading;

pub use reading::scan;

#[derive(Drop)]
pub struct Records<'a> {
    bytes: &'a [u8],
    at: usize,
    count: usize,
    ghost within: { at ≤ length bytes.now },
    ghost counted: { count ≤ at },
}

impl Records<'_> {
    ghost use Rattle.records.specs.Reading.{handed_out};

    // How many records have been handed out.
    pub fn count(&self) -> usize
        ensures { result ≡ handed_out self.now }
    {
        self.count
    }
}
