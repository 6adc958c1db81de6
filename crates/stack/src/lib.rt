// Waiting items over lent memory, for every kind of record: the latest comes first.
#![tactic(auto)]

ghost use Rattle.std.specs.Prelude.{◌≡◌, ◌≤◌, [], length};

// The memory is lent, by a rule of the project, so the number of waiting items stands beside it.
#[derive(Drop)]
pub struct Stack<'a, T> {
    items: &'a mut [T],
    len: usize,
    ghost within: { len ≤ length items.now },
}

// why an item is not taken, with the number of the refusal
#[derive(Clone, Copy, Debug, PartialEq, Eq)]
pub enum StackFault {
    // the waiting items fill the memory
    Full = 70,
}

impl StackFault {
    ghost use Rattle.stack.specs.Waiting.{fault_number};

    // The number of the refusal. Each enum of faults has its own such call: a cast is of one enum.
    pub fn number(self) -> u16
        ensures { result ≡ fault_number self }
    {
        self as u16
    }
}

impl<'a, T: Copy> Stack<'a, T> {
    ghost use Rattle.stack.specs.Waiting.{waiting, room, Pushed, Popped};

    // A stack on which nothing waits, in this memory.
    pub fn new(items: &'a mut [T]) -> Stack<'a, T>
        ensures empty { waiting result ≡ [] }
        ensures size { room result ≡ length items.old }
    {
        Stack { items, len: 0 }
    }

    // The items that wait, the latest last.
    fn as_slice(&self) -> &[T]
        ensures { result.now ≡ waiting self.now }
    {
        &self.items[..self.len]
    }

    // How many items wait.
    pub fn len(&self) -> usize
        ensures { result ≡ length (waiting self.now) }
    {
        self.as_slice().len()
    }

    // One item more; refused exactly where the waiting items fill the memory.
    pub fn push(&mut self, x: T) -> Result<(), StackFault>
        ensures size { room self.new ≡ room self.old }
        ensures items { Pushed (waiting self.old) (room self.old) x result (waiting self.new) }
    {
        if self.len >= self.items.len() {
            return Err(StackFault::Full);
        }
        self.items[self.len] = x;
        self.len += 1;
        Ok(())
    }

    // The latest item, which waits no more.
    pub fn pop(&mut self) -> Option<T>
        ensures size { room self.new ≡ room self.old }
        ensures items { Popped (waiting self.old) result (waiting self.new) }
    {
        self.len = self.len.checked_sub(1)?;
        Some(self.items[self.len])
    }
}
