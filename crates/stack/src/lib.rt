// A stack over slots that the caller lends. It stands for a list, its top first.
#![tactic(auto)]

ghost use Rattle.std.specs.Prelude.{◌≡◌, ◌≤◌, [], ◌∷◌, ◌++◌, reverse, length, if◌then◌else◌, nat_lt, is_ok};
ghost use Rattle.std.specs.Option.{option_to_list};

// No slot is left.
#[derive(Clone, Copy, Debug, PartialEq, Eq)]
pub struct Full;

// Fixed memory: the slots are lent and their count stands beside them, so that nothing is allocated.
#[derive(Drop)]
pub struct Stack<'a, T> {
    slots: &'a mut [T],
    len: usize,
    ghost within: { len ≤ length slots.now },
}

impl<'a, T: Copy> Stack<'a, T> {
    ghost use Rattle.stack.specs.Held.{held, room, top_of};

    // An empty stack, with room for as many items as there are slots.
    pub fn new(slots: &'a mut [T]) -> Stack<'a, T>
        ensures empty { held result ≡ [] }
        ensures room { room result ≡ length slots.old }
    {
        Stack { slots, len: 0 }
    }

    pub fn len(&self) -> usize
        ensures value { result ≡ length (held self.now) }
        ensures within { result ≤ room self.now }
    {
        self.items().len()
    }

    // Puts `x` on top, if there is room; a full stack stays as it is.
    pub fn push(&mut self, x: T) -> Result<(), Full>
        ensures test { is_ok result ≡ nat_lt (length (held self.old)) (room self.old) }
        ensures items { held self.new ≡ (if is_ok result then x ∷ held self.old else held self.old) }
        ensures room { room self.new ≡ room self.old }
    {
        if self.len == self.slots.len() {
            return Err(Full);
        }
        self.slots[self.len] = x;
        self.len += 1;
        Ok(())
    }

    // Takes the top off; an empty stack stays as it is.
    #[tactic(auto, using(crate::proofs::Taken::popped))]
    pub fn pop(&mut self) -> Option<T>
        ensures items { held self.old ≡ option_to_list result ++ held self.new }
        ensures top { result ≡ top_of (held self.old) }
        ensures room { room self.new ≡ room self.old }
    {
        let top = self.top()?;
        self.len -= 1;
        Some(top)
    }

    pub fn top(&self) -> Option<T>
        ensures { result ≡ top_of (held self.now) }
    {
        self.items().last().copied()
    }

    // What is held, the top last.
    pub fn items(&self) -> &[T]
        ensures { held self.now ≡ reverse result.now }
    {
        &self.slots[..self.len]
    }
}
