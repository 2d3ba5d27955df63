// Lent work memory: what the searches use, and the repeaters after them.
ghost use Rattle.net_tree.specs.Held.{SameBuffers, MemoryCleared};

#[derive(Drop)]
pub struct Memory<'a> {
    pub kinds: &'a mut [u8],
    pub blocked: &'a mut [u8],
    pub classes: &'a mut [u8],
    pub joinable: &'a mut [u8],
    pub known: &'a mut [u32],
    pub previous: &'a mut [u32],
    pub path: &'a mut [u32],
    pub best: &'a mut [u32],
    pub queue: &'a mut [u64],
}

impl Memory<'_> {
    // All of it is cleared, to its very end.
    pub fn clear(&mut self)
        ensures same_buffers { SameBuffers self.old self.new }
        ensures cleared { MemoryCleared self.old self.new }
    {
        lent::clear(self.kinds);
        lent::clear(self.blocked);
        lent::clear(self.classes);
        lent::clear(self.joinable);
        lent::clear(self.known);
        lent::clear(self.previous);
        lent::clear(self.path);
        lent::clear(self.best);
        lent::clear(self.queue);
    }
}
