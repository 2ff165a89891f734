//! `Link`, seen in clauses as its five lists of beats, oldest first, and its depth.

ghost use Rattle.std.specs.Prelude.{◌≡◌, ◌<◌, ◌≤◌, ◌++◌, length, slice_get, nat_lt, IfOk};
ghost use Rattle.std.specs.Option.{option_copied};
ghost use Rattle.axi_link.specs.LinkView.{LinkView, empty_link};
ghost use Rattle.axi_link.specs.Moves.{CanMove, link_after, left_of, appended, CanAdvance};

use crate::out::Out;
use axi_beats::{Addr, BBeat, NoMemory, RBeat, WBeat};
use circular_buffer::HeapCircularBuffer;
use std::alloc::Global;
use std::marker::{Model, Send, Sync};

/// Five queues of at most `depth` beats each. All their memory is taken when the link is made.
#[derive(Drop)]
pub struct Link {
    aw: HeapCircularBuffer<Addr>,
    w: HeapCircularBuffer<WBeat>,
    b: HeapCircularBuffer<BBeat>,
    ar: HeapCircularBuffer<Addr>,
    r: HeapCircularBuffer<RBeat>,
    depth: u8,
}

impl Model for Link {
    ghost use Rattle.axi_link.specs.LinkView.{LinkView};

    ghost Value = { LinkView };

    ghost use Rattle.axi_link.specs.LinkInside.{link_view, IsLink};

    ghost view = { link_view };

    ghost invariant = { IsLink };
}

impl Link {
    /// Five empty queues of `depth` beats each, 1 to 16.
    ///
    /// # Errors
    ///
    /// `NoMemory` where there is no memory for the queues.
    pub fn new(alloc: Global, depth: u8) -> Result<Link, NoMemory>
        requires least { 0 < depth }
        requires most { depth ≤ 16 }
        ensures { IfOk result (λ link. link ≡ empty_link depth) }
    {
        let capacity = usize::from(depth);
        Ok(Link {
            aw: HeapCircularBuffer::with_capacity(alloc, capacity)?,
            w: HeapCircularBuffer::with_capacity(alloc, capacity)?,
            b: HeapCircularBuffer::with_capacity(alloc, capacity)?,
            ar: HeapCircularBuffer::with_capacity(alloc, capacity)?,
            r: HeapCircularBuffer::with_capacity(alloc, capacity)?,
            depth,
        })
    }

    /// The oldest write address; None exactly where there is none.
    pub fn head_aw(&self) -> Option<&Addr>
        ensures { option_copied result ≡ slice_get self.now.aw 0 }
    {
        self.aw.front()
    }

    /// The oldest write data beat; None exactly where there is none.
    pub fn head_w(&self) -> Option<&WBeat>
        ensures { option_copied result ≡ slice_get self.now.w 0 }
    {
        self.w.front()
    }

    /// The oldest write response; None exactly where there is none.
    pub fn head_b(&self) -> Option<&BBeat>
        ensures { option_copied result ≡ slice_get self.now.b 0 }
    {
        self.b.front()
    }

    /// The oldest read address; None exactly where there is none.
    pub fn head_ar(&self) -> Option<&Addr>
        ensures { option_copied result ≡ slice_get self.now.ar 0 }
    {
        self.ar.front()
    }

    /// The oldest read data beat; None exactly where there is none.
    pub fn head_r(&self) -> Option<&RBeat>
        ensures { option_copied result ≡ slice_get self.now.r 0 }
    {
        self.r.front()
    }

    /// Whether there is room for a write address: fewer than `depth` wait.
    pub fn room_aw(&self) -> bool
        ensures { result ≡ nat_lt (length self.now.aw) self.now.depth }
    {
        self.aw.len() < usize::from(self.depth)
    }

    /// Whether there is room for a write data beat: fewer than `depth` wait.
    pub fn room_w(&self) -> bool
        ensures { result ≡ nat_lt (length self.now.w) self.now.depth }
    {
        self.w.len() < usize::from(self.depth)
    }

    /// Whether there is room for a write response: fewer than `depth` wait.
    pub fn room_b(&self) -> bool
        ensures { result ≡ nat_lt (length self.now.b) self.now.depth }
    {
        self.b.len() < usize::from(self.depth)
    }

    /// Whether there is room for a read address: fewer than `depth` wait.
    pub fn room_ar(&self) -> bool
        ensures { result ≡ nat_lt (length self.now.ar) self.now.depth }
    {
        self.ar.len() < usize::from(self.depth)
    }

    /// Whether there is room for a read data beat: fewer than `depth` wait.
    pub fn room_r(&self) -> bool
        ensures { result ≡ nat_lt (length self.now.r) self.now.depth }
    {
        self.r.len() < usize::from(self.depth)
    }

    /// Makes the moves of a round on this link, whose number is `number`: drops each head that its
    /// receiver takes from it and appends each beat that its giver puts there. `upper` is what the
    /// node above does, `lower` what the node below does. Each take needs a head, and each put
    /// room at the round's start: a head that leaves makes room from the next round on.
    pub fn commit(&mut self, number: u32, upper: &Out, lower: &Out)
        requires { CanMove number self.old upper.now lower.now }
        ensures { self.new ≡ link_after number self.old upper.now lower.now }
    {
        advance(&mut self.aw, number, &lower.aw_take, &upper.aw_put);
        advance(&mut self.w, number, &lower.w_take, &upper.w_put);
        advance(&mut self.b, number, &upper.b_take, &lower.b_put);
        advance(&mut self.ar, number, &lower.ar_take, &upper.ar_put);
        advance(&mut self.r, number, &upper.r_take, &lower.r_put);
    }
}

/// Drops the head of a queue where it is taken from this link, and appends the beat that is put
/// there.
fn advance<T: Copy>(
    queue: &mut HeapCircularBuffer<T>,
    number: u32,
    take: &Option<u32>,
    put: &Option<(u32, T)>,
)
    requires { CanAdvance number queue.old.capacity queue.old.items take.now put.now }
    ensures items { queue.new.items ≡ left_of number take.now queue.old.items ++ appended number put.now }
    ensures capacity { queue.new.capacity ≡ queue.old.capacity }
{
    if *take == Some(number) {
        queue.pop_front();
    }
    if let Some((link, beat)) = put {
        if *link == number {
            let _ = queue.try_push_back(*beat);
        }
    }
}

// A call of this is refused where the type may not go to another thread.
fn crosses<T: Send + Sync>(_value: &T) {}

/// A link may be sent to another thread, and lent to one.
pub fn crosses_threads(link: &Link) {
    crosses(link);
}
