//! How far the data of the writes is sent: beat by beat, in the order in which they are issued.

ghost use Rattle.std.specs.Prelude.{◌≡◌, ◌<◌, ◌^◌, IfSome, length};
ghost use Rattle.manager_node.specs.ManagerInside.{IsWithin, sent_after};
ghost use Rattle.manager_node.specs.Placed.{placed};

use crate::script::Script;
use burst_address::beat_count;

/// The data place: of how many writes all data is sent, and how many beats of the next one.
#[derive(Drop)]
pub(crate) struct Sending {
    pub(crate) writes: usize,
    pub(crate) beats: u32,
    // How many bytes these beats have.
    pub(crate) bytes: usize,
}

impl Sending {
    /// Goes on by one data beat of the write at `place`; not at all where there is none.
    pub(crate) fn step(&mut self, script: &Script, place: Option<u32>)
        requires small { self.old.writes < 2 ^ 32 }
        requires place { IfSome place (λ p. p < length script.now) }
        requires within { IfSome (placed script.now place) (λ next. IsWithin self.old next.1) }
        ensures { self.new ≡ sent_after (placed script.now place) self.old }
    {
        let Some(place) = place else {
            return;
        };
        let request = script.request(place);
        if self.beats == u32::from(request.len) {
            self.writes += 1;
            self.beats = 0;
            self.bytes = 0;
        } else {
            self.bytes += beat_count(request, self.beats);
            self.beats += 1;
        }
    }
}
