//! What a part is.
ghost use Rattle.std.specs.Prelude.{◌≡◌, List};
ghost use Rattle.std.specs.Str.{bytes_eq};
ghost use Rattle.bench_parts.specs.Behave.{Answers};
ghost use Rattle.bench_parts.specs.declared.event.PartEvent.{PartEvent};
ghost use Rattle.bench_parts.specs.declared.event.PartReply.{PartReply};

use crate::event::{PartEvent, PartReply};
use chip_base::Name;

/// A part that a stream link is fitted with. It is called once for each word that the link passes, in their order, and replies at
/// once. It is never told of a reset of the chip, and goes on from where it stands.
///
/// Whoever writes a part says in `behave` what it replies, from its present state on, to each list of events that may come: one reply
/// for each event, none of which depends on what comes after its event. A plain function of the event is a `map` over the list; what a
/// part remembers is an argument of that function. The proof of `on` is that one call makes the first of these replies and leaves the
/// others. A whole run of the chip then speaks of `behave` alone, at the part as it is handed in.
pub trait Part: Drop {
    /// The replies to each list of events, in their order.
    ghost behave: { Self → List PartEvent → List PartReply };

    /// Replies to one event. It takes no memory.
    fn on(&mut self, ev: PartEvent) -> PartReply
        ensures { Answers behave self.old self.new ev result };
}

/// A part with the name by which the command line asks for it.
#[derive(Drop)]
pub struct NamedPart {
    pub name: Name,
    pub part: Box<dyn Part + Send>,
}

impl NamedPart {
    /// The part has this name.
    pub fn is_named(&self, name: &str) -> bool
        ensures { result ≡ bytes_eq self.now.name name.now }
    {
        self.name.as_slice() == name.as_bytes()
    }
}
