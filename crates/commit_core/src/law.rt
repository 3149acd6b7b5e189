//! What the images of all disks hold. These functions do nothing: each stands for its law.
ghost use Rattle.commit_core.specs.Holds.{HeldHistoryLaw, NamedHeldLaw};

/// At each moment of a commit or a settle the images of all disks hold the history, where the homes' disks hold its bodies.
pub fn held_history_law()
    ensures { HeldHistoryLaw }
{}

/// What the services' disks have of the bodies that entries name holds these entries, for any number of services.
pub fn named_held_law()
    ensures { NamedHeldLaw }
{}
