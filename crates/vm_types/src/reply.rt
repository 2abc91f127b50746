//! What a reply says of its call.
use crate::call::Reply;

impl Reply {
    ghost use Rattle.std.specs.Prelude.{◌≡◌};
    ghost use Rattle.vm_types.specs.Replies.{is_io};

    /// Whether the reply says that a transfer failed.
    pub fn is_io(&self) -> bool
        ensures { result ≡ is_io self.now }
    {
        match *self {
            Reply::Io { .. } => true,
            Reply::Done
            | Reply::Word(_)
            | Reply::Mapped(_)
            | Reply::Bytes(_)
            | Reply::Synced(_)
            | Reply::Signal(_)
            | Reply::Refused(_) => false,
        }
    }
}
