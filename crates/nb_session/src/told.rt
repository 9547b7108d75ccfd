// How much of a reply is said.
ghost use Rattle.std.specs.Prelude.{◌≡◌, Some};
ghost use Rattle.nb_session.specs.Told.{told_reply};

use nb_model::Reply;

/// How much is said of what sessions do.
#[derive(Clone, Copy, Debug, PartialEq, Eq)]
pub enum Told {
    /// Every reply.
    Whole,
    /// Every reply, and with that of a begin so many pages.
    WithPages { pages: u32 },
    /// Only refusals, and the pages by kind.
    Sparingly,
}

impl Told {
    /// What is said of a reply, if anything is.
    pub fn of(&self, reply: Reply) -> Option<Reply>
        ensures { result ≡ told_reply self.now (Some reply) }
    {
        match self {
            Told::Whole => Some(reply),
            Told::WithPages { pages } => match reply {
                Reply::Scn { scn } => Some(Reply::ScnPages { scn, pages: *pages }),
                other => Some(other),
            },
            Told::Sparingly => match reply {
                Reply::Refused { .. } | Reply::PagesShown { .. } => Some(reply),
                _ => None,
            },
        }
    }
}
