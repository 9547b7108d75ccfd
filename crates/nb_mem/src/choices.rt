ghost use Rattle.std.specs.Prelude.{◌≡◌};
ghost use Rattle.nb_mem.specs.Chosen.{begun, is_yes, behind};

/// Yes or no, again and again, by a number.
///
/// 0 says no and 1 says yes each time. Any other number says its bits, the lowest first, then no, and begins again.
#[derive(Clone, Copy, Drop)]
pub struct Choices {
    pub pick: u64,
    pub rest: u64,
}

impl Choices {
    pub fn new(pick: u64) -> Choices
        ensures { result ≡ begun pick }
    {
        Choices { pick, rest: pick }
    }

    #[tactic(auto, unfolding(crate::specs::Chosen::behind))]
    pub fn choose(&mut self) -> bool
        ensures yes { result ≡ is_yes self.old }
        ensures rest { self.new ≡ behind self.old }
    {
        if self.pick == 1 {
            return true;
        }
        let is_yes = self.rest % 2 == 1;
        self.rest = if self.rest == 0 {
            self.pick
        } else {
            self.rest / 2
        };
        is_yes
    }
}
