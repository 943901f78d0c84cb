//! The role of a node in its group.
ghost use Rattle.std.specs.Prelude.{◌≡◌};
ghost use Rattle.group_log.specs.Roles.{leads, lost_ballot, new_ballot, role_after, role_ballot};

use paxos_msg::Ballot;

/// The role of a node in its group, under its own ballot.
#[derive(Clone, Copy, Debug, PartialEq, Eq)]
pub enum Role {
    /// It has no ballot.
    Follower,
    /// It asks for promises under this ballot.
    Candidate(Ballot),
    /// A majority has promised under this ballot.
    Leader(Ballot),
}

impl Role {
    /// Returns the ballot of a node in this role, if it has one.
    pub fn ballot(self) -> Option<Ballot>
        ensures { result ≡ role_ballot self }
    {
        match self {
            Role::Follower => None,
            Role::Candidate(ballot) | Role::Leader(ballot) => Some(ballot),
        }
    }

    /// Returns true if it leads under this ballot.
    fn leads(self, ballot: Ballot) -> bool
        ensures { result ≡ leads self ballot }
    {
        match self {
            Role::Leader(own) => own == ballot,
            Role::Follower | Role::Candidate(_) => false,
        }
    }

    /// Returns the role after this one, of a node with `ballot`. Without a ballot it is a follower.
    /// Otherwise it leads if `is_leading`, or if it led under this ballot: a leader is one until
    /// its ballot is lost. Else it is a candidate.
    ///
    /// `is_leading` is true if a majority has promised the place at which it proposes next. A
    /// leader at the end of what is promised so far is still one.
    pub fn next(self, ballot: Option<Ballot>, is_leading: bool) -> Role
        ensures { result ≡ role_after self ballot is_leading }
    {
        match ballot {
            None => Role::Follower,
            Some(ballot) => {
                if is_leading || self.leads(ballot) {
                    Role::Leader(ballot)
                } else {
                    Role::Candidate(ballot)
                }
            }
        }
    }

    /// Returns the ballot of this role, if `next` has another one or none.
    pub fn lost_ballot(self, next: Role) -> Option<Ballot>
        ensures { result ≡ lost_ballot self next }
    {
        if self.ballot() == next.ballot() {
            None
        } else {
            self.ballot()
        }
    }

    /// Returns the ballot of `next`, if this role has another one or none.
    pub fn new_ballot(self, next: Role) -> Option<Ballot>
        ensures { result ≡ new_ballot self next }
    {
        next.lost_ballot(self)
    }
}
