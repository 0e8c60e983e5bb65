ghost use Rattle.std.specs.Prelude.{◌≡◌, ◌+◌, ◌^◌, ◌<◌, ◌≤◌};
ghost use Rattle.credits.specs.Shares.{affords as pays, share_after};
ghost use Rattle.credits.specs.declared.shares.Role.TheVariants.{Served};

/// What a client reserved and what it has saved, in parts of a slot of which the denominator makes one:
/// its step in a slot, its cap while it is idle, and its credit. That credit and step fit together is asked by the
/// two calls and is no field of it: all clients' caps bound a credit, so that a share alone could not keep it.
#[derive(Clone, Copy, PartialEq, Eq, Default, Debug)]
pub struct Share {
    pub(crate) step: u32,
    pub(crate) cap: u32,
    pub(crate) credit: u32,
}

// What a client does in a slot: it is served and pays, or a block of it waits, or it is idle.
#[derive(Clone, Copy, PartialEq, Eq, Debug)]
pub(crate) enum Role {
    Served,
    Waiting,
    Idle,
}

impl Share {
    // Whether it pays for a unit.
    pub(crate) fn affords(self, denominator: u32) -> bool
        requires { self.credit + self.step < 2 ^ 32 }
        ensures { result ≡ pays denominator self }
    {
        self.credit + self.step >= denominator
    }

    // The share after a slot in which its client does this.
    pub(crate) fn after(self, denominator: u32, role: Role) -> Share
        requires small { self.credit + self.step < 2 ^ 32 }
        requires pays { role ≡ Served → denominator ≤ self.credit + self.step }
        ensures { result ≡ share_after denominator role self }
    {
        let earned = self.credit + self.step;
        let credit = match role {
            Role::Served => earned - denominator,
            Role::Waiting => earned,
            Role::Idle => earned.min(self.cap),
        };
        Share { credit, ..self }
    }
}
