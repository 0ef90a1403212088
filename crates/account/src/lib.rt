// The account (document 01, "Account"): a small record handed in and handed back.
#![tactic(auto)]

ghost use Rattle.std.specs.Prelude.{◌≡◌};
ghost use Rattle.account.specs.Account.{new_account, fits, fits_of, charge_is, charge_of, wants_collection, after_sweep};

#[derive(Clone, Copy, Debug, PartialEq, Eq)]
pub struct Account {
    pub used: u64,
    pub since: u64,
    pub threshold: u64,
    pub limit: u64,
}

// Whether a charge would be accepted, with the account afterwards: asking changes nothing.
// Both are answered, as document 01 has it: it is no value or none.
#[derive(Clone, Copy, Debug, PartialEq, Eq)]
pub struct Answered {
    pub next: Account,
    pub fits: bool,
}

// A charge that would exceed the limit.
#[derive(Clone, Copy, Debug, PartialEq, Eq)]
pub struct OverBudget;

const LEAST_THRESHOLD: u64 = 262144;

impl Account {
    pub fn new(limit: u64) -> Account
        ensures { result ≡ new_account limit }
    {
        Account {
            used: 0,
            since: 0,
            threshold: LEAST_THRESHOLD,
            limit,
        }
    }

    #[tactic(auto, unfolding(crate::specs::Account::saturated, crate::specs::Account::fits))]
    pub fn allows(&self, bytes: u64) -> bool
        ensures { result ≡ fits self.now bytes }
    {
        self.used.saturating_add(bytes) <= self.limit
    }

    pub fn fits(self, bytes: u64) -> Answered
        ensures { result ≡ fits_of self bytes }
    {
        Answered {
            next: self,
            fits: self.allows(bytes),
        }
    }

    #[tactic(auto, unfolding(crate::specs::Account::saturated, crate::specs::Account::fits, crate::specs::Account::charged, crate::specs::Account::charge_of))]
    pub fn charge(self, bytes: u64) -> Result<Account, OverBudget>
        ensures { charge_is self result ≡ charge_of self bytes }
    {
        let used = self.used.saturating_add(bytes);
        if used <= self.limit {
            Ok(Account {
                used,
                since: self.since.saturating_add(bytes),
                ..self
            })
        } else {
            Err(OverBudget)
        }
    }

    #[tactic(auto, unfolding(crate::specs::Account::saturated, crate::specs::Account::wants_collection))]
    pub fn wants_gc(self, extra: u64) -> bool
        ensures { result ≡ wants_collection self extra }
    {
        self.threshold <= self.since
            || (self.used.saturating_add(extra) > self.limit && self.limit / 8 <= self.since)
    }

    #[tactic(auto, unfolding(crate::specs::Account::after_sweep))]
    pub fn after_sweep(self, kept: u64) -> Account
        ensures { result ≡ after_sweep self kept }
    {
        Account {
            used: kept,
            since: 0,
            threshold: kept.max(LEAST_THRESHOLD),
            limit: self.limit,
        }
    }
}
