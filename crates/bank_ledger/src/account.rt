//! The accounts of a bank.
ghost use Rattle.std.specs.Prelude.{◌≡◌};
ghost use Rattle.bank_ledger.specs.Operations.{checking, savings};

use std::marker::Model;
use zeus_base::ObjId;

/// An account, by its number from 0; below 128.
#[derive(Clone, Copy, Debug, Default, PartialEq, Eq, PartialOrd, Ord)]
pub struct AccountId(pub u8);

impl Model for AccountId {
    ghost use Rattle.std.specs.Prelude.{ℕ, ◌<◌};

    ghost Value = { ℕ };

    ghost view = { λ a. a.0 };

    ghost invariant = { λ a. a.0 < 128 };

    ghost inverse = { λ n. record { 0 = n } };
}

impl AccountId {
    /// The object that has what the account has in checking.
    pub fn checking(self) -> ObjId
        ensures { result ≡ checking self }
    {
        ObjId(2 * u16::from(self.0))
    }

    /// The object that has what the account has in savings.
    pub fn savings(self) -> ObjId
        ensures { result ≡ savings self }
    {
        ObjId(2 * u16::from(self.0) + 1)
    }
}
