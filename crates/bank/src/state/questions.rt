ghost use Rattle.std.specs.Prelude.{◌≡◌};
ghost use Rattle.vectors.specs.Sets.{members};
ghost use Rattle.bank.specs.Rules.{view};

use super::Bank;
use vectors::VectorSet;

impl Bank {
    pub fn tpr(&self) -> u8
        ensures { result ≡ (view self.now).tpr }
    {
        self.tpr
    }

    pub fn requests(&self) -> VectorSet
        ensures { members result ≡ (view self.now).requests }
    {
        self.requests
    }

    pub fn in_service(&self) -> VectorSet
        ensures { members result ≡ (view self.now).service }
    {
        self.service
    }
}
