ghost use Rattle.std.specs.Prelude.{◌≡◌, ℕ, ◌<◌, ◌≤◌, true, ◌&&◌, if◌then◌else◌, Some, Ok, Err, nat_lt};
ghost use Rattle.vectors.specs.declared.faults.Fault.TheVariants.{Unusable, NoGroup};
ghost use Rattle.vectors.specs.Sets.{class as class_of, usable as is_usable, usable_word};
ghost use Rattle.vectors.specs.Search.{classed, IsHighest};
ghost use Rattle.bank.specs.Rules.{view, empty as empty_bank, ppr as ppr_of, taken, after_take, ended, after_eoi, after_tpr, after_inject, after_join};
ghost use Rattle.bank.specs.Nesting.{Nested};
ghost use Rattle.bank.specs.Laws.{AboveService, TakesHighest, EoiUndoes};

use super::Bank;
use vectors::{Fault, UsableVector, VectorSet, usable_word};

impl Bank {
    pub fn empty() -> Bank
        ensures { view result ≡ empty_bank }
    {
        Bank {
            requests: VectorSet::empty(),
            service: VectorSet::empty(),
            tpr: 0,
        }
    }

    // The processor priority.
    pub fn ppr(&self) -> u8
        ensures value { result ≡ ppr_of (view self.now) }
        ensures above { (k : ℕ) → (view self.now).service k ≡ true → class_of k ≤ class_of result }
        ensures undone { (v : ℕ) → v < 256 → class_of result < class_of v → EoiUndoes (view self.now) (Some v) }
    {
        let class = self.service.highest().map_or(0, |(_, class)| class);
        if self.tpr / 16 >= class {
            self.tpr
        } else {
            class * 16
        }
    }

    pub fn set_tpr(&mut self, n: u8)
        ensures { view self.new ≡ after_tpr (view self.old) n }
    {
        self.tpr = n;
    }

    // The highest request, if it is deliverable.
    pub fn due(&self) -> Option<u8>
        ensures value { result ≡ taken (view self.now) }
        ensures above { AboveService (view self.now) }
        ensures highest { TakesHighest (view self.now) result }
        ensures undone { EoiUndoes (view self.now) result }
    {
        let ppr = self.ppr();
        let (v, class) = self.requests.highest()?;
        (class > ppr / 16).then_some(v)
    }

    pub fn take(&mut self) -> Option<u8>
        ensures value { result ≡ taken (view self.old) }
        ensures after { view self.new ≡ after_take (view self.old) result }
        ensures above { AboveService (view self.old) }
        ensures nested { Nested (view self.new).service }
        ensures highest { TakesHighest (view self.old) result }
        ensures undone { EoiUndoes (view self.old) result }
    {
        let v = self.due()?;
        self.requests.remove(v);
        self.service.insert(v);
        Some(v)
    }

    pub fn eoi(&mut self) -> Option<u8>
        ensures value { result ≡ ended (view self.old) }
        ensures after { view self.new ≡ after_eoi (view self.old) result }
        ensures highest { IsHighest (view self.old).service (classed result) }
    {
        let (v, _) = self.service.highest()?;
        self.service.remove(v);
        Some(v)
    }

    // A vector joins the requests.
    pub fn inject(&mut self, v: u8) -> Result<(), Fault>
        ensures answer { result ≡ (if is_usable v then Ok tt else Err Unusable) }
        ensures after { view self.new ≡ (if is_usable v then after_inject (view self.old) v else view self.old) }
    {
        self.requests.insert(UsableVector::try_from(v)?.into());
        Ok(())
    }

    // The vectors of a group's word join the requests.
    pub fn join(&mut self, group: u8, word: u64) -> Result<(), Fault>
        ensures answer { result ≡ (if nat_lt group 4 then (if usable_word group word then Ok tt else Err Unusable) else Err NoGroup) }
        ensures after { view self.new ≡ (if nat_lt group 4 && usable_word group word then after_join (view self.old) group word else view self.old) }
    {
        let mut requests = self.requests;
        requests.join(group, word)?;
        if !usable_word(group, word) {
            return Err(Fault::Unusable);
        }
        self.requests = requests;
        Ok(())
    }
}
