ghost use Rattle.std.specs.Prelude.{◌≡◌, length};
ghost use Rattle.bank.specs.Worked.{examples as listed, Settled};

// How many worked examples of the rules are computed from the definitions.
pub fn worked_examples() -> usize
    ensures count { result ≡ length listed }
    ensures settled { Settled }
{
    4
}
