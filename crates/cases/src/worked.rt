ghost use Rattle.std.specs.Prelude.{◌≡◌, length};
ghost use Rattle.cases.specs.Worked.{cases as listed, YieldsAll};

/// How many worked cases the definitions are shown to yield.
pub fn worked_cases() -> usize
    ensures count { result ≡ length listed }
    ensures yielded { YieldsAll listed }
{
    29
}
